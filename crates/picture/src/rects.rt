ghost use Rattle.std.specs.Prelude.{◌≡◌, ℕ, ◌+◌, ◌*◌, ◌≤◌};
ghost use Rattle.picture.specs.Prepare.{Admitted, area};
ghost use Rattle.picture.specs.Making.{RectMade};

use crate::fault::Refusal;
use crate::limits::LIMIT;
use crate::rect::Rect;

impl Rect {
    /// The rectangle of these numbers, if they make one.
    pub fn new(left: u32, top: u32, width: u32, height: u32) -> Result<Rect, Refusal>
        ensures { RectMade left top width height result }
    {
        let extents = 1..=LIMIT;
        if !extents.contains(&width)
            || !extents.contains(&height)
            || left > LIMIT - width
            || top > LIMIT - height
        {
            return Err(Refusal::NotInside);
        }
        Ok(Rect {
            left,
            top,
            width,
            height,
        })
    }

    /// How many places it has.
    pub fn area(self) -> usize
        ensures { result ≡ area self }
    {
        self.width as usize * self.height as usize
    }

    /// How many entries of a buffer a prepare of it fills: it has to lie in a picture so wide and high, and then the buffer has to have room.
    // two sides and no `Size`, since `serve` is given no more
    pub fn admitted(self, wide: u32, high: u32, room: usize) -> Result<usize, Refusal>
        ensures { Admitted wide high self room result }
    {
        if self.left + self.width > wide || self.top + self.height > high {
            return Err(Refusal::NotInside);
        }
        let n = self.area();
        if n > room {
            return Err(Refusal::BufferTooShort);
        }
        Ok(n)
    }
}
