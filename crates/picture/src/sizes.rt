ghost use Rattle.std.specs.Prelude.{◌≡◌, ℕ, ◌≤◌};
ghost use Rattle.picture.specs.Making.{SizeMade};

use crate::fault::Refusal;
use crate::limits::LIMIT;
use crate::size::Size;

impl Size {
    /// The size of these numbers, if each is within its limits.
    pub fn new(width: u32, height: u32, maxval: u32) -> Result<Size, Refusal>
        ensures { SizeMade width height maxval result }
    {
        let sides = 1..=LIMIT;
        if !sides.contains(&width) || !sides.contains(&height) || !(1..=65_535).contains(&maxval) {
            return Err(Refusal::OutsideLimits);
        }
        Ok(Size {
            width,
            height,
            maxval: maxval as u16,
        })
    }
}
