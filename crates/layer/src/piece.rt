ghost use Rattle.std.specs.Prelude.{◌≡◌, ◌+◌, ◌<◌};
ghost use Rattle.layer.specs.Aims.{spot};
ghost use Rattle.layer.specs.Laid.{Part};

use picture::Rect;

/// A part of a rectangle.
// The rectangle's buffer is no field of it: where one now reads `room`, a struct that lends the buffer needs a clause on the reference's name.
#[derive(Clone, Copy)]
pub(crate) struct Piece {
    pub whole: Rect,
    pub part: Rect,
    ghost lies: { Part whole part },
}

impl Piece {
    /// Where row `j` of the part begins among the places of the rectangle.
    pub fn row(self, j: u32) -> usize
        requires { j < self.part.height }
        ensures { result ≡ spot self.whole self.part.left (self.part.top + j) }
    {
        let Piece { whole, part, .. } = self;
        let above = (part.top + j - whole.top) as usize;
        above * whole.width as usize + (part.left - whole.left) as usize
    }
}
