ghost use Rattle.std.specs.Prelude.{◌≡◌, ◌<◌};
ghost use Rattle.layer.specs.Layers.{Kept, located};
ghost use Rattle.layer.specs.Seen.{layered_of, seen};

use crate::drawer::Drawer;
use crate::piece::Piece;
use crate::undrawn::Undrawn;
use picture::{Fault, Picture, Rect};
use pixel::Kind;

impl<P: Picture> Drawer<P> {
    /// The code of one place, or its fault.
    pub(crate) fn place(&mut self, u: u32, v: u32) -> Result<u64, Fault>
        requires across { u < (layered_of P.Pixel.ops P.model self.old).shown.width }
        requires down { v < (layered_of P.Pixel.ops P.model self.old).shown.height }
        ensures answer { result ≡ located P.Pixel.ops ((layered_of P.Pixel.ops P.model self.old).shown.at u v) }
        ensures kept { Kept P.Pixel.ops P.model P.count (seen self.old) (seen self.new) }
    {
        let whole = Rect {
            left: u,
            top: v,
            width: 1,
            height: 1,
        };
        let mut code = [0];
        // a match: of two refusals one is told, and the other can't come, since a single place is always small enough to be drawn at once
        match self.block(Piece { whole, part: whole }, &mut code) {
            Ok(()) => Ok(code[0]),
            Err(Undrawn::Hole(fault)) => Err(fault),
            Err(Undrawn::Uncut) => unreachable!(),
        }
    }
}
