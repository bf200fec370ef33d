ghost use Rattle.std.specs.Prelude.{◌≡◌, length, Ok};
ghost use Rattle.picture.specs.Prepare.{area};
ghost use Rattle.picture.specs.Steps.{formula};
ghost use Rattle.layer.specs.Aims.{Inside, Needless};
ghost use Rattle.layer.specs.Laid.{Shows};
ghost use Rattle.layer.specs.Layers.{Kept};
ghost use Rattle.layer.specs.Seen.{layered_of, seen};

use crate::drawer::Drawer;
use crate::piece::Piece;
use picture::{Fault, Picture, Rows};
use pixel::Kind;

impl<P: Picture> Drawer<P> {
    /// A part, place by place, up to a hole.
    fn exact(&mut self, piece: Piece, buffer: &mut [u64]) -> Result<(), Fault>
        requires inside { Inside piece.whole (layered_of P.Pixel.ops P.model self.old).shown.width (layered_of P.Pixel.ops P.model self.old).shown.height }
        requires room { length buffer.old ≡ area piece.whole }
        ensures laid { result ≡ Ok tt → Shows P.Pixel.ops (layered_of P.Pixel.ops P.model self.old).shown piece.whole piece.part buffer.old buffer.new }
        ensures kept { Kept P.Pixel.ops P.model P.count (seen self.old) (seen self.new) }
    {
        let wide = piece.part.width as usize;
        // by row and slice, since behind `chunks_mut` a proof knows nothing of the elements
        for j in 0..piece.part.height {
            let from = piece.row(j);
            let row = &mut buffer[from..from + wide];
            self.row(piece.part.left, piece.part.top + j, row)?;
        }
        Ok(())
    }

    /// A part, cut until what a piece needs has room, up to a hole.
    pub(crate) fn tile(&mut self, piece: Piece, buffer: &mut [u64]) -> Result<(), Fault>
        requires inside { Inside piece.whole (layered_of P.Pixel.ops P.model self.old).shown.width (layered_of P.Pixel.ops P.model self.old).shown.height }
        requires room { length buffer.old ≡ area piece.whole }
        ensures laid { result ≡ Ok tt → Shows P.Pixel.ops (layered_of P.Pixel.ops P.model self.old).shown piece.whole piece.part buffer.old buffer.new }
        ensures kept { Kept P.Pixel.ops P.model P.count (seen self.old) (seen self.new) }
        ensures drawn { Needless (formula self.old.over.step self.old.over.size.width self.old.over.size.height) piece.part → result ≡ Ok tt }
        ensures quiet { Needless (formula self.old.over.step self.old.over.size.width self.old.over.size.height) piece.part → P.count self.new.below ≡ P.count self.old.below }
    {
        let Piece { whole, part, .. } = piece;
        if let Some(cut) = self.over.cut(part) {
            let (near, far) = cut.halves(part);
            self.tile(Piece { whole, part: near }, buffer)?;
            return self.tile(Piece { whole, part: far }, buffer);
        }
        // a match, since both arms change the layer and the buffer, which a closure of `or_else` would hold
        match self.block(piece, buffer) {
            Ok(()) => Ok(()),
            Err(_) => self.exact(piece, buffer),
        }
    }
}
