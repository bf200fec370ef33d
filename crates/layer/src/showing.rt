ghost use Rattle.picture.specs.Prepare.{Prepared};
ghost use Rattle.picture.specs.Refusals.{outcome};
ghost use Rattle.picture.specs.Steps.{formula};
ghost use Rattle.layer.specs.Asked.{Asked};
ghost use Rattle.layer.specs.Layers.{Kept};
ghost use Rattle.layer.specs.Seen.{layered_of, seen};
ghost use Rattle.std.specs.Prelude.{refl};
ghost use Rattle.std.proofs.Common.{ap};
ghost use Rattle.layer.specs.Placing.{kept-none, kept_follows, kept_layers};

use crate::drawer::Drawer;
use crate::piece::Piece;
use picture::{Fault, Picture, Rect, Refusal, Rows, serve};
use pixel::Kind;

impl<P: Picture> Rows for Drawer<P> {
    type Pixel = P::Pixel;

    ghost view = { λ l. (layered_of P.Pixel.ops P.model l).shown };

    ghost same = { λ p q. Kept P.Pixel.ops P.model P.count (seen p) (seen q) };

    ghost stays = { λ p. kept-none P.Pixel.ops P.model P.count (seen p) (seen p) refl refl refl refl };

    ghost follows = { λ p q r a b. kept_follows P.Pixel.ops P.model P.count (seen p) (seen q) (seen r) a b };

    ghost shows = { λ p q a. ap (λ m. m.shown) (kept_layers P.Pixel.ops P.model P.count (seen p) (seen q) a) };

    fn row(&mut self, left: u32, row: u32, out: &mut [u64]) -> Result<(), Fault> {
        for (k, code) in out.iter_mut().enumerate() {
            *code = self.place(left + k as u32, row)?;
        }
        Ok(())
    }
}

impl<P: Picture> Drawer<P> {
    /// A prepare that also says how often it asks the picture below.
    pub(crate) fn prepare_counted(&mut self, rect: Rect, buffer: &mut [u64]) -> Result<(), Refusal>
        ensures prepared { Prepared P.Pixel.ops (layered_of P.Pixel.ops P.model) (λ l. l.count) self.old rect buffer.old result self.new buffer.new }
        ensures asked { Asked (formula self.old.over.step (P.model self.old.below).shown.width (P.model self.old.below).shown.height) rect (outcome result) (P.count self.old.below) (P.count self.new.below) }
    {
        self.count = self.count.saturating_add(1);
        let size = self.over.shown();
        let n = rect.admitted(size.width, size.height, buffer.len())?;
        let piece = Piece {
            whole: rect,
            part: rect,
        };
        if self.tile(piece, &mut buffer[..n]).is_ok() {
            return Ok(());
        }
        serve(self, size.width, size.height, rect, buffer)
    }
}
