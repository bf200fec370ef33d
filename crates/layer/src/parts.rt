ghost use Rattle.std.specs.Prelude.{◌≡◌, ℕ, ◌-◌, ◌<◌, ◌≤◌, List, length, Ok, Err, Some};
ghost use Rattle.picture.specs.Compose.{taken};
ghost use Rattle.picture.specs.Prepare.{Shown, area, coded, first_in, nth, up};
ghost use Rattle.picture.specs.Steps.{Formula, formula};
ghost use Rattle.layer.specs.Aims.{Fair, Inside, Mixed, Needless};
ghost use Rattle.layer.specs.Laid.{Laid, Shows};
ghost use Rattle.layer.specs.Layers.{Kept, located, raised};
ghost use Rattle.layer.specs.Seen.{layered_of, seen};
ghost use Rattle.layer.specs.Told.{Told};

use crate::aim::{Aim, Lens};
use crate::ask::ask;
use crate::drawer::Drawer;
use crate::draws::{Draw, Plain, lay};
use crate::masks::of_mask;
use crate::mix::Blended;
use crate::piece::Piece;
use crate::undrawn::Undrawn;
use crate::weights::{Filter, Ones, Weights};
use picture::{Picture, Rect};
use pixel::Kind;
use std::marker::PhantomData;

/// Draws a part from a region below that is prepared at once.
#[inline(always)]
fn draw_part<P: Picture, D: Draw>(
    below: &mut P,
    at: Rect,
    draw: &D,
    codes: &mut [u64],
    piece: Piece,
    buffer: &mut [u64],
) -> Result<(), Undrawn>
    requires inside { Inside at (P.model below.old).shown.width (P.model below.old).shown.height }
    requires can { (codes : List ℕ) → area at ≤ length codes → Shown P.Pixel.ops (nth (P.model below.old).shown at) (area at) codes → (i j : ℕ) → i < piece.part.width → j < piece.part.height → D.can draw.now codes i j }
    requires room { length buffer.old ≡ area piece.whole }
    ensures laid { result ≡ Ok tt → (codes : List ℕ) × Shown P.Pixel.ops (nth (P.model below.old).shown at) (area at) codes × Laid piece.whole piece.part.left piece.part.top piece.part.width piece.part.height (λ u v c. c ≡ D.drawn draw.now codes (u - piece.part.left) (v - piece.part.top)) buffer.old buffer.new }
    ensures spared { (e : Undrawn) → result ≡ Err e → buffer.new ≡ buffer.old }
    ensures told { area at ≤ length codes.old → Told result (first_in (nth (P.model below.old).shown at) (area at)) }
    ensures keeps { P.model below.new ≡ P.model below.old }
    ensures counts { (n : ℕ) × (P.count below.new ≡ raised n (P.count below.old)) }
    ensures once { area at ≤ length codes.old → P.count below.new ≡ up (P.count below.old) }
{
    if at.area() > codes.len() {
        return Err(Undrawn::Uncut);
    }
    ask(below, at, codes)?;
    lay(draw, codes, piece, buffer);
    Ok(())
}

impl<P: Picture> Drawer<P> {
    /// A part whose places are windows through this filter, from one prepare below.
    #[inline(always)]
    fn blend_part<W: Weights>(
        &mut self,
        lens: Lens,
        filter: Filter<W>,
        piece: Piece,
        buffer: &mut [u64],
    ) -> Result<(), Undrawn>
        requires inside { Inside lens.at self.old.over.size.width self.old.over.size.height }
        requires fair { Fair lens piece.part }
        requires room { length buffer.old ≡ area piece.whole }
        ensures laid { result ≡ Ok tt → Laid piece.whole piece.part.left piece.part.top piece.part.width piece.part.height (λ u v c. (φ : Formula) → Mixed lens (W.weighs filter.weights) filter.scale filter.offset (u - piece.part.left) (v - piece.part.top) φ → coded P.Pixel.ops (taken P.Pixel.ops (P.model self.old.below).shown.maxval (P.model self.old.below).shown.at φ) ≡ Some c) buffer.old buffer.new }
        ensures spared { (e : Undrawn) → result ≡ Err e → buffer.new ≡ buffer.old }
        ensures told { piece.part.width ≡ 1 → piece.part.height ≡ 1 → (φ : Formula) → Mixed lens (W.weighs filter.weights) filter.scale filter.offset 0 0 φ → Told result (located P.Pixel.ops (taken P.Pixel.ops (P.model self.old.below).shown.maxval (P.model self.old.below).shown.at φ)) }
        ensures kept { Kept P.Pixel.ops P.model P.count (seen self.old) (seen self.new) }
        ensures once { piece.part.width ≡ 1 → piece.part.height ≡ 1 → P.count self.new.below ≡ up (P.count self.old.below) }
    {
        let blended: Blended<P::Pixel, W> = Blended {
            lens,
            filter,
            maxval: self.over.size.maxval,
            kind: PhantomData,
        };
        draw_part(
            &mut self.below,
            lens.at,
            &blended,
            &mut self.scratch,
            piece,
            buffer,
        )
    }

    /// A part at once; where that part is a single place, nothing but a hole refuses it.
    // Inlined, as is what draws for it: in `place` the loops over the one place fall away.
    #[inline(always)]
    pub(crate) fn block(&mut self, piece: Piece, buffer: &mut [u64]) -> Result<(), Undrawn>
        requires inside { Inside piece.whole (layered_of P.Pixel.ops P.model self.old).shown.width (layered_of P.Pixel.ops P.model self.old).shown.height }
        requires room { length buffer.old ≡ area piece.whole }
        ensures laid { result ≡ Ok tt → Shows P.Pixel.ops (layered_of P.Pixel.ops P.model self.old).shown piece.whole piece.part buffer.old buffer.new }
        ensures spared { (e : Undrawn) → result ≡ Err e → buffer.new ≡ buffer.old }
        ensures told { piece.part.width ≡ 1 → piece.part.height ≡ 1 → Told result (located P.Pixel.ops ((layered_of P.Pixel.ops P.model self.old).shown.at piece.part.left piece.part.top)) }
        ensures kept { Kept P.Pixel.ops P.model P.count (seen self.old) (seen self.new) }
        ensures drawn { Needless (formula self.old.over.step self.old.over.size.width self.old.over.size.height) piece.part → result ≡ Ok tt }
        ensures quiet { Needless (formula self.old.over.step self.old.over.size.width self.old.over.size.height) piece.part → P.count self.new.below ≡ P.count self.old.below }
        ensures once { piece.part.width ≡ 1 → piece.part.height ≡ 1 → (Needless (formula self.old.over.step self.old.over.size.width self.old.over.size.height) piece.part → ⊥) → P.count self.new.below ≡ up (P.count self.old.below) }
    {
        let Some(aim) = self.over.aim(piece.part) else {
            return Err(Undrawn::Uncut);
        };
        let pixel = match aim {
            Aim::Black => P::Pixel::black(),
            Aim::White => P::Pixel::white(self.over.size.maxval),
            Aim::Copy(carry) => return draw_part(
                &mut self.below,
                carry.at,
                &carry,
                &mut self.scratch,
                piece,
                buffer,
            ),
            Aim::Mean(lens) => {
                let filter = Filter {
                    weights: Ones,
                    scale: lens.columns * lens.rows,
                    offset: 0,
                };
                return self.blend_part(lens, filter, piece, buffer);
            }
            Aim::Masked(lens, mask) => return self.blend_part(lens, of_mask(mask), piece, buffer),
        };
        let plain = Plain { code: pixel.code() };
        lay(&plain, &self.scratch, piece, buffer);
        Ok(())
    }
}
