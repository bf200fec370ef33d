ghost use Rattle.std.specs.Prelude.{◌≡◌, ℕ, ◌+◌, ◌-◌, ◌*◌, ◌<◌, ◌≤◌, List, length, slice_index};
ghost use Rattle.picture.specs.Compose.{summed};
ghost use Rattle.picture.specs.Limits.{largest};
ghost use Rattle.picture.specs.Prepare.{area};
ghost use Rattle.layer.specs.Aims.{Readable, Steady, lens_pixel, walked};
ghost use Rattle.layer.specs.Laid.{Laid};

use crate::aim::Carry;
use crate::mix::Blended;
use crate::piece::Piece;
use crate::weights::Weights;
use pixel::Kind;

/// How the codes of a region make the place (i, j) of a part.
// A trait: what a closure computes would be said less plainly by its `post`.
pub(crate) trait Draw {
    ghost drawn: { Self → List ℕ → ℕ → ℕ → ℕ };

    ghost can: { Self → List ℕ → ℕ → ℕ → Type 0 };

    fn draw(&self, codes: &[u64], i: u32, j: u32) -> u64
        requires { can self.now codes.now i j }
        ensures { result ≡ drawn self.now codes.now i j };
}

impl Draw for Carry {
    ghost drawn = { λ c codes i j. slice_index codes (walked c i j) };

    ghost can = { λ c codes i j. Steady c × (i ≤ 65535) × (j ≤ 65535) × (j * c.up ≤ c.base + j * c.down) × (i * c.left ≤ c.base + j * c.down - j * c.up + i * c.right) × (walked c i j < length codes) };

    fn draw(&self, codes: &[u64], i: u32, j: u32) -> u64 {
        let (i, j) = (i as usize, j as usize);
        let row = self.base + j * self.down - j * self.up;
        codes[row + i * self.right - i * self.left]
    }
}

/// One code for every place.
#[derive(Clone, Copy)]
pub(crate) struct Plain {
    pub code: u64,
}

impl Draw for Plain {
    ghost drawn = { λ p _ _ _. p.code };

    ghost can = { λ _ _ _ _. Unit {0} };

    fn draw(&self, codes: &[u64], i: u32, j: u32) -> u64 {
        self.code
    }
}

impl<K: Kind, W: Weights> Draw for Blended<K, W> {
    ghost drawn = { λ b codes i j. K.ops.code (K.ops.finish (summed K.ops (lens_pixel K.ops codes b.lens i j) (W.weighs b.filter.weights) (b.lens.columns * b.lens.rows)) b.filter.scale b.filter.offset b.maxval) };

    ghost can = { λ b codes i j. Readable K.ops codes b.lens i j };

    fn draw(&self, codes: &[u64], i: u32, j: u32) -> u64 {
        self.mix(codes, i, j).code()
    }
}

/// Writes the places of row `j` of a part.
fn lay_row<D: Draw>(draw: &D, codes: &[u64], j: u32, row: &mut [u64])
    requires can { (i : ℕ) → i < length row.old → D.can draw.now codes.now i j }
    requires wide { length row.old ≤ largest }
    ensures { (i : ℕ) → i < length row.old → slice_index row.new i ≡ D.drawn draw.now codes.now i j }
{
    for (i, code) in row.iter_mut().enumerate() {
        *code = draw.draw(codes, i as u32, j);
    }
}

/// Writes a part into its places of the rectangle's buffer.
// Inlined: behind a call, what draws would be read from memory again for each place.
#[inline(always)]
pub(crate) fn lay<D: Draw>(draw: &D, codes: &[u64], piece: Piece, buffer: &mut [u64])
    requires can { (i j : ℕ) → i < piece.part.width → j < piece.part.height → D.can draw.now codes.now i j }
    requires room { length buffer.old ≡ area piece.whole }
    ensures { Laid piece.whole piece.part.left piece.part.top piece.part.width piece.part.height (λ u v c. c ≡ D.drawn draw.now codes.now (u - piece.part.left) (v - piece.part.top)) buffer.old buffer.new }
{
    let wide = piece.part.width as usize;
    // by row and slice, since behind `chunks_mut` a proof knows nothing of the elements
    for j in 0..piece.part.height {
        let from = piece.row(j);
        lay_row(draw, codes, j, &mut buffer[from..from + wide]);
    }
}
