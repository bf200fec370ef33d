ghost use Rattle.std.specs.Prelude.{◌≡◌, ℕ, ◌+◌, ◌<◌, ◌≤◌, List, ◌++◌, length, drop, replicate, Ok};
ghost use Rattle.picture.specs.Images.{Image};
ghost use Rattle.picture.specs.Refusals.{outcome};
ghost use Rattle.picture.specs.Prepare.{answer, filled, area, lined, first_in, nth, Shown};

use crate::fault::{Fault, Refusal};
use crate::rect::Rect;
use pixel::Kind;

/// What can be asked for a part of one row after another.
pub trait Rows {
    type Pixel: Kind;

    ghost view: { Self → Image Self.Pixel };

    // the second differs from the first only in what asking for rows may change
    ghost same: { Self → Self → Type 0 };

    /// Fills `out` with the codes of a row from column `left` on, or tells the first hole's fault.
    fn row(&mut self, left: u32, row: u32, out: &mut [u64]) -> Result<(), Fault>
        requires across { left + length out.old ≤ (view self.old).width }
        requires down { row < (view self.old).height }
        ensures answer { result ≡ first_in (lined (view self.old) left row) (length out.old) }
        ensures shown { result ≡ Ok tt → Shown Self.Pixel.ops (lined (view self.old) left row) (length out.old) out.new }
        ensures same { same self.old self.new };

    ghost stays: { (p : Self) → same p p };

    ghost follows: { (p q r : Self) → same p q → same q r → same p r };

    ghost shows: { (p q : Self) → same p q → view p ≡ view q };
}

fn fill<R: Rows>(rows: &mut R, rect: Rect, buffer: &mut [u64]) -> Result<(), Fault>
    requires across { rect.left + rect.width ≤ (R.view rows.old).width }
    requires down { rect.top + rect.height ≤ (R.view rows.old).height }
    requires room { area rect ≤ length buffer.old }
    ensures answer { result ≡ first_in (nth (R.view rows.old) rect) (area rect) }
    ensures shown { result ≡ Ok tt → Shown R.Pixel.ops (nth (R.view rows.old) rect) (area rect) buffer.new }
    ensures rest { drop (area rect) buffer.new ≡ drop (area rect) buffer.old }
    ensures same { R.same rows.old rows.new }
{
    let wide = rect.width as usize;
    // by slice, since behind `chunks_mut` a proof knows nothing of the codes
    for j in 0..rect.height {
        let from = j as usize * wide;
        rows.row(rect.left, rect.top + j, &mut buffer[from..from + wide])?;
    }
    Ok(())
}

/// The whole of a prepare, given the sides of what is shown.
pub fn serve<R: Rows>(
    rows: &mut R,
    wide: u32,
    high: u32,
    rect: Rect,
    buffer: &mut [u64],
) -> Result<(), Refusal>
    requires wide { wide ≡ (R.view rows.old).width }
    requires high { high ≡ (R.view rows.old).height }
    ensures answer { outcome result ≡ answer (R.view rows.old) rect (length buffer.old) }
    ensures buffer { buffer.new ≡ filled R.Pixel.ops (R.view rows.old) rect buffer.old }
    ensures same { R.same rows.old rows.new }
{
    let n = rect.admitted(wide, high, buffer.len())?;
    // a match, since at a hole there is more to do
    match fill(rows, rect, buffer) {
        Ok(()) => Ok(()),
        Err(fault) => {
            buffer[..n].fill(0);
            Err(Refusal::Hole(fault))
        }
    }
}
