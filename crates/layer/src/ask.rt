ghost use Rattle.std.specs.Prelude.{◌≡◌, ◌≤◌, length, Ok};
ghost use Rattle.picture.specs.Prepare.{Shown, area, first_in, nth, up};
ghost use Rattle.layer.specs.Aims.{Inside};

use picture::{Fault, Picture, Rect, Refusal};
use pixel::Kind;

/// Prepares a region below that lies inside and has room.
// The body of survey's `look` too: a function for both would be a public call of a picture with a premise, and none has one.
pub(crate) fn ask<P: Picture>(below: &mut P, at: Rect, codes: &mut [u64]) -> Result<(), Fault>
    requires inside { Inside at (P.model below.old).shown.width (P.model below.old).shown.height }
    requires room { area at ≤ length codes.old }
    ensures answer { result ≡ first_in (nth (P.model below.old).shown at) (area at) }
    ensures shown { result ≡ Ok tt → Shown P.Pixel.ops (nth (P.model below.old).shown at) (area at) codes.new }
    ensures keeps { P.model below.new ≡ P.model below.old }
    ensures counts { P.count below.new ≡ up (P.count below.old) }
{
    // a match: of several refusals one is told, and the others can't come here
    match below.prepare(at, codes) {
        Ok(()) => Ok(()),
        Err(Refusal::Hole(fault)) => Err(fault),
        Err(_) => unreachable!(),
    }
}
