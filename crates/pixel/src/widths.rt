ghost use Rattle.std.specs.Prelude.{◌≡◌, ◌≤◌};
ghost use Rattle.pixel.specs.Widths.{pixel_width};

use crate::kind::Kind;

/// How many bytes of a file a pixel of this kind has: one for each sample where maxval is below 256, else two.
pub fn pixel_bytes<K: Kind>(maxval: u16) -> usize
    ensures value { result ≡ pixel_width K.ops maxval }
    ensures some { 1 ≤ result }
    ensures few { result ≤ 6 }
{
    if maxval < 256 {
        K::depth()
    } else {
        K::depth() * 2
    }
}
