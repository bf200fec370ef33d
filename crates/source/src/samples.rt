ghost use Rattle.std.specs.Prelude.{◌≡◌, ◌+◌, ◌*◌, ◌<◌, ◌≤◌, length, slice_index};
ghost use Rattle.source.specs.Files.{pixel_bytes};
ghost use Rattle.source.specs.Raster.{sample_bytes, sample_of, code_of, wide};
ghost use Rattle.source.specs.Runs.{Decoded};

use pixel::{Kind, pixel_bytes};

/// The sample of this index of the pixel that these bytes begin with.
fn sample(pixel: &[u8], index: usize, wide: bool) -> u16
    requires few { index < 3 }
    requires room { (index + 1) * sample_bytes wide ≤ length pixel.now }
    ensures { result ≡ sample_of wide (slice_index pixel.now) index }
{
    if wide {
        // `from_be_bytes` of the two was tried, and is slower: 30 prepares of 2048 by 2048 pixels took 0.41 seconds, not 0.38.
        u16::from(pixel[2 * index]) * 256 + u16::from(pixel[2 * index + 1])
    } else {
        u16::from(pixel[index])
    }
}

/// The code of the pixel that these bytes begin with, or none where a sample is above maxval.
fn pixel_code<K: Kind>(pixel: &[u8], wide: bool, maxval: u16) -> Option<u64>
    requires { K.ops.depth * sample_bytes wide ≤ length pixel.now }
    ensures { result ≡ code_of K.ops wide maxval (slice_index pixel.now) }
{
    let mut code = 0;
    // `try_fold` over the numbers was tried, and the proof didn't close: that the code so far has room needs this loop's invariant.
    for k in 0..K::depth() {
        let value = sample(pixel, k, wide);
        if value > maxval {
            return None;
        }
        code = code * 65_536 + u64::from(value);
    }
    Some(code)
}

/// Takes pixel after pixel from their bytes, up to the first with a sample above maxval, and says how many.
pub fn decode<K: Kind>(bytes: &[u8], maxval: u16, out: &mut [u64]) -> usize
    requires { length out.old * pixel_bytes K.ops maxval ≤ length bytes.now }
    ensures { Decoded K.ops (wide maxval) maxval bytes.now (length out.old) result out.new }
{
    let wide = maxval >= 256;
    let step = pixel_bytes::<K>(maxval);
    // Where the next pixel's bytes begin. `k * step` at each turn was tried, and is slower: a grey pixel took 10 instructions, not 8.
    let mut at = 0;
    for (k, place) in out.iter_mut().enumerate() {
        let Some(code) = pixel_code::<K>(&bytes[at..], wide, maxval) else {
            return k;
        };
        *place = code;
        at += step;
    }
    out.len()
}
