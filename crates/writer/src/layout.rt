ghost use Rattle.std.specs.Prelude.{◌≡◌, ℕ, ◌*◌, ◌<◌, ◌≤◌, length, slice_index};
ghost use Rattle.std.specs.List.{flat_map};
ghost use Rattle.pixel.specs.Ops.{Under};
ghost use Rattle.pixel.specs.Widths.{sample_width, pixel_width};
ghost use Rattle.writer.specs.File.{sample_bytes, pixel_bytes};
ghost use Rattle.writer.specs.Layout.{repeated, code_bytes, Known};
ghost use Rattle.writer.specs.Calls.{over};

use pixel::Kind;

// Each function here writes at the start of the buffer, and answers how many bytes it wrote.
// That codes are known stands in each contract: a struct that says so of a lent slice would be made anew for each row, and is no plainer.

/// Writes a sample.
fn put_sample(out: &mut [u8], sample: u16, maxval: u16) -> usize
    requires room { sample_width maxval ≤ length out.old }
    requires under { sample ≤ maxval }
    ensures end { result ≡ sample_width maxval }
    ensures out { out.new ≡ over (sample_bytes maxval sample) out.old }
{
    if maxval < 256 {
        out[0] = sample as u8;
        1
    } else {
        out[..2].copy_from_slice(&sample.to_be_bytes());
        2
    }
}

/// Writes the samples of a pixel in their order.
fn put_pixel<K: Kind>(out: &mut [u8], pixel: K, maxval: u16) -> usize
    requires room { pixel_width K.ops maxval ≤ length out.old }
    requires under { Under maxval (K.ops.samples pixel) }
    ensures end { result ≡ pixel_width K.ops maxval }
    ensures out { out.new ≡ over (pixel_bytes K.ops maxval pixel) out.old }
{
    let mut end = 0;
    // by number: a kind gives each sample of a pixel so, and has no slice of them
    for k in 0..K::depth() {
        end += put_sample(&mut out[end..], pixel.sample(k), maxval);
    }
    end
}

/// Writes the pixels of codes.
pub(crate) fn put_codes<K: Kind>(out: &mut [u8], codes: &[u64], maxval: u16) -> usize
    requires room { length codes.now * pixel_width K.ops maxval ≤ length out.old }
    requires known { (k : ℕ) → k < length codes.now → Known K.ops maxval (K.ops.decode (slice_index codes.now k)) }
    ensures end { result ≡ length codes.now * pixel_width K.ops maxval }
    ensures out { out.new ≡ over (flat_map (code_bytes K.ops maxval) codes.now) out.old }
{
    let mut end = 0;
    for code in codes {
        if let Some(pixel) = K::decode(*code) {
            end += put_pixel(&mut out[end..], pixel, maxval);
        }
    }
    end
}

/// Writes a pixel so many times.
pub(crate) fn put_same<K: Kind>(out: &mut [u8], pixel: K, count: usize, maxval: u16) -> usize
    requires room { count * pixel_width K.ops maxval ≤ length out.old }
    requires under { Under maxval (K.ops.samples pixel) }
    ensures end { result ≡ count * pixel_width K.ops maxval }
    ensures out { out.new ≡ over (repeated (pixel_bytes K.ops maxval pixel) count) out.old }
{
    let mut end = 0;
    for _ in 0..count {
        end += put_pixel(&mut out[end..], pixel, maxval);
    }
    end
}
