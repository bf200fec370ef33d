ghost use Rattle.std.specs.Prelude.{◌≡◌, ℕ, ◌-◌, ◌*◌, ◌<◌, ◌≤◌, length, slice_index};
ghost use Rattle.pixel.specs.Ops.{Under};
ghost use Rattle.pixel.specs.Widths.{pixel_width};
ghost use Rattle.writer.specs.Layout.{Known, row_bytes, rows_bytes, square_bytes};
ghost use Rattle.writer.specs.Calls.{over};

use crate::layout::{put_codes, put_same};
use pixel::Kind;

/// A square of pixels, and the pixel that stands to the right of what it shows and below it.
#[derive(Drop)]
pub(crate) struct Square<K: Kind> {
    pub(crate) side: usize,
    pub(crate) pad: K,
    pub(crate) maxval: u16,
    ghost small: { side ≤ 256 },
    ghost under: { Under maxval (K.ops.samples pad) },
}

// That codes are known stands in each contract, as in `layout.rt`.
impl<K: Kind> Square<K> {
    /// Writes a row that shows these codes.
    fn put_row(&self, out: &mut [u8], codes: &[u64]) -> usize
        requires within { length codes.now ≤ self.now.side }
        requires room { self.now.side * pixel_width K.ops self.now.maxval ≤ length out.old }
        requires known { (k : ℕ) → k < length codes.now → Known K.ops self.now.maxval (K.ops.decode (slice_index codes.now k)) }
        ensures end { result ≡ self.now.side * pixel_width K.ops self.now.maxval }
        ensures out { out.new ≡ over (row_bytes K.ops self.now.maxval self.now.pad self.now.side codes.now) out.old }
    {
        let end = put_codes::<K>(out, codes, self.maxval);
        end + put_same(
            &mut out[end..],
            self.pad,
            self.side - codes.len(),
            self.maxval,
        )
    }

    /// Writes the rows that show these codes.
    // By index: `chunks_exact` would ask that `wide` be at least 1, and that no codes lie behind the last row.
    fn put_rows(&self, out: &mut [u8], codes: &[u64], wide: usize, high: usize) -> usize
        requires codes { high * wide ≤ length codes.now }
        requires within { wide ≤ self.now.side }
        requires room { high * (self.now.side * pixel_width K.ops self.now.maxval) ≤ length out.old }
        requires known { (k : ℕ) → k < high * wide → Known K.ops self.now.maxval (K.ops.decode (slice_index codes.now k)) }
        ensures end { result ≡ high * (self.now.side * pixel_width K.ops self.now.maxval) }
        ensures out { out.new ≡ over (rows_bytes K.ops self.now.maxval self.now.pad self.now.side wide codes.now high) out.old }
    {
        let mut end = 0;
        for j in 0..high {
            end += self.put_row(&mut out[end..], &codes[j * wide..j * wide + wide]);
        }
        end
    }

    /// Writes the square, which shows rows of codes.
    pub(crate) fn put(&self, out: &mut [u8], codes: &[u64], wide: usize, high: usize) -> usize
        requires codes { high * wide ≤ length codes.now }
        requires across { wide ≤ self.now.side }
        requires down { high ≤ self.now.side }
        requires room { self.now.side * self.now.side * pixel_width K.ops self.now.maxval ≤ length out.old }
        requires known { (k : ℕ) → k < high * wide → Known K.ops self.now.maxval (K.ops.decode (slice_index codes.now k)) }
        ensures end { result ≡ self.now.side * self.now.side * pixel_width K.ops self.now.maxval }
        ensures out { out.new ≡ over (square_bytes K.ops self.now.maxval self.now.pad self.now.side wide high codes.now) out.old }
    {
        let end = self.put_rows(out, codes, wide, high);
        end + put_same(
            &mut out[end..],
            self.pad,
            (self.side - high) * self.side,
            self.maxval,
        )
    }
}
