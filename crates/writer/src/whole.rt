ghost use Rattle.std.specs.Prelude.{◌≡◌, ◌*◌, ◌≤◌, min, true, length, None};
ghost use Rattle.picture.specs.Places.{first_fault};
ghost use Rattle.picture.specs.Refusals.{done};
ghost use Rattle.pixel.specs.Widths.{pixel_width};
ghost use Rattle.writer.specs.File.{place_of, raster};
ghost use Rattle.writer.specs.Calls.{ending, outcome_of, amount, end_outcome, fits, over};
ghost use Rattle.writer.specs.Whole.{Filed};

use crate::header::header_bytes;
use crate::row_writer::RowWriter;
use crate::rows::begin;
use picture::{Picture, Refusal};
use pixel::{Kind, pixel_bytes};

/// Writes all rows at the start of the buffer, by strips of this height; answers how many bytes they have.
fn put_strips<P: Picture>(
    writer: &mut RowWriter,
    picture: &mut P,
    height: u32,
    work: &mut [u64],
    out: &mut [u8],
) -> Result<usize, Refusal>
    requires fits { fits P.Pixel.ops (P.model picture.old).shown writer.old ≡ true }
    requires begun { writer.old.next ≡ 0 }
    requires some { 1 ≤ height }
    requires codes { (P.model picture.old).shown.width * min height (P.model picture.old).shown.height ≤ length work.old }
    requires room { (P.model picture.old).shown.width * (P.model picture.old).shown.height * pixel_width P.Pixel.ops (P.model picture.old).shown.maxval ≤ length out.old }
    ensures answers { outcome_of result ≡ end_outcome (ending None (first_fault (place_of (P.model picture.old).shown) ((P.model picture.old).shown.width * (P.model picture.old).shown.height))) }
    ensures amounts { outcome_of result ≡ done → amount result ≡ length (raster P.Pixel.ops (P.model picture.old).shown) }
    ensures writes { outcome_of result ≡ done → out.new ≡ over (raster P.Pixel.ops (P.model picture.old).shown) out.old }
    ensures keeps { P.model picture.new ≡ P.model picture.old }
{
    let mut end = 0;
    // a `while`, since the writer knows how many rows a strip had
    while writer.next < writer.size.height {
        end += writer.strip(picture, height, work, &mut out[end..])?;
    }
    Ok(end)
}

/// Writes the whole file of a picture at the start of the buffer, by strips of this height; answers how many bytes it has.
// the caller lends `work` and `out`, as for a strip
pub fn write_file<P: Picture>(
    picture: &mut P,
    height: u32,
    work: &mut [u64],
    out: &mut [u8],
) -> Result<usize, Refusal>
    ensures { Filed P.Pixel.ops P.model P.count picture.old height work.old out.old result picture.new work.new out.new }
{
    let size = picture.size();
    if height == 0 {
        return Err(Refusal::NoRows);
    }
    let wide = size.width as usize;
    let bytes = header_bytes(size)
        + wide * size.height as usize * pixel_bytes::<P::Pixel>(size.maxval);
    if work.len() < wide * height.min(size.height) as usize || out.len() < bytes {
        return Err(Refusal::BufferTooShort);
    }
    let (head, mut writer) = begin(picture, out)?;
    let rows = put_strips(&mut writer, picture, height, work, &mut out[head..]);
    writer.abandon();
    Ok(head + rows?)
}
