ghost use Rattle.std.specs.Prelude.{◌≡◌, ℕ, ℤ, None};
ghost use Rattle.pixel.specs.Ops.{Under};
ghost use Rattle.picture.specs.Places.{Place, pixel};
ghost use Rattle.picture.specs.Steps.{ground_of, grounded};
ghost use Rattle.picture.specs.Compose.{taken};
ghost use Rattle.writer.specs.Tiles.{Seen, Tiled};

use crate::header::{header_bytes, put_header};
use crate::square::Square;
use picture::{Ground, Picture, Rect, Refusal, Size};
use pixel::{Kind, pixel_bytes};

/// The largest side of a tile.
const LARGEST: u32 = 256;

/// The pixel that an embedding shows beside the picture that it holds, if it names no ground.
fn padding<K: Kind>(maxval: u16) -> K
    ensures shown { (at : ℕ → ℕ → Place K) (W H : ℕ) (x y : ℤ) → taken K.ops maxval at (grounded (ground_of None) W H x y) ≡ pixel result }
    ensures under { Under maxval (K.ops.samples result) }
{
    match Ground::default() {
        Ground::Black => K::black(),
        Ground::White => K::white(maxval),
        Ground::Copy => unreachable!(),
    }
}

/// The part of a picture that a tile shows, if there is such a tile.
fn visible(size: Size, column: u32, row: u32, side: u32) -> Option<Rect>
    ensures { Seen size.width size.height column row side result }
{
    let left = column as u64 * side as u64;
    let top = row as u64 * side as u64;
    if !(1..=LARGEST).contains(&side) || left >= size.width as u64 || top >= size.height as u64 {
        return None;
    }
    let left = left as u32;
    let top = top as u32;
    Some(Rect {
        left,
        top,
        width: side.min(size.width - left),
        height: side.min(size.height - top),
    })
}

/// Writes the file of a square of the picture at the start of the buffer: tile (column, row) starts at (column × side, row × side), and is padded right and below as an embedding that names no ground. Answers how many bytes it has. The work buffer holds the codes of the part inside the picture.
// the caller lends `work` and `out`, as for a strip
pub fn write_tile<P: Picture>(
    picture: &mut P,
    column: u32,
    row: u32,
    side: u32,
    work: &mut [u64],
    out: &mut [u8],
) -> Result<usize, Refusal>
    ensures { Tiled P.Pixel.ops P.model P.count picture.old column row side work.old out.old result picture.new work.new out.new }
{
    let size = picture.size();
    let part = visible(size, column, row, side).ok_or(Refusal::NoTile)?;
    let tile = Size {
        width: side,
        height: side,
        maxval: size.maxval,
    };
    let bytes = header_bytes(tile)
        + side as usize * side as usize * pixel_bytes::<P::Pixel>(size.maxval);
    if work.len() < part.area() || out.len() < bytes {
        return Err(Refusal::BufferTooShort);
    }
    picture.prepare(part, work)?;
    let head = put_header(out, P::Pixel::mark(), tile);
    let square = Square::<P::Pixel> {
        side: side as usize,
        pad: padding(size.maxval),
        maxval: size.maxval,
    };
    square.put(
        &mut out[head..],
        work,
        part.width as usize,
        part.height as usize,
    );
    Ok(bytes)
}
