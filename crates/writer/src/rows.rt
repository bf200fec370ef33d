ghost use Rattle.std.specs.Prelude.{◌≡◌, ◌+◌, ◌-◌, ◌*◌, ◌<◌, ◌≤◌, take, IfOk};
ghost use Rattle.writer.specs.Calls.{fits, Begun, Strip, Finished};
ghost use Rattle.writer.specs.Log.{Joined};

use crate::header::{header_bytes, put_header};
use crate::layout::put_codes;
use crate::row_writer::RowWriter;
use picture::{Picture, Rect, Refusal, Refused};
use pixel::{Kind, pixel_bytes};

/// Writes the header of the picture's file at the start of the buffer; answers how many bytes it has, and the writer of the rows.
pub fn begin<P: Picture>(picture: &P, out: &mut [u8]) -> Result<(usize, RowWriter), Refusal>
    ensures begun { Begun P.Pixel.ops (P.model picture.now).shown out.old result out.new }
    ensures whole { IfOk result (λ x. Joined P.Pixel.ops P.model P.count P.bare picture.now (take x.0 out.new) x.1) }
{
    let size = picture.size();
    if out.len() < header_bytes(size) {
        return Err(Refusal::BufferTooShort);
    }
    let mark = P::Pixel::mark();
    let bytes = put_header(out, mark, size);
    Ok((
        bytes,
        RowWriter {
            size,
            mark,
            next: 0,
        },
    ))
}

impl RowWriter {
    /// Whether it was begun for a picture of this size, maxval and kind.
    fn serves<P: Picture>(&self, picture: &P) -> bool
        ensures { result ≡ fits P.Pixel.ops (P.model picture.now).shown self.now }
    {
        self.size == picture.size() && self.mark == P::Pixel::mark()
    }

    /// Writes the next rows, as many as `height` and as are left, at the start of the buffer; answers how many bytes they have. The work buffer holds their codes.
    // two buffers beside the picture, here and for a tile: the caller lends both
    pub fn strip<P: Picture>(
        &mut self,
        picture: &mut P,
        height: u32,
        work: &mut [u64],
        out: &mut [u8],
    ) -> Result<usize, Refusal>
        ensures { Strip P.Pixel.ops P.model P.count picture.old height self.old work.old out.old result picture.new self.new work.new out.new }
    {
        if !self.serves(picture) {
            return Err(Refusal::OtherWriter);
        }
        let rows = height.min(self.size.height - self.next);
        if rows == 0 {
            return Err(Refusal::NoRows);
        }
        let places = self.size.width as usize * rows as usize;
        let bytes = places * pixel_bytes::<P::Pixel>(self.size.maxval);
        if work.len() < places || out.len() < bytes {
            return Err(Refusal::BufferTooShort);
        }
        let part = Rect {
            left: 0,
            top: self.next,
            width: self.size.width,
            height: rows,
        };
        picture.prepare(part, work)?;
        put_codes::<P::Pixel>(out, &work[..places], self.size.maxval);
        self.next += rows;
        Ok(bytes)
    }

    /// Ends the writer if all rows are written, else hands it back.
    pub fn finish(self) -> Result<(), Refused<RowWriter>>
        ensures { Finished self result }
    {
        if self.next < self.size.height {
            return Err(Refused {
                refusal: Refusal::RowsLeft,
                back: self,
            });
        }
        self.abandon();
        Ok(())
    }

    /// Ends the writer, whether or not all rows are written.
    pub fn abandon(self) {
        let RowWriter {
            size: _,
            mark: _,
            next: _,
        } = self;
    }
}
