use crate::desk::Desk;
use crate::error::CutError;
use picture::{Picture, Refusal};
use pixel::Kind;
use std::fs;
use std::io::Write;
use writer::{RowWriter, begin};

/// The rows of a strip: as many as a tile of the caches is high, so that each tile is fetched once on the way down.
pub const STRIP: u32 = 16;

/// How the file by strips went.
#[derive(Clone, Copy)]
pub struct Written {
    pub bytes: u64,
    pub strips: u32,
    /// How many rows were written, of how many.
    pub rows: u32,
    pub height: u32,
    /// How many rows were read back and are as they should be; or why the file was abandoned.
    pub read_back: Result<u32, Refusal>,
}

/// Ends the writer, and says why where rows are left.
fn end(writer: RowWriter) -> Result<(), Refusal> {
    match writer.finish() {
        Ok(()) => Ok(()),
        Err(refused) => {
            refused.back.abandon();
            Err(refused.refusal)
        }
    }
}

impl<'a> Desk<'a> {
    /// Writes the header, which is in the buffer, and the rows, strip by strip.
    fn put_rows<P: Picture, W: Write>(
        &mut self,
        picture: &mut P,
        writer: &mut RowWriter,
        file: &mut W,
        written: &mut Written,
        head: usize,
    ) -> Result<(), CutError> {
        file.write_all(self.out.as_slice().get(0..head).unwrap_or(&[]))?;
        for _ in 0..written.height.div_ceil(STRIP) {
            let n = writer.strip(
                picture,
                STRIP,
                self.work.as_mut_slice(),
                self.out.as_mut_slice(),
            )?;
            file.write_all(self.out.as_slice().get(0..n).unwrap_or(&[]))?;
            written.bytes = written.bytes.saturating_add(n as u64);
            written.strips = written.strips.saturating_add(1);
            written.rows = written.rows.saturating_add(STRIP).min(written.height);
        }
        Ok(())
    }

    /// Writes all of the file, and ends the writer.
    fn put_file<P: Picture, W: Write>(
        &mut self,
        picture: &mut P,
        mut writer: RowWriter,
        file: &mut W,
        head: usize,
    ) -> Result<Written, CutError> {
        let mut written = Written {
            bytes: head as u64,
            strips: 0,
            rows: 0,
            height: picture.size().height,
            read_back: Ok(0),
        };
        match self.put_rows(picture, &mut writer, file, &mut written, head) {
            Ok(()) => written.read_back = end(writer).map(|()| 0),
            Err(CutError::Refused(refusal)) => {
                writer.abandon();
                written.read_back = Err(refusal);
            }
            // not by `?`, since the writer has to be ended
            Err(error) => {
                writer.abandon();
                return Err(error);
            }
        }
        Ok(written)
    }

    /// Writes the file of a picture by strips, and reads it back; a file that had to be abandoned is removed.
    pub fn write_picture<P: Picture>(&mut self, picture: &mut P) -> Result<Written, CutError> {
        let ending = self.ending;
        let name = format!(in self.rt.alloc(); "turned.{ending}")?;
        let (head, writer) = begin(picture, self.out.as_mut_slice())?;
        let mut file = match fs::create(self.rt, name.as_str()) {
            Ok(file) => file,
            // not by `?`, since the writer has to be ended
            Err(error) => {
                writer.abandon();
                return Err(CutError::from(error));
            }
        };
        let mut written = self.put_file(picture, writer, &mut file, head)?;
        drop(file);
        match written.read_back {
            Ok(_) => written.read_back = Ok(self.read_back(picture, name.as_str())?),
            Err(_) => fs::remove_file(self.rt, name.as_str())?,
        }
        Ok(written)
    }
}
