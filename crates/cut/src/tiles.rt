use crate::desk::Desk;
use crate::error::CutError;
use picture::Picture;
use pixel::Kind;
use std::fmt::Write;
use std::fs;
use writer::write_tile;

/// The side of a tile file.
pub const SIDE: u32 = 64;

/// How many tiles were written, of how many, their bytes, and a line for each that was left out.
#[derive(Drop)]
pub struct Tiles {
    pub written: u32,
    pub all: u32,
    pub bytes: u64,
    pub left_out: String,
}

impl<'a> Desk<'a> {
    /// Writes one tile, or notes why it is left out.
    fn cut_tile<P: Picture>(
        &mut self,
        picture: &mut P,
        column: u32,
        row: u32,
        tiles: &mut Tiles,
    ) -> Result<(), CutError> {
        let ending = self.ending;
        let name = format!(in self.rt.alloc(); "tile-{column}-{row}.{ending}")?;
        tiles.all = tiles.all.saturating_add(1);
        let out = self.out.as_mut_slice();
        match write_tile(picture, column, row, SIDE, self.work.as_mut_slice(), out) {
            Ok(n) => {
                let bytes = self.out.as_slice().get(0..n).unwrap_or(&[]);
                fs::write(self.rt, name.as_str(), bytes)?;
                tiles.written = tiles.written.saturating_add(1);
                tiles.bytes = tiles.bytes.saturating_add(n as u64);
            }
            Err(refusal) => writeln!(tiles.left_out, "  {name}: {refusal}")?,
        }
        Ok(())
    }

    /// Writes all tiles of a picture, by rows from the left.
    pub fn cut_tiles<P: Picture>(&mut self, picture: &mut P) -> Result<Tiles, CutError> {
        let size = picture.size();
        let mut tiles = Tiles {
            written: 0,
            all: 0,
            bytes: 0,
            left_out: String::new(self.rt.alloc()),
        };
        for row in 0..size.height.div_ceil(SIDE) {
            for column in 0..size.width.div_ceil(SIDE) {
                self.cut_tile(picture, column, row, &mut tiles)?;
            }
        }
        Ok(tiles)
    }
}
