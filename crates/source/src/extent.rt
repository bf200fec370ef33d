ghost use Rattle.std.specs.Prelude.{◌≡◌};
ghost use Rattle.store.specs.Cells.{capped};
ghost use Rattle.source.specs.Files.{pixel_bytes};
ghost use Rattle.source.specs.Extent.{Silent, LostBehind, reached};

use crate::file::FileSource;
use crate::raster::Raster;
use pixel::{Kind, pixel_bytes};
use store::Store;

impl<S: Store, K: Kind> FileSource<S, K> {
    /// Where the file's raster begins, its size, and the number of the source.
    pub fn raster(&self) -> Raster
        ensures { result ≡ self.now.raster }
    {
        self.raster
    }

    /// How many pixels in reading order have their first byte before place `end` of the store. If the store has no byte from there on, all later places are holes.
    pub fn pixels_before(&self, end: u64) -> u64
        ensures value { result ≡ reached self.now.raster.start end (pixel_bytes K.ops self.now.raster.size.maxval) }
        ensures law { Silent (capped (S.at self.now.store)) end → LostBehind K.ops (capped (S.at self.now.store)) self.now.raster result }
    {
        let step = pixel_bytes::<K>(self.raster.size.maxval) as u64;
        end.saturating_sub(self.raster.start).div_ceil(step)
    }
}
