ghost use Rattle.std.specs.Prelude.{◌≤◌};

use picture::Size;

/// Where a file's raster begins, the size of its picture, and the number of the source.
#[derive(Clone, Copy)]
pub struct Raster {
    pub start: u64,
    pub size: Size,
    pub source: u8,
    ghost early: { start ≤ 4096 },
}
