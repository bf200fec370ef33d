ghost use Rattle.std.specs.Prelude.{◌*◌, ◌≤◌};
ghost use Rattle.cache.specs.Limits.{most_places, most_tiles};

/// The sides of a cache's tiles, and how many it holds.
#[derive(Clone, Copy, PartialEq, Eq, Debug)]
pub struct TileShape {
    pub width: u32,
    pub height: u32,
    pub slots: usize,
    ghost wide: { 1 ≤ width },
    ghost high: { 1 ≤ height },
    ghost small: { width * height ≤ most_places },
    ghost some: { 1 ≤ slots },
    ghost few: { slots ≤ most_tiles },
}
