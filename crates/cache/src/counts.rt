/// What a cache has counted; each count stops at 2^64 - 1.
#[derive(Clone, Copy, Default, PartialEq, Eq, Debug)]
pub struct Counts {
    /// Tiles that were listed.
    pub hits: u64,
    /// Tiles that were prepared below.
    pub fetches: u64,
    /// Rectangles that were prepared below, since a tile was refused there.
    pub bypasses: u64,
}
