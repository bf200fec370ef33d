/// A tile, by its column and row among the tiles.
#[derive(Clone, Copy, PartialEq, Eq)]
pub struct Tile {
    pub column: u32,
    pub row: u32,
}
