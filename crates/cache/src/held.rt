use crate::tile::Tile;

/// A tile, and the slot that holds its pixels.
#[derive(Clone, Copy)]
pub struct Held {
    pub tile: Tile,
    pub slot: u32,
}
