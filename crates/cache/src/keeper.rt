ghost use Rattle.cache.specs.Machine.{Once, once_prop};
ghost use Rattle.cache.specs.Order.{listed};
ghost use Rattle.cache.specs.Slots.{Ready};

use crate::shape::TileShape;
use crate::tiles::Tiles;
use picture::Picture;

/// What keeps tiles of the picture below.
#[derive(Drop)]
pub(crate) struct Keeper<P: Picture> {
    pub(crate) below: P,
    pub(crate) shape: TileShape,
    pub(crate) tiles: Tiles,
    pub(crate) count: u64,
    // each listed slot holds the pixels that the picture below has in its tile
    ghost ready: { Ready P.Pixel.ops (P.model below).shown shape tiles },
    // no tile is listed twice
    ghost once: { Once (listed tiles.held tiles.len) } by { once_prop (listed tiles.held tiles.len) },
}
