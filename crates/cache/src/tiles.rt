ghost use Rattle.std.specs.Prelude.{◌≡◌, ◌<◌, ◌≤◌, position};
ghost use Rattle.cache.specs.Limits.{most_tiles, slot_count};
ghost use Rattle.cache.specs.Machine.{same as same_tile};
ghost use Rattle.cache.specs.Order.{slot_at, listed};
ghost use Rattle.cache.specs.Slots.{Unused, again, admitted, base as base_of};

use crate::counts::Counts;
use crate::held::Held;
use crate::limits::{ENTRIES, PLACES, SLOTS};
use crate::order::promote;
use crate::tile::Tile;
use std::array;

/// The slots: the first `len` hold the listed tiles, most recent first, and the next is spare.
///
/// Arrays with a length beside them, since a cache is made without a heap, and never refused.
#[derive(Drop)]
pub struct Tiles {
    pub held: [Held; SLOTS],
    pub len: usize,
    pub entries: [u64; ENTRIES],
    pub counts: Counts,
}

impl Tiles {
    /// No tile, and each slot in its own place.
    pub fn new() -> Tiles
        ensures { Unused result }
    {
        let tile = Tile { column: 0, row: 0 };
        Tiles {
            held: array::from_fn(|i| Held {
                tile,
                slot: i as u32,
            }),
            len: 0,
            entries: [0; ENTRIES],
            counts: Counts::default(),
        }
    }

    /// Where a tile is listed.
    pub fn find(&self, tile: Tile) -> Option<usize>
        requires { self.now.len ≤ slot_count }
        ensures { result ≡ position (λ t. same_tile t tile) (listed self.now.held self.now.len) }
    {
        self.held[..self.len]
            .iter()
            .map(|held| held.tile)
            .position(|listed| listed == tile)
    }

    /// Where the entries of the slot at `i` begin.
    pub fn base(&self, i: usize) -> usize
        requires { i < slot_count }
        ensures { result ≡ base_of (slot_at self.now.held i) }
    {
        self.held[i].slot as usize * PLACES
    }

    /// Moves the listed tile at `i` to the front.
    pub fn hit(&mut self, i: usize)
        requires { i < slot_count }
        ensures { self.new ≡ again self.old i }
    {
        promote(&mut self.held, i);
        self.counts.hits = self.counts.hits.saturating_add(1);
    }

    /// Lists the tile in the spare slot; the slot of one that leaves is then the spare one.
    pub fn admit(&mut self, slots: usize, tile: Tile)
        requires listed { self.old.len ≤ slots }
        requires few { slots ≤ most_tiles }
        ensures { self.new ≡ admitted slots tile self.old }
    {
        let len = self.len;
        self.held[len].tile = tile;
        promote(&mut self.held, len);
        self.len = slots.min(len + 1);
        self.counts.fetches = self.counts.fetches.saturating_add(1);
    }
}
