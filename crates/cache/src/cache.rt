ghost use Rattle.std.specs.Prelude.{◌≡◌, length};
ghost use Rattle.picture.specs.Prepare.{Prepared, Forgot};
ghost use Rattle.cache.specs.Machine.{Once, counts_of};
ghost use Rattle.cache.specs.Order.{listed};
ghost use Rattle.cache.specs.Slots.{Ready};
ghost use Rattle.cache.specs.Caching.{Made, Worked, Emptied, Bare, model_of, state_of};
ghost use Rattle.std.proofs.Common.{rules};

use crate::counts::Counts;
use crate::keeper::Keeper;
use crate::shape::TileShape;
use picture::{Picture, Rect, Refusal, Size};
use std::marker::Model;

/// A picture that keeps tiles of the picture below.
// What is true of the tiles is the keeper's; a cache has a model, since a type with a ghost field that cites the bound could be no field of a caller's type over another cache or layer.
#[derive(Drop)]
pub struct Cache<P: Picture> {
    keeper: Keeper<P>,
}

impl<P: Picture> Model for Cache<P> {
    ghost use Rattle.cache.specs.Cached.{Cached};

    ghost Value = { Cached P };

    ghost view = { λ c. record { below = c.keeper.below; shape = c.keeper.shape; tiles = c.keeper.tiles; count = c.keeper.count } };
}

impl<P: Picture> Cache<P> {
    /// A cache with nothing in it yet.
    pub fn new(shape: TileShape, below: P) -> Cache<P>
        ensures { Made P.count shape below result }
    {
        Cache {
            keeper: Keeper::new(shape, below),
        }
    }

    /// The picture below.
    pub fn below(&self) -> &P
        ensures is { result.now ≡ self.now.below }
        ensures ready { Ready P.Pixel.ops (P.model self.now.below).shown self.now.shape self.now.tiles }
        ensures once { Once (listed self.now.tiles.held self.now.tiles.len) }
    {
        &self.keeper.below
    }

    /// The hits, fetches and bypasses so far.
    pub fn counts(&self) -> Counts
        ensures { result ≡ counts_of (state_of P.count self.now) }
    {
        self.keeper.counts()
    }
}

impl<P: Picture> Picture for Cache<P> {
    type Pixel = P::Pixel;

    ghost model = { model_of P.model };

    ghost count = { λ c. c.count };

    ghost bare = { Bare P.bare };

    ghost sized = { Prim.search rules };

    ghost bounded = { Prim.search rules };

    ghost composed = { Prim.search rules };

    fn size(&self) -> Size {
        self.keeper.size()
    }

    /// By tiles; where one is refused below, the rectangle itself is prepared there.
    fn prepare(&mut self, rect: Rect, buffer: &mut [u64]) -> Result<(), Refusal>
        ensures prepared { Prepared P.Pixel.ops (model_of P.model) (λ c. c.count) self.old rect buffer.old result self.new buffer.new }
        ensures worked { Worked P.model P.count self.old rect (length buffer.old) self.new }
    {
        self.keeper.prepare(rect, buffer)
    }

    fn count(&self) -> u64 {
        self.keeper.count()
    }

    /// Empties the list, here and below, and keeps the counts.
    fn forget(&mut self)
        ensures forgot { Forgot (model_of P.model) (λ c. c.count) (Bare P.bare) self.old self.new }
        ensures emptied { Emptied P.count self.old self.new }
    {
        self.keeper.forget();
    }
}
