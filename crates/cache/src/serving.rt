ghost use Rattle.std.specs.Prelude.{◌≡◌, length};
ghost use Rattle.picture.specs.Prepare.{Prepared, Forgot};
ghost use Rattle.cache.specs.Machine.{counts_of};
ghost use Rattle.cache.specs.Caching.{Made, Worked, Emptied, Bare, model_of, state_of};
ghost use Rattle.cache.specs.Seen.{seen};
ghost use Rattle.std.proofs.Common.{rules};

use crate::counts::Counts;
use crate::keeper::Keeper;
use crate::shape::TileShape;
use crate::tiles::Tiles;
use picture::{Picture, Rect, Refusal, Size};
use pixel::Kind;

impl<P: Picture> Keeper<P> {
    /// A cache with nothing in it yet.
    pub fn new(shape: TileShape, below: P) -> Keeper<P>
        ensures { Made P.count shape below (seen result) }
    {
        Keeper {
            below,
            shape,
            tiles: Tiles::new(),
            count: 0,
        }
    }

    /// The hits, fetches and bypasses so far.
    pub fn counts(&self) -> Counts
        ensures { result ≡ counts_of (state_of P.count (seen self.now)) }
    {
        self.tiles.counts
    }
}

impl<P: Picture> Picture for Keeper<P> {
    type Pixel = P::Pixel;

    ghost model = { λ c. model_of P.model (seen c) };

    ghost count = { λ c. c.count };

    ghost bare = { λ c. Bare P.bare (seen c) };

    ghost sized = { Prim.search rules };

    ghost bounded = { Prim.search rules };

    ghost composed = { Prim.search rules };

    fn size(&self) -> Size {
        self.below.size()
    }

    /// By tiles; where one is refused below, the rectangle itself is prepared there.
    fn prepare(&mut self, rect: Rect, buffer: &mut [u64]) -> Result<(), Refusal>
        ensures prepared { Prepared P.Pixel.ops (λ c. model_of P.model (seen c)) (λ c. c.count) self.old rect buffer.old result self.new buffer.new }
        ensures worked { Worked P.model P.count (seen self.old) rect (length buffer.old) (seen self.new) }
    {
        self.count = self.count.saturating_add(1);
        let size = self.below.size();
        rect.admitted(size.width, size.height, buffer.len())?;
        // a match, since where the walk was refused there is more to do
        match self.walk(size, rect, buffer) {
            Ok(()) => Ok(()),
            Err(_) => {
                let bypasses = &mut self.tiles.counts.bypasses;
                *bypasses = bypasses.saturating_add(1);
                self.below.prepare(rect, buffer)
            }
        }
    }

    fn count(&self) -> u64 {
        self.count
    }

    /// Empties the list, here and below, and keeps the counts.
    fn forget(&mut self)
        ensures forgot { Forgot (λ c. model_of P.model (seen c)) (λ c. c.count) (λ c. Bare P.bare (seen c)) self.old self.new }
        ensures emptied { Emptied P.count (seen self.old) (seen self.new) }
    {
        self.tiles.len = 0;
        self.below.forget();
    }
}
