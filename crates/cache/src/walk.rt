ghost use Rattle.std.specs.Prelude.{◌≡◌, ◌+◌, ◌*◌, ◌/◌, ◌≤◌, IfOk, length};
ghost use Rattle.picture.specs.Limits.{largest};
ghost use Rattle.picture.specs.Prepare.{area};
ghost use Rattle.cache.specs.Grid.{span, across as wideness, down as highness};
ghost use Rattle.cache.specs.Boxes.{Beyond};
ghost use Rattle.cache.specs.Walks.{Served, over_tiles};
ghost use Rattle.cache.specs.Visits.{Went};

use crate::blit::overlay;
use crate::keeper::Keeper;
use crate::tile::Tile;
use crate::visit::cell;
use picture::{Picture, Rect, Refusal, Size};
use pixel::Kind;

/// How many tiles of this side are touched by `count` columns or rows from `from` on.
// Three numbers and their limits: a struct would be made for each call and taken apart in it.
fn reach(from: u32, count: u32, side: u32) -> u32
    requires some { 1 ≤ count }
    requires inside { from + count ≤ largest }
    requires side { 1 ≤ side }
    ensures is { result ≡ span from count side }
    ensures some { 1 ≤ result }
    ensures few { from / side + result ≤ largest }
{
    (from + count - 1) / side - from / side + 1
}

impl<P: Picture> Keeper<P> {
    /// Copies a rectangle out of its tiles, tile by tile, until one is refused below; `size` is that of the picture.
    pub(crate) fn walk(&mut self, size: Size, rect: Rect, buffer: &mut [u64]) -> Result<(), Refusal>
        requires wide { size.width ≡ (P.model self.old.below).shown.width }
        requires high { size.height ≡ (P.model self.old.below).shown.height }
        requires across { rect.left + rect.width ≤ size.width }
        requires down { rect.top + rect.height ≤ size.height }
        requires room { area rect ≤ length buffer.old }
        ensures went { Went P.model P.count (over_tiles (P.model self.old.below).shown self.old.shape rect) self.old result self.new }
        ensures served { IfOk result (λ _. Served P.Pixel.ops (P.model self.old.below).shown self.old.shape rect buffer.new (wideness self.old.shape rect * highness self.old.shape rect)) }
        ensures rest { Beyond rect buffer.old buffer.new }
    {
        let shape = self.shape;
        let left = rect.left / shape.width;
        let top = rect.top / shape.height;
        let across = reach(rect.left, rect.width, shape.width);
        let down = reach(rect.top, rect.height, shape.height);
        for row in top..top + down {
            for column in left..left + across {
                let tile = Tile { column, row };
                let place = cell(shape, size, tile);
                self.visit(tile, place)?;
                let start = self.tiles.base(0);
                overlay(&self.tiles.entries[start..], place, rect, buffer);
            }
        }
        Ok(())
    }
}
