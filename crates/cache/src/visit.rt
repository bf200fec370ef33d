ghost use Rattle.std.specs.Prelude.{◌*◌, ◌<◌, IfOk};
ghost use Rattle.cache.specs.Machine.{visited};
ghost use Rattle.cache.specs.Grid.{Covers, whole};
ghost use Rattle.cache.specs.Slots.{Front};
ghost use Rattle.cache.specs.Visits.{Went};

use crate::keeper::Keeper;
use crate::shape::TileShape;
use crate::tile::Tile;
use picture::{Picture, Rect, Refusal, Size};

/// The rectangle of a tile, cut at the picture's edge.
pub fn cell(shape: TileShape, size: Size, tile: Tile) -> Rect
    requires across { tile.column * shape.width < size.width }
    requires down { tile.row * shape.height < size.height }
    ensures { Covers shape size.width size.height tile result }
{
    let left = tile.column * shape.width;
    let top = tile.row * shape.height;
    Rect {
        left,
        top,
        width: shape.width.min(size.width - left),
        height: shape.height.min(size.height - top),
    }
}

impl<P: Picture> Keeper<P> {
    /// Makes a tile, whose rectangle is `cell`, the first of the list, unless it is refused below.
    pub(crate) fn visit(&mut self, tile: Tile, cell: Rect) -> Result<(), Refusal>
        requires { Covers self.old.shape (P.model self.old.below).shown.width (P.model self.old.below).shown.height tile cell }
        ensures went { Went P.model P.count (λ s. visited self.old.shape.slots (whole (P.model self.old.below).shown self.old.shape) s tile) self.old result self.new }
        ensures front { IfOk result (λ _. Front self.new.tiles tile) }
    {
        if let Some(i) = self.tiles.find(tile) {
            self.tiles.hit(i);
            return Ok(());
        }
        let start = self.tiles.base(self.tiles.len);
        let end = start + cell.area();
        self.below
            .prepare(cell, &mut self.tiles.entries[start..end])?;
        self.tiles.admit(self.shape.slots, tile);
        Ok(())
    }
}
