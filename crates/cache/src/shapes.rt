ghost use Rattle.cache.specs.Shapes.{ShapeMade};

use crate::limits::{PLACES, TILES};
use crate::shape::TileShape;
use picture::Refusal;

impl TileShape {
    /// The shape of these numbers, if they are within their limits.
    pub fn new(width: u32, height: u32, slots: usize) -> Result<TileShape, Refusal>
        ensures { ShapeMade width height slots result }
    {
        if width < 1
            || height < 1
            || width as u64 * height as u64 > PLACES as u64
            || !(1..=TILES).contains(&slots)
        {
            return Err(Refusal::OutsideLimits);
        }
        Ok(TileShape {
            width,
            height,
            slots,
        })
    }
}
