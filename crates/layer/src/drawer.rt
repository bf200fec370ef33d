ghost use Rattle.layer.specs.Standing.{Stands};

use crate::over::Over;
use picture::Picture;

/// How many codes of the picture below are held at a time: as many as a sum takes.
// In a fixed array: the engine's crates allocate nothing.
pub(crate) const ROOM: usize = 4096;

/// What draws a step over a picture.
#[derive(Drop)]
pub(crate) struct Drawer<P: Picture> {
    pub(crate) below: P,
    pub(crate) over: Over,
    pub(crate) count: u64,
    pub(crate) scratch: [u64; ROOM],
    // the size is that of the picture below, and the step can stand over it
    ghost stands: { Stands (P.model below).shown over.step over.size },
}
