use crate::desk::Desk;
use crate::error::CutError;
use crate::text::Summary;
use cache::{Cache, TileShape};
use layer::Layer;
use picture::{Picture, Step, Turn};
use pixel::Kind;
use reread::open;
use store::{Bytes, Store};

/// Builds the pipeline over a source, a cache below the steps and one above them, and writes its files.
fn turn_and_shrink<P: Picture + Drop>(
    rt: &HostRuntime,
    source: P,
    ending: &str,
) -> Result<(), CutError> {
    let before = source.size();
    let shape = TileShape::new(16, 16, 16)?;
    let turned = Layer::new(Cache::new(shape, source), Step::Rot(Turn::D90))?;
    let shrunk = Layer::new(turned, Step::Shrink { across: 2, down: 2 })?;
    let mut pipeline = Cache::new(shape, shrunk);
    let mut desk = Desk::new(rt, ending, &pipeline)?;
    let file = desk.write_picture(&mut pipeline)?;
    let tiles = desk.cut_tiles(&mut pipeline)?;
    rt.print(Summary {
        ending,
        before,
        after: pipeline.size(),
        file,
        tiles,
        prepares: pipeline.count(),
        upper: pipeline.counts(),
        lower: pipeline.below().below().below().counts(),
    })?;
    Ok(())
}

/// Cuts the picture of this kind in a file's bytes.
pub fn cut<K: Kind>(rt: &HostRuntime, bytes: &[u8], ending: &str) -> Result<(), CutError> {
    let source = open::<Bytes, K>(Bytes { bytes }, 0)?;
    turn_and_shrink(rt, source, ending)
}
