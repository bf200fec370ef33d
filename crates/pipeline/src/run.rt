ghost use Rattle.picture.specs.Prepare.{Prepared};
ghost use Rattle.pipeline.specs.Laws.{Answers, GoesOn};

use picture::{Picture, Rect, Refusal};
use pixel::Kind;

/// Prepares a rectangle of a picture. Whatever was called before, the answer is that of the picture composed from the source by the steps; and the log of calls goes on.
pub fn prepare<P: Picture>(picture: &mut P, rect: Rect, buffer: &mut [u64]) -> Result<(), Refusal>
    ensures prepared { Prepared P.Pixel.ops P.model P.count picture.old rect buffer.old result picture.new buffer.new }
    ensures answered { Answers P.Pixel.ops P.model P.count P.bare picture.old rect buffer.old result buffer.new }
    ensures logged { GoesOn P.Pixel.ops P.model P.count P.bare picture.old picture.new }
{
    picture.prepare(rect, buffer)
}
