ghost use Rattle.picture.specs.Prepare.{Prepared};
ghost use Rattle.pipeline.specs.Laws.{Agree, Answers};

use crate::run::prepare;
use picture::{Picture, Rect, Refusal};
use pixel::Kind;

/// Prepares the same rectangle of two pictures, the first into `a` and the second into `b`, to compare two scans of one object, two pipelines over one scan, or a picture with the file that was written of it. Each is answered as by `prepare`. With equal steps over sources that agree in the rectangle's region both get the same answer, whatever their caches hold and whatever differs elsewhere or came before.
pub fn prepare_both<P: Picture, Q: Picture<Pixel = P::Pixel>>(
    first: &mut P,
    second: &mut Q,
    rect: Rect,
    a: &mut [u64],
    b: &mut [u64],
) -> (Result<(), Refusal>, Result<(), Refusal>)
    ensures first { Prepared P.Pixel.ops P.model P.count first.old rect a.old result.0 first.new a.new }
    ensures second { Prepared P.Pixel.ops Q.model Q.count second.old rect b.old result.1 second.new b.new }
    ensures answered_first { Answers P.Pixel.ops P.model P.count P.bare first.old rect a.old result.0 a.new }
    ensures answered_second { Answers P.Pixel.ops Q.model Q.count Q.bare second.old rect b.old result.1 b.new }
    ensures alike { Agree P.Pixel.ops P.model P.count P.bare Q.model Q.count Q.bare first.old second.old rect a.old b.old result.0 result.1 a.new b.new }
{
    let one = prepare(first, rect, a);
    let two = prepare(second, rect, b);
    (one, two)
}
