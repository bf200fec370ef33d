ghost use Rattle.writer.specs.Log.{Answers};

use picture::Picture;
use pixel::Kind;

/// The law of answers, of every picture: behind any calls, a prepare inside the picture with a long enough buffer answers the pixels of the composed picture exactly when the rectangle has no hole, and else the fault of the first hole in reading order.
pub fn answers_hold<P: Picture>()
    ensures { Answers P.Pixel.ops P.model P.count P.bare }
{}
