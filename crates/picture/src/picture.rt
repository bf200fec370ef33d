ghost use Rattle.std.specs.Prelude.{◌≡◌, ℕ};
ghost use Rattle.picture.specs.Images.{Model, Sized, Bounded};
ghost use Rattle.picture.specs.Compose.{Composed};
ghost use Rattle.picture.specs.Prepare.{Prepared, Forgot};

use crate::fault::Refusal;
use crate::rect::Rect;
use crate::size::Size;
use pixel::Kind;

/// A picture. Its meaning is `model`, which no call alters, and `count`, the prepares made of it. What makes it a picture is part of its type, so its calls have no premise.
pub trait Picture {
    type Pixel: Kind;

    // what it shows, its steps and its source's picture
    ghost model: { Self → Model Self.Pixel };

    ghost count: { Self → ℕ };
    // it holds nothing of what it has prepared, here and below
    ghost bare: { Self → Type 0 };

    /// Width, height and maxval.
    fn size(&self) -> Size
        ensures width { result.width ≡ (model self.now).shown.width }
        ensures height { result.height ≡ (model self.now).shown.height }
        ensures maxval { result.maxval ≡ (model self.now).shown.maxval };

    /// Fills the first entries of the buffer with the codes of a rectangle's pixels in reading order; where one is a hole, fills them with 0 and tells the first hole's fault.
    fn prepare(&mut self, rect: Rect, buffer: &mut [u64]) -> Result<(), Refusal>
        ensures { Prepared Self.Pixel.ops model count self.old rect buffer.old result self.new buffer.new };

    /// How many prepares were made; it stops at 2^64 - 1.
    fn count(&self) -> u64
        ensures { result ≡ count self.now };

    /// Drops whatever is held, here and below.
    fn forget(&mut self)
        ensures { Forgot model count bare self.old self.new };

    // sides and maxval are within their limits
    ghost sized: { (p : Self) → Sized (model p).shown };

    // no sample is above maxval
    ghost bounded: { (p : Self) → Bounded Self.Pixel.ops (model p).shown };

    // it is the picture composed from its source by its steps
    ghost composed: { (p : Self) → Composed Self.Pixel.ops (model p) };
}
