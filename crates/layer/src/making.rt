ghost use Rattle.std.specs.Prelude.{◌≡◌, true, ◌&&◌, nat_le};
ghost use Rattle.picture.specs.Compose.{layered};
ghost use Rattle.picture.specs.Steps.{allowed, fitting, height_of, width_of};
ghost use Rattle.layer.specs.Layers.{Made, model_of};
ghost use Rattle.layer.specs.Standing.{Stands};

use crate::drawer::{Drawer, ROOM};
use crate::layer::Layer;
use crate::over::Over;
use picture::{LIMIT, Picture, Refusal, Refused, Size, Step};
use pixel::Kind;

/// The largest factor of a shrink.
const FACTOR: u32 = 64;

/// Whether a number is at least 1 and at most the limit.
fn is_within(number: u32, limit: u32) -> bool
    ensures { result ≡ (nat_le 1 number && nat_le number limit) }
{
    (1..=limit).contains(&number)
}

/// Whether the step's own numbers are within their limits.
fn is_allowed(step: Step) -> bool
    ensures { result ≡ allowed step }
{
    match step {
        Step::Same | Step::Flip(_) | Step::Rot(_) | Step::Conv(_) => true,
        Step::Crop {
            left,
            top,
            width,
            height,
        } => {
            left <= LIMIT && top <= LIMIT && is_within(width, LIMIT) && is_within(height, LIMIT)
        }
        Step::Embed {
            x,
            y,
            width,
            height,
            ..
        } => {
            x.unsigned_abs() <= LIMIT
                && y.unsigned_abs() <= LIMIT
                && is_within(width, LIMIT)
                && is_within(height, LIMIT)
        }
        Step::Shrink { across, down } => is_within(across, FACTOR) && is_within(down, FACTOR),
    }
}

/// Whether the step can stand over a picture of this size.
fn is_fitting(step: Step, size: Size) -> bool
    requires { allowed step ≡ true }
    ensures { result ≡ fitting step size.width size.height }
{
    match step {
        Step::Crop {
            left,
            top,
            width,
            height,
        } => left + width <= size.width && top + height <= size.height,
        Step::Shrink { across, down } => across <= size.width && down <= size.height,
        Step::Same | Step::Embed { .. } | Step::Flip(_) | Step::Rot(_) | Step::Conv(_) => true,
    }
}

impl Over {
    /// The size of what the step shows.
    pub fn shown(self) -> Size
        ensures width { result.width ≡ width_of self.step self.size.width self.size.height }
        ensures height { result.height ≡ height_of self.step self.size.width self.size.height }
        ensures maxval { result.maxval ≡ self.size.maxval }
    {
        let size = self.size;
        let (width, height) = match self.step {
            Step::Crop { width, height, .. } | Step::Embed { width, height, .. } => (width, height),
            Step::Shrink { across, down } => (size.width / across, size.height / down),
            Step::Rot(_) => (size.height, size.width),
            Step::Same | Step::Flip(_) | Step::Conv(_) => (size.width, size.height),
        };
        Size {
            width,
            height,
            maxval: size.maxval,
        }
    }
}

impl<P: Picture> Layer<P> {
    /// The step over this picture, if its numbers are within their limits and it fits.
    pub fn new(below: P, step: Step) -> Result<Layer<P>, Refused<P>>
        ensures { Made P.Pixel.ops P.model below step result }
    {
        let size = below.size();
        if !is_allowed(step) {
            return Err(Refused {
                refusal: Refusal::OutsideLimits,
                back: below,
            });
        }
        if !is_fitting(step, size) {
            return Err(Refused {
                refusal: Refusal::DoesNotFit,
                back: below,
            });
        }
        Ok(Layer {
            drawer: Drawer {
                below,
                over: Over { step, size },
                count: 0,
                scratch: [0; ROOM],
            },
        })
    }

    /// The picture below, over which the step stands.
    pub fn below(&self) -> &P
        ensures is { result.now ≡ self.now.below }
        ensures stands { Stands (P.model self.now.below).shown self.now.over.step self.now.over.size }
        ensures shows { model_of P.Pixel.ops P.model self.now ≡ layered P.Pixel.ops self.now.over.step (P.model self.now.below) }
    {
        &self.drawer.below
    }
}
