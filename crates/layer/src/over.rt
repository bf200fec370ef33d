ghost use Rattle.std.specs.Prelude.{◌≡◌, true};
ghost use Rattle.picture.specs.Steps.{allowed, fitting};

use picture::{Size, Step};

/// A step that can stand over a picture of this size.
#[derive(Clone, Copy)]
pub(crate) struct Over {
    pub step: Step,
    pub size: Size,
    ghost within: { allowed step ≡ true },
    ghost fits: { fitting step size.width size.height ≡ true },
}
