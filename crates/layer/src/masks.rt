ghost use Rattle.std.specs.Prelude.{◌≡◌};
ghost use Rattle.picture.specs.Steps.{kernel};

use crate::weights::Filter;
use picture::Mask;

/// The weights, scale and offset of a 3 by 3 mask.
pub(crate) fn of_mask(mask: Mask) -> Filter<[i32; 9]>
    ensures weights { result.weights ≡ (kernel mask).coefficients }
    ensures scale { result.scale ≡ (kernel mask).scale }
    ensures offset { result.offset ≡ (kernel mask).offset }
{
    match mask {
        Mask::Blur => Filter {
            weights: [1; 9],
            scale: 9,
            offset: 0,
        },
        Mask::Sharpen => Filter {
            weights: [-1, -1, -1, -1, 16, -1, -1, -1, -1],
            scale: 8,
            offset: 0,
        },
        Mask::Relief => Filter {
            weights: [-1, 0, 0, 0, 0, 0, 0, 0, 1],
            scale: 2,
            offset: 128,
        },
    }
}
