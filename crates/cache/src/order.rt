ghost use Rattle.std.specs.Prelude.{◌≡◌, ◌<◌, length};
ghost use Rattle.cache.specs.Order.{promoted};

use crate::held::Held;

/// Moves what stands at `i` to the front.
pub fn promote(held: &mut [Held], i: usize)
    requires { i < length held.old }
    ensures { held.new ≡ promoted held.old i }
{
    held[..i + 1].rotate_right(1);
}
