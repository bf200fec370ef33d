ghost use Rattle.std.specs.Prelude.{◌≡◌, ℕ, length};
ghost use Rattle.store.specs.Cells.{Cell, capped};
ghost use Rattle.store.specs.Reads.{answer, filled};

use crate::lack::Lack;

/// No store has a place from here on.
pub(crate) const END: u64 = 0x1_0000_0000_0000;

/// A store of bytes. What stands at a place is `capped (at store)`: every place from 2^48 on is missing.
pub trait Store {
    ghost at: { Self → ℕ → Cell };

    /// Whether the `count` places from `place` on are all bytes; else names the first that is not.
    fn check(&self, place: u64, count: usize) -> Result<(), Lack>
        ensures { result ≡ answer (capped (at self.now)) place count };

    /// Fills the buffer with the bytes from `place` on, or changes nothing and names the first place that is not a byte.
    fn read(&self, place: u64, buffer: &mut [u8]) -> Result<(), Lack>
        ensures answer { result ≡ answer (capped (at self.now)) place (length buffer.old) }
        ensures buffer { buffer.new ≡ filled (capped (at self.now)) place buffer.old };
}
