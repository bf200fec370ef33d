ghost use Rattle.store.specs.Stores.{in_bytes};

use crate::lack::Lack;
use crate::store::{END, Store};

/// The bytes of a slice.
#[derive(Clone, Copy)]
pub struct Bytes<'a> {
    /// The bytes, from place 0 on.
    pub bytes: &'a [u8],
}

impl<'a> Store for Bytes<'a> {
    ghost at = { λ s. in_bytes s.bytes.now };

    fn check(&self, place: u64, count: usize) -> Result<(), Lack> {
        let end = END.min(self.bytes.len() as u64);
        if count as u64 <= end.saturating_sub(place) {
            Ok(())
        } else {
            Err(Lack::Missing(place.max(end)))
        }
    }

    fn read(&self, place: u64, buffer: &mut [u8]) -> Result<(), Lack> {
        let count = buffer.len();
        self.check(place, count)?;
        if count > 0 {
            let start = place as usize;
            buffer.copy_from_slice(&self.bytes[start..start + count]);
        }
        Ok(())
    }
}
