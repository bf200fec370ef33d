ghost use Rattle.store.specs.Stores.{in_sectors};

use crate::bytes::Bytes;
use crate::lack::Lack;
use crate::store::{END, Store};

/// How many places a sector has.
const SECTOR: u64 = 2048;

/// The bytes of a slice, but for the sectors that could not be read.
#[derive(Clone, Copy)]
pub struct Sectors<'a> {
    /// The bytes, from place 0 on; those of an unread sector do not count.
    pub bytes: &'a [u8],
    /// The unread sectors, in any order: sector k is the 2,048 places from 2,048 × k on.
    pub unread: &'a [u64],
}

impl<'a> Store for Sectors<'a> {
    ghost at = { λ s. in_sectors s.bytes.now s.unread.now };

    fn check(&self, place: u64, count: usize) -> Result<(), Lack> {
        let end = END.min(self.bytes.len() as u64);
        let stop = end.min(place.saturating_add(count as u64));
        if place < stop {
            for sector in place / SECTOR..stop.div_ceil(SECTOR) {
                if self.unread.contains(&sector) {
                    return Err(Lack::Unread(place.max(sector * SECTOR)));
                }
            }
        }
        Bytes { bytes: self.bytes }.check(place, count)
    }

    fn read(&self, place: u64, buffer: &mut [u8]) -> Result<(), Lack> {
        self.check(place, buffer.len())?;
        Bytes { bytes: self.bytes }.read(place, buffer)
    }
}
