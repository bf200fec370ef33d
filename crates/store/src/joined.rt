ghost use Rattle.store.specs.Cells.{capped};
ghost use Rattle.store.specs.Stores.{in_joined};

use crate::lack::Lack;
use crate::store::{END, Store};

/// Two stores: the places below `from` are the first's, and the second's place 0 stands at `from`.
#[derive(Clone, Copy)]
pub struct Joined<A, B> {
    /// Has the places below `from`.
    pub first: A,
    /// Where the second begins.
    pub from: u64,
    /// Has the places from `from` on.
    pub second: B,
}

impl<A: Store, B: Store> Store for Joined<A, B> {
    ghost at = { λ s. in_joined (capped (A.at s.first)) s.from (capped (B.at s.second)) };

    fn check(&self, place: u64, count: usize) -> Result<(), Lack> {
        // Of the places, `inside` are below the end of all stores, and `low` of these are the first's.
        let inside = count.min(END.saturating_sub(place) as usize);
        let low = inside.min(self.from.saturating_sub(place) as usize);
        let start = place.saturating_sub(self.from);
        self.first.check(place, low)?;
        self.second
            .check(start, inside - low)
            .map_err(|lack| lack.moved(self.from))?;
        if inside < count {
            Err(Lack::Missing(place.max(END)))
        } else {
            Ok(())
        }
    }

    fn read(&self, place: u64, buffer: &mut [u8]) -> Result<(), Lack> {
        let count = buffer.len();
        self.check(place, count)?;
        let low = count.min(self.from.saturating_sub(place) as usize);
        let start = place.saturating_sub(self.from);
        // All the places are bytes, so neither part refuses.
        let _ = self.first.read(place, &mut buffer[0..low]);
        let _ = self.second.read(start, &mut buffer[low..count]);
        Ok(())
    }
}
