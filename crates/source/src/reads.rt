ghost use Rattle.std.specs.Prelude.{length};
ghost use Rattle.store.specs.Cells.{capped};
ghost use Rattle.source.specs.Loading.{Had};

use store::{Lack, Store};

/// Reads the bytes from a place on, up to the buffer's length; says how many are there, and what is lacking behind them.
pub(crate) fn read_some<S: Store>(store: &S, place: u64, buffer: &mut [u8]) -> (usize, Option<Lack>)
    ensures { Had (capped (S.at store.now)) place (length buffer.old) buffer.new result.0 result.1 }
{
    match store.read(place, buffer) {
        Ok(()) => (buffer.len(), None),
        Err(lack) => {
            let n = (lack.place() - place) as usize;
            // Those before it are bytes, so this is answered.
            let _ = store.read(place, &mut buffer[..n]);
            (n, Some(lack))
        }
    }
}
