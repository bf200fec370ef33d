ghost use Rattle.std.specs.Prelude.{◌≡◌};
ghost use Rattle.store.specs.Cells.{capped};
ghost use Rattle.source.specs.Front.{EndsAtLack, beginning};
ghost use Rattle.source.specs.Header.{header_of};
ghost use Rattle.source.specs.Reading.{Exact, Refuses};

use crate::header::{HEADER_LIMIT, Header, HeaderError, parse};
use crate::reads::read_some;
use store::Store;

/// The header that a store begins with, whose mark is `P` and then `mark`.
pub fn read_header<S: Store>(store: &S, mark: u8) -> Result<Header, HeaderError>
    ensures automaton { result ≡ header_of mark (beginning (S.at store.now)) }
    ensures grammar { Exact mark (beginning (S.at store.now)) result }
    ensures refused { Refuses mark (beginning (S.at store.now)) result }
    ensures ended { EndsAtLack (capped (S.at store.now)) result }
{
    // of fixed length, since the engine allocates nothing
    let mut buffer = [0u8; HEADER_LIMIT];
    let (n, _) = read_some(store, 0, &mut buffer);
    parse(mark, &buffer[..n])
}
