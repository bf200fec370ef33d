//! A written picture reads back, and a picture that was read is written as it stood.

#![tactic(auto)]

ghost use Rattle.store.specs.Cells.{capped};
ghost use Rattle.source.specs.Front.{available};
ghost use Rattle.source.specs.Limits.{header_limit};
ghost use Rattle.source.specs.Opening.{Opened};
ghost use Rattle.reread.specs.Trips.{ReadsBack, WrittenAgain};

use picture::Refused;
use pixel::Kind;
use source::FileSource;
use store::Store;

/// Opens the picture that a store has, as the source of this number, or hands the store back.
pub fn open<S: Store, K: Kind>(store: S, number: u32) -> Result<FileSource<S, K>, Refused<S>>
    ensures value { Opened K.ops.mark (available (capped (S.at store)) 0 header_limit) store number result }
    ensures written { ReadsBack K.ops S.at store number result }
    ensures again { WrittenAgain K.ops S.at store result }
{
    FileSource::<S, K>::open(store, number)
}
