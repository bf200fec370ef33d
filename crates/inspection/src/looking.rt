ghost use Rattle.std.specs.Prelude.{◌≡◌, ℕ, ◌+◌, ◌*◌, ◌^◌, ◌<◌, ◌≤◌};
ghost use Rattle.store.specs.Cells.{capped};
ghost use Rattle.source.specs.Extent.{Silent};
ghost use Rattle.inspection.specs.Reports.{Found, Quick, Reported, lost, whole};

use crate::report::{Details, Mark, Report};
use picture::{Cause, Fault, Picture};
use pixel::{Colour, Grey, Kind};
use source::{FileSource, HeaderError, read_header};
use store::{Bytes, Store};
use survey::{Survey, survey};

/// A survey with so many more places that all miss their first byte, the first of them with this fault.
fn lose(mut survey: Survey, count: u64, fault: Fault) -> Survey
    requires { survey.missing + count < 2 ^ 64 }
    ensures { result ≡ lost survey count fault }
{
    survey.missing += count;
    if count > 0 {
        survey.first = survey.first.or(Some(fault));
    }
    survey
}

// That the store has no byte from `end` on is asked three times: a survey promises to keep the picture's model and not its store, so that no ghost field over the file would outlast it.

/// Surveys a file whose store has no byte from `end` on. It prepares only places that may have one, so the work grows with the store and not with the numbers in the header.
fn look<S: Store, K: Kind>(file: &mut FileSource<S, K>, end: u64) -> Survey
    requires { Silent (capped (S.at file.old.store)) end }
    ensures value { result ≡ whole K.ops S.at file.old }
    ensures quick { file.new.count ≤ file.old.count + 2 * end + 12 }
{
    let raster = file.raster();
    let wide = raster.size.width as u64;
    let total = wide * raster.size.height as u64;
    let places = file.pixels_before(end).min(total);
    let found = survey(file, places);
    let column = (places % wide) as u32;
    let row = (places / wide) as u32;
    lose(
        found,
        total - places,
        Fault {
            cause: Cause::Missing,
            source: raster.source,
            column,
            row,
        },
    )
}

/// What is to be told of an opened file whose store has no byte from `end` on.
fn tell<S: Store, K: Kind>(file: &mut FileSource<S, K>, end: u64) -> Details
    requires { Silent (capped (S.at file.old.store)) end }
    ensures size { result.size ≡ file.old.raster.size }
    ensures header { result.header ≡ file.old.raster.start }
    ensures prepares { result.prepares ≡ file.new.count }
    ensures survey { result.survey ≡ whole K.ops S.at file.old }
    ensures quick { result.prepares ≤ file.old.count + 2 * end + 12 }
{
    let raster = file.raster();
    let survey = look(file, end);
    Details {
        size: raster.size,
        header: raster.start,
        prepares: file.count(),
        survey,
    }
}

/// What is to be told of a store that has no byte from `end` on, as a picture of this kind, or why its header is refused.
fn judge<S: Store + Drop, K: Kind>(store: S, end: u64) -> Result<Details, HeaderError>
    requires { Silent (capped (S.at store)) end }
    ensures found { Found K.ops (capped (S.at store)) result }
    ensures quick { Quick end result }
{
    match FileSource::<S, K>::open(store, 0) {
        Ok(mut file) => Ok(tell(&mut file, end)),
        // The refusal names no place: the header is read again for the error, which does.
        // (As a closure of `map_err`, with `?`, this needs a `requires` that is longer than the match.)
        Err(refused) => Err(read_header(&refused.back, K::mark()).unwrap_err()),
    }
}

/// What is to be told of a file's bytes, opened as source 0: as colour if the second byte is `6`, else as grey.
pub fn inspect(bytes: &[u8]) -> Report
    ensures { Reported bytes.now result }
{
    let end = bytes.len() as u64;
    match bytes {
        [_, b'6', ..] => Report {
            mark: Mark::Colour,
            finding: judge::<Bytes, Colour>(Bytes { bytes }, end),
        },
        _ => Report {
            mark: Mark::Grey,
            finding: judge::<Bytes, Grey>(Bytes { bytes }, end),
        },
    }
}
