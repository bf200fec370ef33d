use crate::ask::Ask;
use crate::form::Form;
use crate::outcome::Outcome;
use pixel::Kind;
use source::FileSource;
use store::{Bytes, Joined, Sectors, Store};

/// Opens the picture that a store has, and asks it.
fn run<S: Store + Drop, K: Kind>(store: S, number: u32, ask: Ask, buffer: &mut [u64]) -> Outcome {
    let mut file = FileSource::<S, K>::open(store, number)?;
    let header = file.raster().start;
    Ok(ask.answered_by(&mut file, header, buffer))
}

/// The same with the store that has these bytes in this form.
pub fn run_file<'a, K: Kind>(
    bytes: &'a [u8],
    form: &'a Form,
    number: u32,
    ask: Ask,
    buffer: &mut [u64],
) -> Outcome {
    match form {
        Form::Plain => run::<Bytes, K>(Bytes { bytes }, number, ask, buffer),
        Form::Unread(unread) => {
            let unread = unread.as_slice();
            run::<Sectors, K>(Sectors { bytes, unread }, number, ask, buffer)
        }
        Form::Joint { from, cut } => {
            let (first, second) = bytes.split_at_checked(*cut).unwrap_or((bytes, &[]));
            let store = Joined {
                first: Bytes { bytes: first },
                from: *from,
                second: Bytes { bytes: second },
            };
            run::<Joined<Bytes, Bytes>, K>(store, number, ask, buffer)
        }
    }
}
