ghost use Rattle.std.specs.Prelude.{◌≡◌};
ghost use Rattle.picture.specs.Refusals.{cause_words};

use crate::fault::{Cause, Fault, Refusal};
use std::error::Error;
use std::fmt;

/// What a cause is called.
pub fn cause_name(cause: Cause) -> &'static str
    ensures { result.now ≡ cause_words cause }
{
    match cause {
        Cause::Missing => "missing byte",
        Cause::Unread => "unread byte",
        Cause::Above => "sample above maxval",
        Cause::NoPixel => "no pixel",
    }
}

impl fmt::Display for Cause {
    fn fmt<W: fmt::Write>(&self, f: &mut fmt::Formatter<W>) -> fmt::Result {
        f.write_str(cause_name(*self))
    }
}

/// Writes the cause, the source, and where in that source it is.
impl fmt::Display for Fault {
    fn fmt<W: fmt::Write>(&self, f: &mut fmt::Formatter<W>) -> fmt::Result {
        let Fault {
            cause,
            source,
            column,
            row,
        } = *self;
        let number = cause.number();
        write!(
            f,
            "cause {number} ({cause}), source {source}, column {column}, row {row}"
        )
    }
}

/// What a refusal says, without its number.
fn sentence(refusal: Refusal) -> &'static str {
    match refusal {
        Refusal::WrongMark => "the first two bytes are not a mark (P5 or P6)",
        Refusal::HeaderEnds => "the header does not end within the input and its first 4096 bytes",
        Refusal::HeaderByte => "a byte of the header cannot stand there",
        Refusal::HeaderNumber => "a number of the header is not from 1 to 65535",
        Refusal::OutsideLimits => "a number is outside its limits",
        Refusal::DoesNotFit =>
            "a step does not fit the picture: a crop leaves it, or a factor is above a side",
        Refusal::NotInside => "the rectangle is not inside the picture",
        Refusal::BufferTooShort => "a buffer is too short",
        Refusal::Hole(_) => "there is a hole",
        Refusal::OtherWriter => "the row writer was begun for another size, maxval or kind",
        Refusal::NoTile => "the tile's side is not from 1 to 256, or there is no such tile",
        Refusal::NoRows => "the strip has no height, or no rows are left",
        Refusal::RowsLeft => "rows are left",
    }
}

/// Writes the number, a sentence, and a hole's fault.
impl fmt::Display for Refusal {
    fn fmt<W: fmt::Write>(&self, f: &mut fmt::Formatter<W>) -> fmt::Result {
        let number = self.number();
        let sentence = sentence(*self);
        write!(f, "refused {number}: {sentence}")?;
        if let Refusal::Hole(fault) = self {
            write!(f, ": {fault}")?;
        }
        Ok(())
    }
}

impl Error for Refusal {}
