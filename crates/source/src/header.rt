ghost use Rattle.std.specs.Prelude.{◌≡◌, ◌+◌, ◌≤◌, [], length, take};
ghost use Rattle.picture.specs.Refusals.{refused, told};
ghost use Rattle.source.specs.Header.{header_of, run, start};
ghost use Rattle.source.specs.Limits.{header_limit};
ghost use Rattle.source.specs.Reading.{Exact, Refuses, number_of};

use crate::reader::{Reader, State};
use picture::Refusal;

/// A header lies within the first bytes of a file, at most so many.
pub const HEADER_LIMIT: usize = 4096;

/// What a header says, and how many bytes it has.
// No `Size`: what the clauses say of a reader they say of any, and a size has its limits in its type.
#[derive(Clone, Copy, PartialEq, Eq, Debug)]
pub struct Header {
    /// The pixels of a row.
    pub width: u32,
    /// The rows.
    pub height: u32,
    /// The largest value of a sample.
    pub maxval: u16,
    /// The bytes of the header: the picture's first byte is at this place.
    pub length: u64,
}

/// Why a header was refused.
#[derive(Clone, Copy, PartialEq, Eq, Debug)]
pub enum HeaderError {
    /// The first two bytes are not the mark.
    Mark,
    /// The header goes on at this place, where no byte is to be had.
    End { place: u32 },
    /// The byte at this place cannot stand there.
    Byte { place: u32 },
    /// The number before the white byte at this place is 0 or too large.
    Number { place: u32 },
}

impl From<HeaderError> for Refusal {
    ghost from_gives = { λ error refusal. told refusal ≡ refused (number_of error) [] };

    /// The refusal of a file with such a header.
    fn from(error: HeaderError) -> Refusal {
        match error {
            HeaderError::Mark => Refusal::WrongMark,
            HeaderError::End { .. } => Refusal::HeaderEnds,
            HeaderError::Byte { .. } => Refusal::HeaderByte,
            HeaderError::Number { .. } => Refusal::HeaderNumber,
        }
    }
}

/// The header of a file that has `rest` behind the mark.
fn scan(rest: &[u8]) -> Result<Header, HeaderError>
    requires { 2 + length rest.now ≤ header_limit }
    ensures { result ≡ run start 2 rest.now }
{
    let mut reader = Reader::default();
    for (i, b) in rest.iter().enumerate() {
        reader.take(i as u32 + 2, *b)?;
        if let State::Done = reader.state {
            return Ok(Header {
                width: reader.width,
                height: reader.height,
                maxval: reader.maxval,
                length: i as u64 + 3,
            });
        }
    }
    Err(HeaderError::End {
        place: rest.len() as u32 + 2,
    })
}

/// The mark, and what stands behind it.
fn decide(mark: u8, bytes: &[u8]) -> Result<Header, HeaderError>
    requires { length bytes.now ≤ header_limit }
    ensures { result ≡ header_of mark bytes.now }
{
    match bytes {
        [b'P', digit, rest @ ..] if *digit == mark => scan(rest),
        [_, _, ..] => Err(HeaderError::Mark),
        _ => Err(HeaderError::End {
            place: bytes.len() as u32,
        }),
    }
}

/// The header that `bytes` begin with, whose mark is `P` and then `mark`.
// Any byte may be asked for: a type with the marks of two kinds would ask more of the caller.
pub fn parse(mark: u8, bytes: &[u8]) -> Result<Header, HeaderError>
    ensures automaton { result ≡ header_of mark (take header_limit bytes.now) }
    ensures grammar { Exact mark (take header_limit bytes.now) result }
    ensures refused { Refuses mark (take header_limit bytes.now) result }
{
    let n = bytes.len().min(HEADER_LIMIT);
    decide(mark, &bytes[..n])
}
