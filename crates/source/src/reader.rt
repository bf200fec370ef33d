ghost use Rattle.std.specs.Prelude.{◌≡◌};
ghost use Rattle.source.specs.Header.{answered, class_of, judged, moved, next};
ghost use Rattle.source.specs.Limits.{limit_of};

use crate::header::HeaderError;
use picture::LIMIT;

/// A sample is at most so large.
const MAXVAL_LIMIT: u32 = 65_535;

/// What a byte may be in a header.
#[derive(Clone, Copy)]
pub enum Class {
    Newline,
    White,
    Hash,
    Digit(u8),
    Other,
}

/// The numbers of a header.
#[derive(Clone, Copy)]
pub enum Field {
    Width,
    Height,
    Maxval,
}

/// Where a reader stands.
// States and a match on them: the automaton of a header's grammar, as the definitions have it.
#[derive(Clone, Copy, Default)]
pub enum State {
    /// Right behind the mark.
    #[default]
    Marked,
    /// In the gap before a number.
    Gap(Field),
    /// In a comment of that gap.
    Comment(Field),
    /// In a number, with the value of its digits so far.
    Number { field: Field, value: u32 },
    /// Behind the last white byte.
    Done,
}

/// A reader, and the numbers that it has read; by default it stands behind the mark.
#[derive(Clone, Copy, Default)]
pub struct Reader {
    pub state: State,
    pub width: u32,
    pub height: u32,
    pub maxval: u16,
}

impl From<u8> for Class {
    ghost from_gives = { λ b class. class ≡ class_of b };

    fn from(b: u8) -> Class {
        match b {
            b'\n' => Class::Newline,
            b' ' | b'\t' | b'\r' => Class::White,
            b'#' => Class::Hash,
            b'0'..=b'9' => Class::Digit(b - b'0'),
            _ => Class::Other,
        }
    }
}

impl Field {
    /// The largest number that the field may be.
    fn limit(self) -> u32
        ensures { result ≡ limit_of self }
    {
        match self {
            Field::Width | Field::Height => LIMIT,
            Field::Maxval => MAXVAL_LIMIT,
        }
    }
}

impl Reader {
    /// Judges a number by the white byte behind it, which is at `place`.
    fn judge(&mut self, place: u32, field: Field, value: u32) -> Result<(), HeaderError>
        ensures answer { result ≡ answered (judged place field value self.old) }
        ensures after { self.new ≡ moved (judged place field value self.old) self.old }
    {
        if !(1..=field.limit()).contains(&value) {
            return Err(HeaderError::Number { place });
        }
        match field {
            Field::Width => {
                self.width = value;
                self.state = State::Gap(Field::Height);
            }
            Field::Height => {
                self.height = value;
                self.state = State::Gap(Field::Maxval);
            }
            Field::Maxval => {
                self.maxval = value as u16;
                self.state = State::Done;
            }
        }
        Ok(())
    }

    /// Takes the byte `b`, which is at `place`; a reader that refuses it stays as it is.
    pub fn take(&mut self, place: u32, b: u8) -> Result<(), HeaderError>
        ensures answer { result ≡ answered (next place self.old.state (class_of b) self.old) }
        ensures after { self.new ≡ moved (next place self.old.state (class_of b) self.old) self.old }
    {
        match (self.state, Class::from(b)) {
            (State::Marked, Class::Newline | Class::White) => self.state = State::Gap(Field::Width),
            (State::Gap(_), Class::Newline | Class::White) => {}
            (State::Gap(field), Class::Hash) => self.state = State::Comment(field),
            (State::Gap(field), Class::Digit(d)) => self.state = State::Number {
                field,
                value: d as u32,
            },
            (State::Comment(field), Class::Newline) => self.state = State::Gap(field),
            (State::Comment(_), _) => {}
            (State::Number { field, value }, Class::Digit(d)) => {
                let value = value
                    .saturating_mul(10)
                    .saturating_add(d as u32)
                    .min(field.limit() + 1);
                self.state = State::Number { field, value };
            }
            (State::Number { field, value }, Class::Newline | Class::White) => return self.judge(
                place, field, value,
            ),
            _ => return Err(HeaderError::Byte { place }),
        }
        Ok(())
    }
}
