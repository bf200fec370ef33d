ghost use Rattle.std.specs.Prelude.{◌≡◌};
ghost use Rattle.picture.specs.Refusals.{cause_number, number_of};

/// Why a place has no pixel.
#[derive(Clone, Copy, PartialEq, Eq, Debug)]
pub enum Cause {
    /// A byte of the pixel is missing.
    Missing,
    /// A byte of the pixel could not be read.
    Unread,
    /// A sample of the pixel is above maxval.
    Above,
    /// The number in the place of the pixel is no pixel.
    NoPixel,
}

impl Cause {
    /// The number of a cause, from 1.
    // a method, which says more than `u8::from`
    pub fn number(self) -> u8
        ensures { result ≡ cause_number self }
    {
        match self {
            Cause::Missing => 1,
            Cause::Unread => 2,
            Cause::Above => 3,
            Cause::NoPixel => 4,
        }
    }
}

/// What a hole, that is a place without a pixel, tells of itself: why there is none, and where in which source.
#[derive(Clone, Copy, PartialEq, Eq, Debug)]
pub struct Fault {
    pub cause: Cause,
    pub source: u8,
    pub column: u32,
    pub row: u32,
}

/// Why a call says no.
#[derive(Clone, Copy, PartialEq, Eq, Debug)]
pub enum Refusal {
    /// The first two bytes are not the kind's mark.
    WrongMark,
    /// A byte of the header is missing, unread or past the first 4,096.
    HeaderEnds,
    /// A byte of the header cannot stand there.
    HeaderByte,
    /// A number of the header is 0 or above its limit.
    HeaderNumber,
    /// A number for a step, a cache or a source is outside its limits, or a slice of codes is too short.
    OutsideLimits,
    /// A step does not fit the picture below.
    DoesNotFit,
    /// Numbers that make no rectangle, or one that is not inside the picture.
    NotInside,
    /// A buffer is too short.
    BufferTooShort,
    /// There is a hole.
    Hole(Fault),
    /// The row writer was begun for another size, maxval or kind.
    OtherWriter,
    /// The tile's side is outside its limits, or there is no such tile.
    NoTile,
    /// The strip has no height, or no rows are left.
    NoRows,
    /// Rows are left.
    RowsLeft,
}

impl Refusal {
    /// The number of a refusal.
    // a method, as for `Cause`
    pub fn number(self) -> u8
        ensures { result ≡ number_of self }
    {
        match self {
            Refusal::WrongMark => 1,
            Refusal::HeaderEnds => 2,
            Refusal::HeaderByte => 3,
            Refusal::HeaderNumber => 4,
            Refusal::OutsideLimits => 5,
            Refusal::DoesNotFit => 7,
            Refusal::NotInside => 10,
            Refusal::BufferTooShort => 11,
            Refusal::Hole(_) => 12,
            Refusal::OtherWriter => 13,
            Refusal::NoTile => 14,
            Refusal::NoRows => 15,
            Refusal::RowsLeft => 16,
        }
    }
}

/// What a refused making hands back: what the thing was to stand on, and why.
// `back` stands first, at the offset of the picture inside a thing that was made: a `Result` of either is then moved as one piece.
// (At two offsets, clang cuts such a picture into pieces of the difference, and takes minutes.)
#[derive(Drop)]
pub struct Refused<T> {
    pub back: T,
    pub refusal: Refusal,
}

/// Why it was refused, where what comes back is let go.
impl<T: Drop> From<Refused<T>> for Refusal {
    ghost from_gives = { λ r refusal. refusal ≡ r.refusal };

    fn from(refused: Refused<T>) -> Refusal {
        refused.refusal
    }
}
