ghost use Rattle.std.specs.Prelude.{◌≡◌};
ghost use Rattle.inspection.specs.Marks.{byte_of};

use picture::Size;
use source::HeaderError;
use survey::Survey;

/// The mark of a kind of picture: `P` and a digit.
#[derive(Clone, Copy, PartialEq, Eq, Debug)]
pub enum Mark {
    /// `P5`.
    Grey,
    /// `P6`.
    Colour,
}

impl Mark {
    /// The second byte.
    pub fn byte(self) -> u8
        ensures { result ≡ byte_of self }
    {
        match self {
            Mark::Grey => b'5',
            Mark::Colour => b'6',
        }
    }
}

/// What is told of a file that is a picture.
#[derive(Clone, Copy, PartialEq, Eq, Debug)]
pub struct Details {
    pub size: Size,
    /// How many bytes the header has.
    pub header: u64,
    /// How many prepares were made.
    pub prepares: u64,
    /// What its places are.
    pub survey: Survey,
}

/// What is told of a file, opened as a picture of the kind with this mark: what the picture is, or why its header was refused.
#[derive(Clone, Copy, PartialEq, Eq, Debug)]
pub struct Report {
    pub mark: Mark,
    pub finding: Result<Details, HeaderError>,
}
