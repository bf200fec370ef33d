use picture::{Refusal, Refused};
use std::alloc::AllocError;
use std::io;

/// Why a picture could not be cut.
#[derive(Debug, Drop)]
pub enum CutError {
    /// The engine said no.
    Refused(Refusal),
    /// The input cannot be read, a file not written, or there is no memory.
    Io(io::Error),
}

impl From<Refusal> for CutError {
    fn from(refusal: Refusal) -> CutError {
        CutError::Refused(refusal)
    }
}

impl<T: Drop> From<Refused<T>> for CutError {
    fn from(refused: Refused<T>) -> CutError {
        CutError::Refused(Refusal::from(refused))
    }
}

impl From<io::Error> for CutError {
    fn from(error: io::Error) -> CutError {
        CutError::Io(error)
    }
}

impl From<AllocError> for CutError {
    fn from(error: AllocError) -> CutError {
        CutError::Io(io::Error::from(error))
    }
}
