use picture::{Refusal, Refused};
use std::alloc::{AllocError, AllocFailed};

/// Why a run came to nothing.
#[derive(Clone, Copy, Debug)]
pub enum CaseError {
    Refused(Refusal),
    OutOfMemory(AllocError),
}

impl From<Refusal> for CaseError {
    fn from(refusal: Refusal) -> CaseError {
        CaseError::Refused(refusal)
    }
}

impl<T: Drop> From<Refused<T>> for CaseError {
    fn from(refused: Refused<T>) -> CaseError {
        CaseError::Refused(Refusal::from(refused))
    }
}

impl From<AllocError> for CaseError {
    fn from(error: AllocError) -> CaseError {
        CaseError::OutOfMemory(error)
    }
}

impl<T: Drop> From<AllocFailed<T>> for CaseError {
    fn from(failed: AllocFailed<T>) -> CaseError {
        CaseError::OutOfMemory(AllocError::from(failed))
    }
}
