use std::alloc::{AllocError, AllocFailed};
use std::num::ParseIntError;

/// Why a line has no answer of its own.
// As in the program that drives caches, but for what it cannot do: no crate is there for two programs' errors.
#[derive(Clone, Copy, Debug)]
pub enum CaseError {
    /// It is no case.
    NoCase,
    OutOfMemory(AllocError),
}

impl From<ParseIntError> for CaseError {
    fn from(_error: ParseIntError) -> CaseError {
        CaseError::NoCase
    }
}

impl From<AllocError> for CaseError {
    fn from(error: AllocError) -> CaseError {
        CaseError::OutOfMemory(error)
    }
}

impl<T: Drop> From<AllocFailed<T>> for CaseError {
    fn from(failed: AllocFailed<T>) -> CaseError {
        CaseError::OutOfMemory(AllocError::from(failed))
    }
}
