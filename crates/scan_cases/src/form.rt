use crate::error::CaseError;
use crate::words::numbers;
use std::alloc::Global;

/// How a store has the bytes of a case.
#[derive(Drop)]
pub enum Form {
    /// All of them are read.
    Plain,
    /// These sectors are unread.
    Unread(Vec<u64>),
    /// The bytes before `cut` are one store's and the others another's, which begins at place `from`.
    Joint { from: u64, cut: usize },
}

/// `N`, or `N:M` where the cut is not at the joint.
fn joint(text: &str) -> Result<Form, CaseError> {
    let (from, cut) = text.split_once(':').unwrap_or((text, text));
    let from = from.parse::<u64>()?;
    let cut = cut.parse::<usize>()?;
    Ok(Form::Joint { from, cut })
}

/// The form that a word names: `bytes`, `sectors:K,K`, `joined:N` or `joined:N:M`.
pub fn form_of(heap: Global, text: &str) -> Result<Form, CaseError> {
    if text == "bytes" {
        return Ok(Form::Plain);
    }
    if let Some(rest) = text.strip_prefix("joined:") {
        return joint(rest);
    }
    let sectors = text.strip_prefix("sectors:").ok_or(CaseError::NoCase)?;
    Ok(Form::Unread(numbers(heap, sectors)?))
}
