use crate::ask::Ask;
use crate::bytes::bytes_of;
use crate::error::CaseError;
use crate::file::run_file;
use crate::form::form_of;
use crate::memory::{Frame, run_memory};
use crate::outcome::{Line, Outcome};
use crate::words::{number, numbers, word};
use pixel::{Colour, Grey};
use std::alloc::{AllocError, Global};

/// What each entry of a buffer is before the call.
const BEFORE: u64 = 7;

/// What came of a case, as a line.
fn told(heap: Global, outcome: Outcome, buffer: &[u64]) -> Result<String, CaseError> {
    let line = Line { outcome, buffer };
    Ok(format!(in heap; "{line}")?)
}

/// `KIND STORE BYTES NUMBER LEFT TOP WIDTH HEIGHT LENGTH`: opens a file.
fn file_case(heap: Global, words: &[&str]) -> Result<String, CaseError> {
    let form = form_of(heap, word(words, 1))?;
    let bytes = bytes_of(heap, word(words, 2))?;
    let number = number(words, 3)?;
    let ask = Ask::read(words, 4)?;
    let mut buffer = vec![in heap; BEFORE; ask.length]?;
    let outcome = match word(words, 0) {
        "grey" => run_file::<Grey>(bytes.as_slice(), &form, number, ask, buffer.as_mut_slice()),
        "colour" => run_file::<Colour>(bytes.as_slice(), &form, number, ask, buffer.as_mut_slice()),
        _ => return Err(CaseError::NoCase),
    };
    told(heap, outcome, buffer.as_slice())
}

/// `memory KIND WIDTH HEIGHT MAXVAL NUMBER CODES LEFT TOP WIDTH HEIGHT LENGTH`: makes a picture in memory.
fn memory_case(heap: Global, words: &[&str]) -> Result<String, CaseError> {
    let codes = numbers(heap, word(words, 6))?;
    let frame = Frame::read(words, 2)?;
    let ask = Ask::read(words, 7)?;
    let mut buffer = vec![in heap; BEFORE; ask.length]?;
    let outcome = match word(words, 1) {
        "grey" => run_memory::<Grey>(codes.as_slice(), frame, ask, buffer.as_mut_slice()),
        "colour" => run_memory::<Colour>(codes.as_slice(), frame, ask, buffer.as_mut_slice()),
        _ => return Err(CaseError::NoCase),
    };
    told(heap, outcome, buffer.as_slice())
}

/// The line that answers a case; a title, which begins with `#`, answers itself.
pub fn answer(heap: Global, line: &str) -> Result<String, AllocError> {
    if line.starts_with('#') {
        return String::from_str(heap, line);
    }
    let words = line.split_whitespace().collect::<Vec<&str>>(heap)?;
    let words = words.as_slice();
    let answer = if word(words, 0) == "memory" {
        memory_case(heap, words)
    } else {
        file_case(heap, words)
    };
    match answer {
        Ok(answer) => Ok(answer),
        Err(CaseError::NoCase) => String::from_str(heap, "no case"),
        Err(CaseError::OutOfMemory(error)) => Err(error),
    }
}
