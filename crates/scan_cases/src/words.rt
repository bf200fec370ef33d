use crate::error::CaseError;
use std::alloc::Global;

/// The word of this index; none is empty, so the empty text stands for one that is not there.
pub fn word<'a>(words: &[&'a str], index: usize) -> &'a str {
    words.get(index).copied().unwrap_or("")
}

/// The number that the word of this index is.
pub fn number(words: &[&str], index: usize) -> Result<u32, CaseError> {
    Ok(word(words, index).parse::<u32>()?)
}

/// Numbers parted by commas; `-` is none of them.
pub fn numbers(heap: Global, text: &str) -> Result<Vec<u64>, CaseError> {
    let mut found = Vec::new(heap);
    if text == "-" {
        return Ok(found);
    }
    for part in text.split(',') {
        found.push(part.parse::<u64>()?)?;
    }
    Ok(found)
}
