use crate::ask::Ask;
use crate::error::CaseError;
use crate::outcome::Outcome;
use crate::words::number;
use pixel::Kind;
use source::{CodeSlice, MemorySource};

/// The numbers of a picture in memory.
#[derive(Clone, Copy)]
pub struct Frame {
    pub width: u32,
    pub height: u32,
    pub maxval: u32,
    pub number: u32,
}

impl Frame {
    /// The frame in the four words from this one on.
    pub fn read(words: &[&str], from: usize) -> Result<Frame, CaseError> {
        let words = words.get(from..).unwrap_or(&[]);
        Ok(Frame {
            width: number(words, 0)?,
            height: number(words, 1)?,
            maxval: number(words, 2)?,
            number: number(words, 3)?,
        })
    }
}

/// Makes the picture of these codes, and asks it.
pub fn run_memory<K: Kind>(codes: &[u64], frame: Frame, ask: Ask, buffer: &mut [u64]) -> Outcome {
    let Frame {
        width,
        height,
        maxval,
        number,
    } = frame;
    let codes = CodeSlice { codes };
    let mut memory = MemorySource::<CodeSlice, K>::new(codes, width, height, maxval, number)?;
    Ok(ask.answered_by(&mut memory, 0, buffer))
}
