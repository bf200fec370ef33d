use crate::error::CaseError;
use crate::outcome::Opened;
use crate::words::number;
use picture::{Picture, Rect};
use pixel::Kind;

/// The buffer of a case has at most so many entries.
const LONGEST: u32 = 100_000;

/// What is to be prepared: four numbers for a rectangle, and the length of the buffer.
#[derive(Clone, Copy)]
pub struct Ask {
    pub left: u32,
    pub top: u32,
    pub width: u32,
    pub height: u32,
    pub length: usize,
}

impl Ask {
    /// What is asked in the five words from this one on, which are the last.
    pub fn read(words: &[&str], from: usize) -> Result<Ask, CaseError> {
        let words = words.get(from..).unwrap_or(&[]);
        let length = number(words, 4)?;
        if length > LONGEST || words.len() != 5 {
            return Err(CaseError::NoCase);
        }
        Ok(Ask {
            left: number(words, 0)?,
            top: number(words, 1)?,
            width: number(words, 2)?,
            height: number(words, 3)?,
            length: length as usize,
        })
    }

    /// Prepares the rectangle of a picture if the numbers make one, and tells what came of it.
    pub fn answered_by<P: Picture>(
        self,
        picture: &mut P,
        header: u64,
        buffer: &mut [u64],
    ) -> Opened {
        let prepared = Rect::new(self.left, self.top, self.width, self.height).and_then(
            |rect| picture.prepare(rect, buffer),
        );
        Opened {
            size: picture.size(),
            header,
            prepared,
            count: picture.count(),
        }
    }
}
