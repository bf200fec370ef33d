use cache::TileShape;
use picture::Refusal;
use std::alloc::{AllocError, Global};

// By hand, since `to_digit` takes capital letters too, which are no digits here.
fn digit(b: u8) -> u8 {
    match b {
        b'0'..=b'9' => b - b'0',
        b'a'..=b'f' => b - b'a' + 10,
        _ => 0,
    }
}

/// The bytes that a word writes in hexadecimal.
pub fn bytes_of(heap: Global, word: &str) -> Result<Vec<u8>, AllocError> {
    let mut bytes = Vec::new(heap);
    for pair in word.as_bytes().chunks_exact(2) {
        if let [high, low] = pair {
            bytes.push((digit(*high) & 15) * 16 + (digit(*low) & 15))?;
        }
    }
    Ok(bytes)
}

/// The number that a word writes, or 0.
pub fn number(word: Option<&str>) -> u32 {
    word.and_then(|text| text.parse::<u32>().ok()).unwrap_or(0)
}

/// A rectangle that moves: where it begins, its sides, its steps and how many.
#[derive(Clone, Copy)]
pub struct Drag {
    pub left: u32,
    pub top: u32,
    pub width: u32,
    pub height: u32,
    pub across: u32,
    pub down: u32,
    pub turns: u32,
}

impl Drag {
    /// The drag of seven numbers.
    fn of(numbers: &[u32]) -> Option<Drag> {
        let [left, top, width, height, across, down, turns] = *numbers else {
            return None;
        };
        Some(Drag {
            left,
            top,
            width,
            height,
            across,
            down,
            turns,
        })
    }
}

/// Whether a drag goes from its beginning to its end or back.
#[derive(Clone, Copy)]
pub enum Way {
    There,
    Back,
}

/// A command of a run.
#[derive(Clone, Copy)]
pub enum Command {
    Forget,
    Drag(Way, Drag),
}

impl Way {
    /// The way that a word names.
    fn of(word: &str) -> Option<Way> {
        match word {
            "d" => Some(Way::There),
            "b" => Some(Way::Back),
            _ => None,
        }
    }
}

/// The commands that the words behind the picture write.
pub fn commands(heap: Global, line: &str, skip: usize) -> Result<Vec<Command>, AllocError> {
    let mut all = Vec::new(heap);
    // the way of a drag whose numbers are still being read, and those read so far, in one buffer for all drags
    let mut pending: Option<Way> = None;
    let mut numbers = Vec::new(heap);
    for word in line.split_whitespace().skip(skip) {
        if word == "f" {
            all.push(Command::Forget)?;
        } else if let Some(way) = Way::of(word) {
            pending = Some(way);
            numbers.clear();
        } else if let Some(way) = pending {
            numbers.push(number(Some(word)))?;
            if let Some(drag) = Drag::of(numbers.as_slice()) {
                all.push(Command::Drag(way, drag))?;
                pending = None;
            }
        }
    }
    Ok(all)
}

/// The shape of this index among the words of a run.
pub fn shape(line: &str, index: usize) -> Result<TileShape, Refusal> {
    let at = index.saturating_mul(3).saturating_add(1);
    let mut words = line.split_whitespace().skip(at);
    TileShape::new(
        number(words.next()),
        number(words.next()),
        number(words.next()) as usize,
    )
}
