use crate::error::CaseError;
use std::alloc::Global;

/// No byte is repeated more often than this.
const MOST: usize = 100_000;

/// A hexadecimal digit.
fn digit(b: u8) -> Result<u8, CaseError> {
    let digit = char::from(b).to_digit(16).ok_or(CaseError::NoCase)?;
    Ok((digit & 15) as u8)
}

/// Bytes as pairs of hexadecimal digits.
fn plain(text: &str, bytes: &mut Vec<u8>) -> Result<(), CaseError> {
    for pair in text.as_bytes().chunks(2) {
        let [high, low] = *pair else {
            return Err(CaseError::NoCase);
        };
        bytes.push((digit(high)? << 4) | digit(low)?)?;
    }
    Ok(())
}

/// Pairs of digits, or a byte and how often it is repeated, as `31*4000`.
fn part(text: &str, bytes: &mut Vec<u8>) -> Result<(), CaseError> {
    let Some((byte, times)) = text.split_once('*') else {
        return plain(text, bytes);
    };
    let byte = u8::from_str_radix(byte, 16)?;
    let times = times.parse::<usize>()?;
    for _ in 0..times.min(MOST) {
        bytes.push(byte)?;
    }
    if times > MOST {
        return Err(CaseError::NoCase);
    }
    Ok(())
}

/// Bytes as parts joined by `+`; `-` is none of them.
pub fn bytes_of(heap: Global, text: &str) -> Result<Vec<u8>, CaseError> {
    let mut found = Vec::new(heap);
    if text == "-" {
        return Ok(found);
    }
    for piece in text.split('+') {
        part(piece, &mut found)?;
    }
    Ok(found)
}
