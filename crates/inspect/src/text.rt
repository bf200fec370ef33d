use inspection::{Details, Mark, Report};
use picture::{Cause, LIMIT, Refusal, Size};
use source::{HEADER_LIMIT, HeaderError};
use std::fmt;
use survey::{Range, Survey};

/// What the kind of picture with this mark is called.
fn kind(mark: Mark) -> &'static str {
    match mark {
        Mark::Grey => "grey",
        Mark::Colour => "colour",
    }
}

/// The byte at a place, or 0 where there is none.
fn byte_at(bytes: &[u8], place: u32) -> u8 {
    bytes.get(place as usize).copied().unwrap_or(0)
}

/// The digits that end before a place, at most twelve of them.
#[derive(Clone, Copy)]
struct Digits<'a> {
    bytes: &'a [u8],
    place: u32,
}

impl<'a> fmt::Display for Digits<'a> {
    fn fmt<W: fmt::Write>(&self, f: &mut fmt::Formatter<W>) -> fmt::Result {
        let before = &self.bytes[..(self.place as usize).min(self.bytes.len())];
        let count = before
            .iter()
            .rev()
            .take_while(|b| b.is_ascii_digit())
            .count();
        for b in before
            .iter()
            .skip(before.len().saturating_sub(count))
            .take(12)
        {
            f.write_char(char::from(*b))?;
        }
        if count > 12 {
            f.write_str("..")?;
        }
        Ok(())
    }
}

/// Why the header that these bytes begin with was refused.
#[derive(Clone, Copy)]
struct BadHeader<'a> {
    bytes: &'a [u8],
    mark: Mark,
    error: HeaderError,
}

impl<'a> fmt::Display for BadHeader<'a> {
    fn fmt<W: fmt::Write>(&self, f: &mut fmt::Formatter<W>) -> fmt::Result {
        let BadHeader { bytes, mark, error } = *self;
        let number = Refusal::from(error).number();
        write!(f, "refused {number}: ")?;
        match error {
            HeaderError::Mark => {
                let first = byte_at(bytes, 0);
                let second = byte_at(bytes, 1);
                writeln!(
                    f,
                    "the first two bytes are {first} and {second}, and not a mark, which is 80 and 53 (P5) or 80 and 54 (P6)"
                )
            }
            HeaderError::End { place } if place == HEADER_LIMIT as u32 => writeln!(
                f,
                "the header does not end within its first {HEADER_LIMIT} bytes"
            ),
            HeaderError::End { place } => writeln!(
                f,
                "the header goes on at byte {place}, where the input ends"
            ),
            HeaderError::Byte { place } => {
                let byte = byte_at(bytes, place);
                let name = kind(mark);
                writeln!(
                    f,
                    "byte {place} is {byte}, which cannot stand there in the header of a {name} picture"
                )
            }
            HeaderError::Number { place } => {
                let digits = Digits { bytes, place };
                writeln!(
                    f,
                    "the number {digits} before byte {place} is not from 1 to {LIMIT}"
                )
            }
        }
    }
}

/// How many holes a survey found, by cause, and the first.
#[derive(Clone, Copy)]
struct Holes {
    survey: Survey,
}

impl fmt::Display for Holes {
    fn fmt<W: fmt::Write>(&self, f: &mut fmt::Formatter<W>) -> fmt::Result {
        let all = self.survey.holes();
        writeln!(f, "holes: {all}")?;
        if all == 0 {
            return Ok(());
        }
        let Survey {
            missing,
            unread,
            above,
            no_pixel,
            first,
            ..
        } = self.survey;
        for (cause, count) in [
            (Cause::Missing, missing),
            (Cause::Unread, unread),
            (Cause::Above, above),
            (Cause::NoPixel, no_pixel),
        ] {
            let number = cause.number();
            writeln!(f, "  {number} {cause}: {count}")?;
        }
        if let Some(fault) = first {
            writeln!(f, "first hole: {fault}")?;
        }
        Ok(())
    }
}

/// What a picture of the kind with this mark is.
#[derive(Clone, Copy)]
struct Whole {
    mark: Mark,
    details: Details,
}

impl fmt::Display for Whole {
    fn fmt<W: fmt::Write>(&self, f: &mut fmt::Formatter<W>) -> fmt::Result {
        let Whole { mark, details } = *self;
        let Details {
            size,
            header,
            prepares,
            survey,
        } = details;
        let Size {
            width,
            height,
            maxval,
            ..
        } = size;
        let name = kind(mark);
        let digit = char::from(mark.byte());
        let pixels = survey.pixels;
        let places = width as u64 * height as u64;
        write!(
            f,
            "kind: {name} (P{digit})\nwidth: {width}\nheight: {height}\nmaxval: {maxval}\nheader: {header} bytes\npixels: {pixels} of {places}\nprepares: {prepares}\n"
        )?;
        match survey.range {
            None => writeln!(f, "samples: none")?,
            Some(Range { smallest, largest }) => writeln!(f, "samples: {smallest} to {largest}")?,
        }
        let holes = Holes { survey };
        write!(f, "{holes}")
    }
}

/// What is told of a file with these bytes: whole lines, the first of which says whether it is a picture.
#[derive(Clone, Copy)]
pub struct Summary<'a> {
    pub bytes: &'a [u8],
    pub report: Report,
}

impl<'a> fmt::Display for Summary<'a> {
    fn fmt<W: fmt::Write>(&self, f: &mut fmt::Formatter<W>) -> fmt::Result {
        let Summary { bytes, report } = *self;
        let mark = report.mark;
        match report.finding {
            Ok(details) => Whole { mark, details }.fmt(f),
            Err(error) => BadHeader { bytes, mark, error }.fmt(f),
        }
    }
}
