use picture::{Fault, Refusal, Size};
use std::fmt;

/// What came of asking a picture that was opened.
#[derive(Clone, Copy)]
pub struct Opened {
    pub size: Size,
    pub header: u64,
    pub prepared: Result<(), Refusal>,
    pub count: u64,
}

/// What came of a case: an opened picture's answer, or why none was opened.
pub type Outcome = Result<Opened, Refusal>;

/// Writes why a call said no.
fn refused<W: fmt::Write>(f: &mut fmt::Formatter<W>, refusal: Refusal) -> fmt::Result {
    match refusal {
        Refusal::Hole(
            Fault {
                cause,
                source,
                column,
                row,
            },
        ) => {
            let cause = cause.number();
            write!(f, "hole {cause} {source} {column} {row}")
        }
        other => {
            let number = other.number();
            write!(f, "refused {number}")
        }
    }
}

/// Writes so many equal entries, each after a space; more than 9 as one with their number.
fn run<W: fmt::Write>(f: &mut fmt::Formatter<W>, entry: u64, times: usize) -> fmt::Result {
    if times > 9 {
        return write!(f, " {entry}*{times}");
    }
    for _ in 0..times {
        write!(f, " {entry}")?;
    }
    Ok(())
}

/// Writes the entries of a buffer.
fn entries<W: fmt::Write>(f: &mut fmt::Formatter<W>, buffer: &[u64]) -> fmt::Result {
    for equal in buffer.chunk_by(|a, b| a == b) {
        if let [entry, ..] = equal {
            run(f, *entry, equal.len())?;
        }
    }
    Ok(())
}

/// The line that tells an outcome and what the buffer then held.
#[derive(Drop)]
pub struct Line<'a> {
    pub outcome: Outcome,
    pub buffer: &'a [u64],
}

impl<'a> fmt::Display for Line<'a> {
    fn fmt<W: fmt::Write>(&self, f: &mut fmt::Formatter<W>) -> fmt::Result {
        let Opened {
            size,
            header,
            prepared,
            count,
        } = match self.outcome {
            Ok(opened) => opened,
            Err(refusal) => return refused(f, refusal),
        };
        let Size {
            width,
            height,
            maxval,
            ..
        } = size;
        write!(f, "opened {width} {height} {maxval} {header} | ")?;
        match prepared {
            Ok(()) => f.write_str("ok")?,
            Err(refusal) => refused(f, refusal)?,
        }
        entries(f, self.buffer)?;
        write!(f, " count {count}")
    }
}
