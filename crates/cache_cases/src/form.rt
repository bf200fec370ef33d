use crate::drive::{Sum, drive};
use crate::error::CaseError;
use crate::words::{Command, bytes_of, commands, shape};
use cache::{Cache, Counts, TileShape};
use layer::Layer;
use picture::{Picture, Step, Turn};
use pixel::{Grey, Kind};
use source::FileSource;
use std::alloc::{AllocError, Global};
use std::fmt;
use store::Bytes;

/// What is told of a run.
#[derive(Clone, Copy)]
struct Outcome {
    sum: Sum,
    prepares: u64,
    below: u64,
    upper: Counts,
    lower: Option<Counts>,
}

/// Writes what a cache has counted.
fn counts<W: fmt::Write>(f: &mut fmt::Formatter<W>, counts: Counts) -> fmt::Result {
    let Counts {
        hits,
        fetches,
        bypasses,
    } = counts;
    write!(f, " | {hits} {fetches} {bypasses}")
}

impl fmt::Display for Outcome {
    fn fmt<W: fmt::Write>(&self, f: &mut fmt::Formatter<W>) -> fmt::Result {
        let Outcome {
            sum,
            prepares,
            below,
            upper,
            lower,
        } = *self;
        let Sum {
            answered,
            outside,
            holes,
            digest,
        } = sum;
        write!(
            f,
            "answered {answered} outside {outside} holes {holes} digest {digest} prepares {prepares} below {below}"
        )?;
        counts(f, upper)?;
        match lower {
            Some(lower) => counts(f, lower),
            None => Ok(()),
        }
    }
}

/// What stands over the picture of a run: one cache, two, or a cache over a shrunk picture over a cache over a turned one over a cache.
#[derive(Clone, Copy)]
enum Form {
    One,
    Two,
    Stack,
}

impl Form {
    fn of(line: &str) -> Form {
        if line.starts_with("one") {
            Form::One
        } else if line.starts_with("two") {
            Form::Two
        } else {
            Form::Stack
        }
    }

    /// The place of the picture's bytes among the words of a run, behind the form and the caches' shapes.
    fn picture_at(self) -> usize {
        match self {
            Form::One => 4,
            Form::Two => 7,
            Form::Stack => 10,
        }
    }
}

/// Drives a cache; what is told of the picture below it comes from `lower`.
fn driven<P: Picture + Drop, F: Fn(&P) -> Option<Counts>>(
    cache: &mut Cache<P>,
    lower: F,
    commands: &[Command],
    buffer: &mut [u64],
) -> Outcome
    requires { F.IsAlwaysCallable lower }
{
    let sum = drive(cache, commands, buffer);
    Outcome {
        sum,
        prepares: cache.count(),
        below: cache.below().count(),
        upper: cache.counts(),
        lower: lower(cache.below()),
    }
}

// A function for each form, and no `?` where a picture is handed back: a function clears room for all that it may hold, at each line.

fn one<P: Picture + Drop>(
    below: P,
    shape: TileShape,
    commands: &[Command],
    buffer: &mut [u64],
) -> Outcome {
    let mut cache = Cache::new(shape, below);
    driven(&mut cache, |_| None, commands, buffer)
}

fn two<P: Picture + Drop>(
    below: P,
    shapes: [TileShape; 2],
    commands: &[Command],
    buffer: &mut [u64],
) -> Outcome {
    let mut cache = Cache::new(shapes[1], Cache::new(shapes[0], below));
    driven(&mut cache, |lower| Some(lower.counts()), commands, buffer)
}

fn stack<P: Picture + Drop>(
    below: P,
    shapes: [TileShape; 3],
    commands: &[Command],
    buffer: &mut [u64],
) -> Result<Outcome, CaseError> {
    match Layer::new(Cache::new(shapes[0], below), Step::Rot(Turn::D90)) {
        Ok(turned) => shrunk(Cache::new(shapes[1], turned), shapes[2], commands, buffer),
        Err(refused) => Err(CaseError::from(refused.refusal)),
    }
}

/// One cache over a shrunk picture.
fn shrunk<P: Picture + Drop>(
    below: P,
    shape: TileShape,
    commands: &[Command],
    buffer: &mut [u64],
) -> Result<Outcome, CaseError> {
    match Layer::new(below, Step::Shrink { across: 2, down: 2 }) {
        Ok(shrunk) => Ok(one(shrunk, shape, commands, buffer)),
        Err(refused) => Err(CaseError::from(refused.refusal)),
    }
}

/// The run of a line over a picture. Its commands are read last, since there may be more of them than memory has room for.
fn run<P: Picture + Drop>(
    below: P,
    heap: Global,
    line: &str,
    buffer: &mut [u64],
) -> Result<Outcome, CaseError> {
    let form = Form::of(line);
    let behind = form.picture_at().saturating_add(1);
    let first = shape(line, 0)?;
    match form {
        Form::One => {
            let commands = commands(heap, line, behind)?;
            Ok(one(below, first, commands.as_slice(), buffer))
        }
        Form::Two => {
            let shapes = [first, shape(line, 1)?];
            let commands = commands(heap, line, behind)?;
            Ok(two(below, shapes, commands.as_slice(), buffer))
        }
        Form::Stack => {
            let shapes = [first, shape(line, 1)?, shape(line, 2)?];
            let commands = commands(heap, line, behind)?;
            stack(below, shapes, commands.as_slice(), buffer)
        }
    }
}

/// The run of a line, over the picture that it writes.
fn run_line(heap: Global, line: &str) -> Result<Outcome, CaseError> {
    let at = Form::of(line).picture_at();
    let bytes = bytes_of(heap, line.split_whitespace().nth(at).unwrap_or(""))?;
    let mut buffer = [0u64; 4096];
    let store = Bytes {
        bytes: bytes.as_slice(),
    };
    let file = FileSource::<Bytes, Grey>::open(store, 0)?;
    run(file, heap, line, &mut buffer)
}

/// What came of the run of a line.
pub fn told(heap: Global, line: &str) -> Result<String, AllocError> {
    match run_line(heap, line) {
        Ok(outcome) => format!(in heap; "{outcome}"),
        Err(CaseError::Refused(refusal)) => {
            let number = refusal.number();
            format!(in heap; "refused {number}")
        }
        Err(CaseError::OutOfMemory(error)) => Err(error),
    }
}
