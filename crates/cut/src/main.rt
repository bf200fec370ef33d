//! The engine's main job: reads a picture from standard input, turns and shrinks it, writes it as one file and as tiles, and tells what it did.

#![tactic(auto)]

mod check;
mod desk;
mod error;
mod job;
mod strips;
mod text;
mod tiles;

use error::CutError;
use job::cut;
use pixel::{Colour, Grey};
use std::io;
use std::io::{ErrorKind, Read};

/// Cuts what arrives on standard input: colour if the second byte says so, else grey.
fn read_and_cut(rt: &HostRuntime) -> Result<(), CutError> {
    let mut bytes = Vec::new(rt.alloc());
    rt.stdin().read_to_end(&mut bytes)?;
    let bytes = bytes.as_slice();
    if bytes.get(1).copied() == Some(b'6') {
        cut::<Colour>(rt, bytes, "ppm")
    } else {
        cut::<Grey>(rt, bytes, "pgm")
    }
}

/// Cuts, and tells a refusal.
fn cut_or_tell(rt: &HostRuntime) -> io::Result<()> {
    match read_and_cut(rt) {
        Ok(()) => Ok(()),
        Err(CutError::Refused(refusal)) => rt.println(refusal),
        Err(CutError::Io(error)) => Err(error),
    }
}

// Not shared with the other program: each has words of its own.
fn main(rt: HostRuntime) -> io::Result<()> {
    match cut_or_tell(&rt) {
        Ok(()) => Ok(()),
        Err(error) => {
            if error.kind() == ErrorKind::OutOfMemory {
                eprintln!(rt; "cut: there is not enough memory for this picture")?;
            } else {
                eprintln!(rt; "cut: the input cannot be read, or a file not written: {error}")?;
            }
            Err(error)
        }
    }
}
