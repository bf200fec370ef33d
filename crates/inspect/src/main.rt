//! Reads a picture from standard input and tells whether it is whole.

#![tactic(auto)]

mod text;

use inspection::inspect;
use std::io;
use std::io::{ErrorKind, Read};
use text::Summary;

/// The summary of what arrives on standard input.
fn read_and_tell(rt: &HostRuntime) -> io::Result<()> {
    let mut bytes = Vec::new(rt.alloc());
    rt.stdin().read_to_end(&mut bytes)?;
    let bytes = bytes.as_slice();
    rt.print(Summary {
        bytes,
        report: inspect(bytes),
    })
}

// Not shared with the other program: each has words of its own.
fn main(rt: HostRuntime) -> io::Result<()> {
    match read_and_tell(&rt) {
        Ok(()) => Ok(()),
        Err(error) => {
            if error.kind() == ErrorKind::OutOfMemory {
                eprintln!(rt; "inspect: there is not enough memory for this input")?;
            } else {
                eprintln!(rt; "inspect: the input cannot be read: {error}")?;
            }
            Err(error)
        }
    }
}
