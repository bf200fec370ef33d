//! Opens and prepares a picture for each line of standard input, and prints what came of it.

#![tactic(auto)]

mod ask;
mod bytes;
mod case;
mod error;
mod file;
mod form;
mod memory;
mod outcome;
mod words;

use case::answer;
use std::io;
use std::io::Read;

/// Prints the answer to each case that arrives on standard input.
fn answer_all(rt: &HostRuntime) -> io::Result<()> {
    let mut text = String::new(rt.alloc());
    rt.stdin().read_to_string(&mut text)?;
    for line in text.as_str().lines() {
        let told = answer(rt.alloc(), line)?;
        rt.println(told.as_str())?;
    }
    Ok(())
}

fn main(rt: HostRuntime) -> io::Result<()> {
    answer_all(&rt)
}
