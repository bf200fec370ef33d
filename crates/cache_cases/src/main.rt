//! Drives tile caches: a run a line on standard input, its counts and a digest of all that was answered on standard output.

#![tactic(auto)]

mod drive;
mod error;
mod form;
mod words;

use form::told;
use std::io;
use std::io::{BufRead, BufReader};

fn main(rt: HostRuntime) -> io::Result<()> {
    let heap = rt.alloc();
    for line in BufReader::new(heap, rt.stdin())?.lines(heap) {
        let line = line?;
        let result = told(heap, line.as_str())?;
        rt.println(result.as_str())?;
    }
    Ok(())
}
