//! What a picture file holds, read from a store of bytes, and pictures in memory.

#![tactic(auto)]

mod extent;
mod file;
mod front;
mod header;
mod memory;
mod open;
mod raster;
mod reader;
mod reads;
mod samples;

pub use file::FileSource;
pub use front::read_header;
pub use header::{HEADER_LIMIT, Header, HeaderError, parse};
pub use memory::{CodeSlice, Codes, MemorySource};
pub use raster::Raster;
