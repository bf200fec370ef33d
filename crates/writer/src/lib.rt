//! Pictures as files: row by row in strips, and as square tiles.

#![tactic(auto)]

mod header;
mod laws;
mod layout;
mod row_writer;
mod rows;
mod square;
mod tile;
mod whole;

pub use laws::answers_hold;
pub use row_writer::RowWriter;
pub use rows::begin;
pub use tile::write_tile;
