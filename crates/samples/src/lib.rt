//! The sample pictures of the rules and what the definitions give of them.

#![tactic(auto)]

mod table;

pub use table::samples_stand;
