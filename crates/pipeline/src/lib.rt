//! Prepares with the laws that hold over whole runs of calls.

#![tactic(auto)]

mod pair;
mod run;

pub use pair::prepare_both;
pub use run::prepare;
