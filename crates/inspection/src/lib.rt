//! What a curator is told of a scan: whether it is a picture, of which size, and whether it is whole.

#![tactic(auto)]

mod looking;
mod report;

pub use looking::inspect;
pub use report::{Details, Mark, Report};
