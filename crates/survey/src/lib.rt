//! A survey of a picture: how many of its places are pixels, which samples they have, and how many are holes, by cause.

#![tactic(auto)]

mod findings;
mod notes;
mod surveying;

pub use findings::{Range, Survey};
pub use surveying::survey;
