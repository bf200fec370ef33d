//! Kinds of pixel: what a pixel's code and samples are, and weighted sums of pixels.

#![tactic(auto)]

mod colour;
mod grey;
mod kind;
mod pixels;
mod scaling;
mod widths;

pub use colour::ColourSum;
pub use kind::Kind;
pub use pixels::{Colour, Grey};
pub use widths::pixel_bytes;
