//! Places, rectangles and the interface of a picture, with the meaning of every step.

#![tactic(auto)]

mod fault;
mod limits;
mod picture;
mod rect;
mod rects;
mod rows;
mod size;
mod sizes;
mod step;
mod words;

pub use fault::{Cause, Fault, Refusal, Refused};
pub use limits::LIMIT;
pub use picture::Picture;
pub use rect::Rect;
pub use rows::{Rows, serve};
pub use size::Size;
pub use step::{Axis, Ground, Mask, Step, Turn};
pub use words::cause_name;
