//! One step laid over any picture.

#![tactic(auto)]

mod aim;
mod aims;
mod ask;
mod cut;
mod cuts;
mod drawer;
mod draws;
mod laws;
mod layer;
mod making;
mod masks;
mod mix;
mod over;
mod parts;
mod piece;
mod places;
mod showing;
mod spread;
mod spreads;
mod tiles;
mod undrawn;
mod weights;

pub use laws::{first_hole_told, region_decides};
pub use layer::Layer;
