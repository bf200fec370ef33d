//! A picture that keeps tiles of the picture below.

#![tactic(auto)]

mod blit;
mod cache;
mod counts;
mod held;
mod keeper;
mod laws;
mod limits;
mod order;
mod serving;
mod shape;
mod shapes;
mod tile;
mod tiles;
mod visit;
mod walk;

pub use cache::Cache;
pub use counts::Counts;
pub use laws::{samples_stand, used_tiles_stay};
pub use shape::TileShape;
