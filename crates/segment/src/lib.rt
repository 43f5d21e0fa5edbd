// Segments of floats (the Rust's occupancy/util.rs), step for step: where they cross a line, how far away a point is, the near test;
// and the least and the greatest of some floats.
#![tactic(auto)]

pub mod line;
pub mod many;
mod measured;
mod meets;
pub mod near;
pub mod search;
mod spans;
