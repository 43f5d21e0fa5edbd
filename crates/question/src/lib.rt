// The one question with its four shapes: the first occupied cell, by x, then y, that qualifies (the four tests of
// the Rust's sparse_grid.rs).
#![tactic(auto)]

pub mod ask;
pub mod judge;
pub mod numbered;
pub mod search;
mod walk;
