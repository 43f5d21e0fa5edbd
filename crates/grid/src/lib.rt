// A batch on a floor (the Rust's sparse_grid.rs).
#![tactic(auto)]

pub mod change;
