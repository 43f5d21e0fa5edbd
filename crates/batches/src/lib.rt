// Batches on a table of cells (the Rust's sparse_grid.rs): what is confirmed, how many cells there are afterwards, the change itself.
#![tactic(auto)]

pub mod batch;
pub mod lists;
