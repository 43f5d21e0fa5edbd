// Corners of occupied cells: a cell's status, the cells that have a corner, and the statuses that a batch altered.
#![tactic(auto)]

pub mod bits;
pub mod cells;
pub mod changes;
mod status;
mod window;
