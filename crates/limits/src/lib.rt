// Cells as keys, whether one is occupied; the refusals by name and in their order; what is refused of a cell size, a radius, a batch and lent
// tables.
#![tactic(auto)]

pub mod cell;
pub mod due;
pub mod dues;
pub mod floor;
pub mod judge;
pub mod lent;
pub mod radius;
pub mod refusal;
