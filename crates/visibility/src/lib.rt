// Points, pairs and blockers over a floor: opening a map, batches of cells, changes of the radius. A map is a small struct by
// value and five lent tables.
#![tactic(auto)]

pub mod change;
mod layer;
pub mod lent;
pub mod open;
mod plan;
pub mod radius;
