// What is seen from a cell of a map: the points in sight, and the cells beside it that can be reached.
#![tactic(auto)]

pub mod neighbours;
pub mod visibility_from;
