// Points and vectors of floats, and where the corners and the centre of a cell lie.
#![tactic(auto)]

pub mod cell;
pub mod point;
