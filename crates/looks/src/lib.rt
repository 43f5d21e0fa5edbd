// What is looked for around a cell: the tests of a cell size and a radius between centres, and the visible quadrant of a point.
#![tactic(auto)]

pub mod quadrant;
pub mod tests;
