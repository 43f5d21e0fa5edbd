// What a map is: a small struct by value, and the lent tables that hold its cells, points and pairs. Other crates have the calls on a map.
#![tactic(auto)]

pub mod map;
pub mod tables;
