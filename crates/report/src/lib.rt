// The listing of a map, and of the bytes of a map file.
#![tactic(auto)]

mod counts;
pub mod file;
pub mod map;
