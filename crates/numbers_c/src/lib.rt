// The float steps, cells, centres and segments under C names, for Rust and C to call.
#![tactic(auto)]

pub mod cells;
pub mod floats;
pub mod segments;
