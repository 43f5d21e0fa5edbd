// How many blocks occupied cells make.
#![tactic(auto)]

pub mod count;
mod forest;
