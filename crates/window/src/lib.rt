// What a reader gives, through a buffer of fixed length.
#![tactic(auto)]

pub mod input;
