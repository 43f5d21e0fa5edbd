// A map file that a reader gives: read into a map's lent tables, and listed.
#![tactic(auto)]

pub mod input;
pub mod listing;
pub mod output;
