// The lines of a listing, as bytes in a lent buffer.
#![tactic(auto)]

mod cell;
pub mod counts;
mod line;
pub mod pairs;
pub mod points;
mod printer;
pub mod refusal;
