// The first part of an update: which points there are after corners changed, and what becomes of the old ones.
#![tactic(auto)]

mod gather;
pub mod lists;
pub mod mood;
pub mod points;
mod run;
