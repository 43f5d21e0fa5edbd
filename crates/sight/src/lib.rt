// What blocks points and pairs after an update.
#![tactic(auto)]

pub mod blocker;
pub mod pair;
mod run;
mod within;
