// What the programs that replay vectors share: lines read and written, what their digits mean, batches and questions.
#![tactic(auto)]

pub mod change;
pub mod lines;
pub mod patterns;
pub mod program;
pub mod questions;
