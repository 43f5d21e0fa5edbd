// Map files: a state and one field that is taken over it into a map's lent tables; and a whole file.
#![tactic(auto)]

pub mod field;
pub mod file;
pub mod head;
pub mod state;
mod value;
