// Ascending tables of keys in lent slices (the BTreeMap and BTreeSet of the Rust). No function asks
// anything of a table: each ends within bounds whatever it holds, and what it promises, it promises of
// an ascending one.
#![tactic(auto)]

pub mod change;
pub mod column;
pub mod copy;
mod look;
pub mod place;
pub mod places;
