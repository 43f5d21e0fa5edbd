// Float steps that Rust's library has and Rattle's language lacks: floor, ceiling, absolute value,
// least, greatest, the correctly rounded root, floats of bit patterns; and the root's threshold, which the library adds.
#![tactic(auto)]

pub mod bits;
pub mod pick;
pub mod root;
pub mod threshold;
pub mod whole;
