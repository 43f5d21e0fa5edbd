//! The rules of a map (docs/RULES.md) and the Rust as definitions (specs/), and the theorems about them (proofs/).
//! There is no code here; other crates prove that theirs does the same.
#![tactic(auto)]
