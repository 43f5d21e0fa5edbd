// That the Rust does not panic inside the limits, and that no cast of a quotient leaves its range. Laws only, in specs/ and proofs/: no code.
#![tactic(auto)]
