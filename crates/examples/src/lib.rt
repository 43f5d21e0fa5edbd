// The examples of the model that take longest to compute: laws only, in proofs/.
#![tactic(auto)]
