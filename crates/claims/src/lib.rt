// What is claimed of a call, as theorems: see specs/ and proofs/.
#![tactic(auto)]
