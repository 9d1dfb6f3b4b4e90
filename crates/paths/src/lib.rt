// That the analysis errs for a measured qubit exactly where some path of the tree does: see specs/ and proofs/.
#![tactic(auto)]
