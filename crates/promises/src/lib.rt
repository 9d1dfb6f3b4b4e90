// What the functions of the walk promise: definitions and laws only.
#![tactic(auto)]
