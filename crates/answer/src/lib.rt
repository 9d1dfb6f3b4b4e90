// The answer of a call as definitions: see specs/.
#![tactic(auto)]
