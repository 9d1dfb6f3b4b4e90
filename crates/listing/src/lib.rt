// The listing as definitions: see specs/.
#![tactic(auto)]
