// What `analyze` of sema.rs answers, as definitions on trees: see specs/.
#![tactic(auto)]
