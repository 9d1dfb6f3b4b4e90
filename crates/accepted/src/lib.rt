// Reading of the bytes of a tree that the decoder accepts: the callers have seen the whole file accepted, and know by the laws of
// specs/ that each part is accepted where it stands. Nothing is refused here. Plain numbers ask only that their bytes are there.
#![tactic(auto)]

pub mod exprs;
pub mod numbers;
pub mod operands;
pub mod parts;
pub mod singles;
pub mod stmts;
pub mod tree_reader;
