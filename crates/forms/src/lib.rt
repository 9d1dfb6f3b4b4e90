// What is made of several reads and holds no body: expressions, operands, modifiers, parameters, statements.
#![tactic(auto)]

pub mod exprs;
pub mod parts;
pub mod stmts;
