// What a tree file is made of at the bottom: bytes, numbers, spans and texts. A read answers its value and the next place, or the refusal.
#![tactic(auto)]

pub mod answers;
pub mod containers;
pub mod numbers;
pub mod source;
pub mod spelling;
pub mod texts;
