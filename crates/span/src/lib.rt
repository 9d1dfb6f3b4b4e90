// Byte-offset span into source text. Start may exceed end; spans are copied and never compared.
#![tactic(auto)]

#[derive(Clone, Copy)]
pub struct Span {
    pub start: u32,
    pub end: u32,
}
