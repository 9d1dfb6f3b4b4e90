// What statements and expressions are checked in.
ghost use Rattle.std.specs.Prelude.{◌≤◌, length};

use crate::Texts;

// The tree with the places of its texts, the tables in the scratch, and how many scopes they have.
#[derive(Clone, Copy)]
pub struct SemaContext<'a> {
    pub texts: Texts<'a>,
    pub scratch: &'a [u8],
    pub depth: usize,
    pub ghost room: { 65536 ≤ length scratch.now },
    pub ghost deep: { depth ≤ 9 },
}
