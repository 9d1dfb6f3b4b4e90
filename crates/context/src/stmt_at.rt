// Where a statement stands.
ghost use Rattle.std.specs.Prelude.{◌≡◌, ◌-◌, ◌≤◌, length};
ghost use Rattle.tree.specs.Ans.{IsOk};
ghost use Rattle.tree.specs.Stmts.{stmt};
ghost use Rattle.tree.specs.Decode.{texts_of};
ghost use Rattle.context.specs.Props.{ok_once};

use crate::{SemaContext, Texts};

// The tree with the places of its texts, the statement's place, and how many levels of statements are left there.
#[derive(Clone, Copy)]
pub struct StmtAt<'a> {
    pub texts: Texts<'a>,
    pub left: usize,
    pub at: usize,
    pub ghost accepted: { IsOk (stmt (texts_of texts.tree.now) left texts.tree.now at) } by { ok_once (stmt (texts_of texts.tree.now) left texts.tree.now at) },
    pub ghost shallow: { left ≤ 8 },
}

impl<'a> StmtAt<'a> {
    // The context that it is checked in.
    pub fn context(self, scratch: &'a [u8]) -> SemaContext<'a>
        requires { 65536 ≤ length scratch.now }
        ensures { (result.texts ≡ self.entry.texts) × (result.scratch ≡ scratch.entry) × (result.depth ≡ 9 - self.entry.left) }
    {
        SemaContext {
            texts: self.texts,
            scratch,
            depth: 9 - self.left,
        }
    }
}
