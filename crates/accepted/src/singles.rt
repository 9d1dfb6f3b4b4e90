// Operands with an index and no slice: each has 20 bytes.
ghost use Rattle.std.specs.Prelude.{◌≡◌, true, ◌+◌};
ghost use Rattle.tree.specs.Ans.{ok, IsOk};
ghost use Rattle.tree.specs.Stmts.{operand};
ghost use Rattle.tree.specs.Decode.{texts_of};
ghost use Rattle.context.specs.Values.{operand_of};
ghost use Rattle.accepted.specs.Singles.{is_single};

use crate::numbers::{span_at, u16_at, u64_at};
use context::GateOperand;

#[tactic(auto, using(crate::specs::Singles::index_in, crate::specs::Singles::slice_in), unfolding(crate::specs::Singles::is_single))]
pub fn is_single(s: &[u8], at: usize) -> bool
    requires { IsOk (operand (texts_of s.now) s.now at) }
    ensures { result ≡ is_single s.now at }
{
    s[at + 2] != 0 && s[at + 11] == 0
}

#[tactic(auto, using(crate::specs::Singles::single_inside))]
pub fn single_at(s: &[u8], at: usize) -> GateOperand
    requires { IsOk (operand (texts_of s.now) s.now at) × (is_single s.now at ≡ true) }
    ensures { operand (texts_of s.now) s.now at ≡ ok (operand_of result) (at + 20) }
{
    let i = u64_at(s, at + 3);
    let span = span_at(s, at + 12);
    GateOperand {
        name: u16_at(s, at),
        index: Some(i),
        slice: None,
        span,
    }
}
