// Operands, and the Options in them.
ghost use Rattle.std.specs.Prelude.{◌≡◌, ◌≢◌, ◌+◌, ◌<◌, IsSomeAnd, None, length, get_or};
ghost use Rattle.tree.specs.Ans.{ok, IsOk};
ghost use Rattle.tree.specs.Read.{u64, option};
ghost use Rattle.tree.specs.Stmts.{slice, operand};
ghost use Rattle.tree.specs.Decode.{texts_of};
ghost use Rattle.context.specs.Values.{number_of, ends_of, operand_of};

use crate::numbers::{span_at, u16_at};
use crate::tree_reader::TreeReader;
use context::{GateOperand, Past};

// An Option: its value, where there is one, and the place past it.
fn option_at<'a, T, F: FnOnce(TreeReader<'a>) -> Past<T>>(
    r: TreeReader<'a>,
    value_at: F,
) -> Past<Option<T>>
    requires at_in_bounds { r.at < length r.tree.now }
    requires callable { get_or r.tree.now r.at 0 ≢ 0 → F.pre value_at (record { tree = r.tree; at = r.at + 1 }) }
    ensures none { get_or r.entry.tree.now r.entry.at 0 ≡ 0 → (result.value ≡ None) × (result.next ≡ r.entry.at + 1) }
    ensures some { get_or r.entry.tree.now r.entry.at 0 ≢ 0 → IsSomeAnd result.value (λ v. F.post value_at (record { tree = r.entry.tree; at = r.entry.at + 1 }) (record { value = v; next = result.next })) }
{
    if r.byte() == 0 {
        return Past {
            value: None,
            next: r.at + 1,
        };
    }
    let Past { value, next } = value_at(r.skip(1));
    Past {
        value: Some(value),
        next,
    }
}

// An Option of a number: a size or an index.
#[tactic(auto, using(crate::proofs::ReadOperands::options_read))]
pub fn number_at(s: &[u8], at: usize) -> Past<Option<u64>>
    requires { IsOk (option u64 s.now at) }
    ensures { option u64 s.now at ≡ ok (number_of result.value) result.next }
{
    option_at(
        TreeReader { tree: s, at },
        |r| Past {
            value: r.number(),
            next: r.skip(8).at,
        },
    )
}

// An Option of a slice.
#[tactic(auto, using(crate::proofs::ReadOperands::options_read))]
fn ends_at(s: &[u8], at: usize) -> Past<Option<(u64, u64)>>
    requires { IsOk (option slice s.now at) }
    ensures { option slice s.now at ≡ ok (ends_of result.value) result.next }
{
    option_at(
        TreeReader { tree: s, at },
        |r| Past {
            value: (r.number(), r.skip(8).number()),
            next: r.skip(16).at,
        },
    )
}

#[tactic(auto, using(crate::proofs::ReadOperands::operand_parts))]
pub fn operand_at(s: &[u8], at: usize) -> Past<GateOperand>
    requires { IsOk (operand (texts_of s.now) s.now at) }
    ensures { operand (texts_of s.now) s.now at ≡ ok (operand_of result.value) result.next }
{
    let s = &s[..]; // pointer and length are loaded one by one, and not waited for as a pair
    let name = u16_at(s, at);
    let index = number_at(s, at + 2);
    let slice = ends_at(s, index.next);
    let span = span_at(s, slice.next);
    Past {
        value: GateOperand {
            name,
            index: index.value,
            slice: slice.value,
            span,
        },
        next: slice.next + 8,
    }
}
