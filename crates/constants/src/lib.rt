// Constant values and control counts over accepted bytes: the callers have seen the whole file accepted.
#![tactic(auto)]

ghost use Rattle.std.specs.Prelude.{◌≡◌, neg_ℤ};
ghost use Rattle.int128.specs.Whole.{value_of};
ghost use Rattle.tree.specs.Ans.{IsOk};
ghost use Rattle.tree.specs.Read.{option, vec};
ghost use Rattle.tree.specs.Exprs.{expr};
ghost use Rattle.tree.specs.Stmts.{held, modifier};
ghost use Rattle.tree.specs.Decode.{texts_of};
ghost use Rattle.sema.specs.Constants as sema;
ghost use Rattle.accepted.specs.Cases.{bin_op_of};
ghost use Rattle.constants.specs.Views.{whole_of, total_of, combined, added, is_count, ValueOf, Counted, Added, TotalOf};

use accepted::exprs::skip_expr;
use accepted::numbers::u64_at;
use accepted::parts::skip_modifier;
use ast::BinOp;
use context::Past;
use int128::Int128;

// The operation with an accepted case byte.
fn bin_op(case: u8) -> BinOp
    ensures { result ≡ bin_op_of case }
{
    // An accepted byte, total: TryFrom would add an error that no accepted byte gives.
    match case {
        1 => BinOp::Sub,
        2 => BinOp::Mul,
        3 => BinOp::Div,
        4 => BinOp::Pow,
        _ => BinOp::Add,
    }
}

#[tactic(auto, using(crate::proofs::Whole::whole_checked, crate::proofs::Whole::whole_divided, crate::proofs::Whole::whole_powered), unfolding(sema::specs::Constants::operate))]
fn operate(op: BinOp, a: Int128, b: Int128) -> Option<Int128>
    ensures { whole_of result ≡ sema.operate op (value_of a) (value_of b) }
{
    match op {
        BinOp::Add => a.checked_add(b),
        BinOp::Sub => a.checked_sub(b),
        BinOp::Mul => a.checked_mul(b),
        BinOp::Div => a.checked_div(b),
        BinOp::Pow => a.checked_pow(b),
    }
}

#[tactic(auto, using(crate::proofs::Whole::whole_checked), unfolding(crate::specs::Views::whole_of))]
fn negate(v: Option<Int128>) -> Option<Int128>
    ensures { whole_of result ≡ sema.and_then (whole_of v) (λ z. sema.within (neg_ℤ z)) }
{
    v?.checked_neg()
}

#[tactic(auto, unfolding(crate::specs::Views::whole_of, crate::specs::Views::combined))]
fn combine(op: BinOp, lhs: Option<Int128>, rhs: Option<Int128>) -> Option<Int128>
    ensures { whole_of result ≡ combined op (whole_of lhs) (whole_of rhs) }
{
    operate(op, lhs?, rhs?)
}

// The value of an expression, worked out from the values of its parts, and the place past it.
#[tactic(auto, using(crate::proofs::Eval::evaluating))]
pub fn eval_const_int(tree: &[u8], at: usize, left: usize) -> Past<Option<Int128>>
    requires { IsOk (expr (texts_of tree.now) left tree.now at) }
    ensures { ValueOf (expr (texts_of tree.now) left tree.now at) result }
{
    // By the case byte: an enum with a conversion would say each case twice.
    match tree[at] {
        0 => Past {
            value: Some(Int128::from(u64_at(tree, at + 1))),
            next: at + 17,
        },
        7 => {
            let e = eval_const_int(tree, at + 1, left - 1);
            Past {
                value: negate(e.value),
                next: e.next + 8,
            }
        }
        8 => {
            let l = eval_const_int(tree, at + 2, left - 1);
            let r = eval_const_int(tree, l.next, left - 1);
            Past {
                value: combine(bin_op(tree[at + 1]), l.value, r.value),
                next: r.next + 8,
            }
        }
        _ => Past {
            value: None,
            next: skip_expr(tree, at, left),
        },
    }
}

// Is it a control count: a value, and above 0?
#[tactic(auto, unfolding(crate::specs::Views::whole_of, crate::specs::Views::is_count))]
pub fn is_count(v: Option<Int128>) -> bool
    ensures { result ≡ is_count (whole_of v) }
{
    v.is_some_and(|z| z.is_positive())
}

// A control count: above 0, and at most 2^64 - 1.
#[tactic(auto, using(crate::proofs::Counts::no_count, crate::proofs::Counts::count_is), unfolding(crate::specs::Views::whole_of, crate::specs::Views::total_of))]
fn count_of(v: Option<Int128>) -> Option<u64>
    ensures { total_of result ≡ sema.and_then (whole_of v) sema.as_count }
{
    let n = u64::try_from(v?).ok()?;
    (n > 0).then_some(n)
}

#[tactic(auto, unfolding(crate::specs::Views::total_of, crate::specs::Views::added, sema::specs::Constants::add_count))]
fn add_count(total: Option<u64>, count: Option<u64>) -> Option<u64>
    ensures { total_of result ≡ added (total_of total) (total_of count) }
{
    total?.checked_add(count?)
}

// The Option of a count that a control holds: 1 when absent.
fn add_control(tree: &[u8], at: usize, total: Option<u64>) -> Past<Option<u64>>
    requires { IsOk (option (held (texts_of tree.now)) tree.now at) }
    ensures { Counted total (option (held (texts_of tree.now)) tree.now at) result }
{
    if tree[at] == 0 {
        return Past {
            value: add_count(total, Some(1)),
            next: at + 1,
        };
    }
    let e = eval_const_int(tree, at + 1, 32);
    Past {
        value: add_count(total, count_of(e.value)),
        next: e.next,
    }
}

// One modifier more.
fn add_modifier(tree: &[u8], at: usize, total: Option<u64>) -> Past<Option<u64>>
    requires { IsOk (modifier (texts_of tree.now) tree.now at) }
    ensures { Added total (modifier (texts_of tree.now) tree.now at) result }
{
    // `ctrl` or `negctrl`, by the case byte, as the matches.
    if tree[at] < 2 {
        let sum = add_control(tree, at + 1, total);
        return Past {
            value: sum.value,
            next: sum.next + 8,
        };
    }
    Past {
        value: total,
        next: skip_modifier(tree, at),
    }
}

// The control total of a Vec of modifiers.
pub fn modifier_control_count(tree: &[u8], at: usize) -> Past<Option<u64>>
    requires { IsOk (vec (modifier (texts_of tree.now)) tree.now at) }
    ensures { TotalOf (vec (modifier (texts_of tree.now)) tree.now at) result }
{
    let mut sum = Past {
        value: Some(0),
        next: at + 1,
    };
    for _ in 0..tree[at] {
        sum = add_modifier(tree, sum.next, sum.value);
    }
    sum
}
