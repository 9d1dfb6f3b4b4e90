// Steps over expressions: sizes added by the case byte.
ghost use Rattle.std.specs.Prelude.{◌≡◌};
ghost use Rattle.tree.specs.Ans.{IsOk, next_of};
ghost use Rattle.tree.specs.Read.{option};
ghost use Rattle.tree.specs.Exprs.{expr, exprs};
ghost use Rattle.tree.specs.Stmts.{held};
ghost use Rattle.tree.specs.Decode.{texts_of};

use crate::parts::{skip_option, skip_vec};

// The place past an expression with so many levels left.
#[cycle(skip_expr_skip_exprs)]
#[tactic(auto, using(crate::proofs::SkipParts::exprs))]
pub fn skip_expr(s: &[u8], at: usize, left: usize) -> usize
    requires { IsOk (expr (texts_of s.now) left s.now at) }
    ensures { result ≡ next_of (expr (texts_of s.now) left s.now at) }
{
    let s = &s[..]; // pointer and length are loaded one by one, and not waited for as a pair
    // By the case byte: an enum with a conversion would say each case twice.
    match s[at] {
        0 => at + 17,
        1 => at + 11,
        2 => at + 10,
        3 => at + 11,
        4 => at + 19,
        5 => skip_exprs(s, at + 3, left - 1) + 8,
        6 => at + 10,
        7 => skip_expr(s, at + 1, left - 1) + 8,
        _ => {
            let k = skip_expr(s, at + 2, left - 1);
            skip_expr(s, k, left - 1) + 8
        }
    }
}

// The place past a Vec of expressions.
#[cycle(skip_expr_skip_exprs)]
#[tactic(auto, using(crate::proofs::SkipParts::vecs))]
pub fn skip_exprs(s: &[u8], at: usize, left: usize) -> usize
    requires { IsOk (exprs (expr (texts_of s.now) left) s.now at) }
    ensures { result ≡ next_of (exprs (expr (texts_of s.now) left) s.now at) }
{
    skip_vec(
        s,
        at,
        |k|
            requires { IsOk (expr (texts_of s.now) left s.now k) }
            ensures { result ≡ next_of (expr (texts_of s.entry.now) left s.entry.now k) }
        { skip_expr(s, k, left) },
    )
}

// The place past an Option of an expression that a statement or a modifier holds.
#[tactic(auto, using(crate::proofs::SkipParts::options))]
pub fn skip_option_expr(s: &[u8], at: usize) -> usize
    requires { IsOk (option (held (texts_of s.now)) s.now at) }
    ensures { result ≡ next_of (option (held (texts_of s.now)) s.now at) }
{
    skip_option(s, at, |k| skip_expr(s, k, 32))
}
