// Steps over the parts of statements: sizes added by the bytes that say what follows.
ghost use Rattle.std.specs.Prelude.{◌≡◌, ◌≢◌, ℕ, ◌+◌, ◌*◌, ◌≤◌, ◌<◌, length, get_or};
ghost use Rattle.tree.specs.Ans.{IsOk, next_of};
ghost use Rattle.tree.specs.Read.{u64, option, vec};
ghost use Rattle.tree.specs.Exprs.{name};
ghost use Rattle.tree.specs.Stmts.{qualifier, slice, operand, modifier, for_range, param};
ghost use Rattle.tree.specs.Decode.{texts_of};
ghost use Rattle.accepted.specs.Steps.{Reached, Skipped};

use crate::exprs::{skip_expr, skip_option_expr};
use crate::singles::is_single;

// The place past an Option: behind its value, where there is one.
pub(crate) fn skip_option<F: FnOnce(usize) -> usize>(s: &[u8], at: usize, skip: F) -> usize
    requires at_in_bounds { at < length s.now }
    requires callable { get_or s.now at 0 ≢ 0 → F.pre skip (at + 1) }
    ensures { Skipped (F.post skip) (get_or s.now at 0) (at + 1) result }
{
    if s[at] == 0 {
        return at + 1;
    }
    skip(at + 1)
}

// Past an Option of a number.
#[tactic(auto, using(crate::proofs::SkipParts::options))]
pub(crate) fn skip_number(s: &[u8], at: usize) -> usize
    requires { IsOk (option u64 s.now at) }
    ensures { result ≡ next_of (option u64 s.now at) }
{
    skip_option(s, at, |k| k + 8)
}

// Past an Option of a slice.
#[tactic(auto, using(crate::proofs::SkipParts::options))]
fn skip_ends(s: &[u8], at: usize) -> usize
    requires { IsOk (option slice s.now at) }
    ensures { result ≡ next_of (option slice s.now at) }
{
    skip_option(s, at, |k| k + 16)
}

// Past an Option of a qualifier.
#[tactic(auto, using(crate::proofs::SkipParts::options))]
pub fn skip_qualifier(s: &[u8], at: usize) -> usize
    requires { IsOk (option qualifier s.now at) }
    ensures { result ≡ next_of (option qualifier s.now at) }
{
    skip_option(s, at, |k| k + 1)
}

// The place past a Vec of values of so many bytes.
fn skip_sized(s: &[u8], at: usize, size: usize) -> usize
    requires { (at < length s.now) × (at + 1 + get_or s.now at 0 * size ≤ length s.now) }
    ensures { result ≡ at + 1 + get_or s.now at 0 * size }
{
    at + 1 + usize::from(s[at]) * size
}

// Past a Vec of names.
pub fn skip_names(s: &[u8], at: usize) -> usize
    requires { IsOk (vec (name (texts_of s.now)) s.now at) }
    ensures { result ≡ next_of (vec (name (texts_of s.now)) s.now at) }
{
    skip_sized(s, at, 2)
}

// Past the parameters of a function.
pub fn skip_params(s: &[u8], at: usize) -> usize
    requires { IsOk (vec (param (texts_of s.now)) s.now at) }
    ensures { result ≡ next_of (vec (param (texts_of s.now)) s.now at) }
{
    skip_sized(s, at, 3)
}

// The place past a Vec whose values are stepped over one by one.
pub(crate) fn skip_vec<F: Fn(usize) -> usize>(s: &[u8], at: usize, skip: F) -> usize
    requires at_in_bounds { at < length s.now }
    requires callable { (i k : ℕ) → i < get_or s.now at 0 → Reached (F.post skip) i (at + 1) k → F.pre skip k }
    ensures { Reached (F.post skip) (get_or s.now at 0) (at + 1) result }
{
    let mut k = at + 1;
    for _ in 0..s[at] {
        k = skip(k);
    }
    k
}

pub fn skip_operand(s: &[u8], at: usize) -> usize
    requires { IsOk (operand (texts_of s.now) s.now at) }
    ensures { result ≡ next_of (operand (texts_of s.now) s.now at) }
{
    if is_single(s, at) {
        return at + 20; // a branch that is guessed, and no chain of loads
    }
    let k = skip_number(s, at + 2);
    skip_ends(s, k) + 8
}

#[tactic(auto, using(crate::proofs::SkipParts::options))]
pub fn skip_option_operand(s: &[u8], at: usize) -> usize
    requires { IsOk (option (operand (texts_of s.now)) s.now at) }
    ensures { result ≡ next_of (option (operand (texts_of s.now)) s.now at) }
{
    skip_option(s, at, |k| skip_operand(s, k))
}

#[tactic(auto, using(crate::proofs::SkipParts::vecs))]
pub fn skip_operands(s: &[u8], at: usize) -> usize
    requires { IsOk (vec (operand (texts_of s.now)) s.now at) }
    ensures { result ≡ next_of (vec (operand (texts_of s.now)) s.now at) }
{
    skip_vec(s, at, |k| skip_operand(s, k))
}

#[tactic(auto, using(crate::proofs::SkipParts::modifier_parts))]
pub fn skip_modifier(s: &[u8], at: usize) -> usize
    requires { IsOk (modifier (texts_of s.now) s.now at) }
    ensures { result ≡ next_of (modifier (texts_of s.now) s.now at) }
{
    // By the case byte: an enum with a conversion would say each case twice.
    match s[at] {
        2 => at + 9,
        3 => skip_expr(s, at + 1, 32) + 8,
        _ => skip_option_expr(s, at + 1) + 8,
    }
}

#[tactic(auto, using(crate::proofs::SkipParts::vecs))]
pub(crate) fn skip_modifiers(s: &[u8], at: usize) -> usize
    requires { IsOk (vec (modifier (texts_of s.now)) s.now at) }
    ensures { result ≡ next_of (vec (modifier (texts_of s.now)) s.now at) }
{
    skip_vec(s, at, |k| skip_modifier(s, k))
}

// Past the range of a `for`.
pub fn skip_range(s: &[u8], at: usize) -> usize
    requires { IsOk (for_range (texts_of s.now) s.now at) }
    ensures { result ≡ next_of (for_range (texts_of s.now) s.now at) }
{
    let k = skip_expr(s, at, 32);
    let m = skip_expr(s, k, 32);
    skip_option_expr(s, m)
}
