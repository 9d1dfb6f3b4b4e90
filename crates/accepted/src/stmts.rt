// Steps over statements and bodies: sizes added by the case byte. Plain parameters: a `StmtAt` would ask for the places of the texts too.
ghost use Rattle.std.specs.Prelude.{◌≡◌, get_or};
ghost use Rattle.tree.specs.Ans.{IsOk, next_of};
ghost use Rattle.tree.specs.Stmts.{body, else_body, stmt};
ghost use Rattle.tree.specs.Decode.{texts_of};
ghost use Rattle.accepted.specs.Compound.{Compound, body_place};

use crate::exprs::{skip_expr, skip_exprs, skip_option_expr};
use crate::numbers::u16_at;
use crate::parts::{
    skip_modifiers, skip_names, skip_number, skip_operand, skip_operands, skip_option,
    skip_option_operand, skip_params, skip_qualifier, skip_range,
};

// The place past a statement with so many levels left.
#[cycle(skip_body_skip_compound_skip_else_skip_stmt)]
fn skip_stmt(s: &[u8], at: usize, left: usize) -> usize
    requires { IsOk (stmt (texts_of s.now) left s.now at) }
    ensures { result ≡ next_of (stmt (texts_of s.now) left s.now at) }
{
    let s = &s[..]; // as in skip_expr: loaded one by one
    // By the case byte: an enum with a conversion would say each case twice.
    match s[at] {
        0 => at + 11,
        1 | 2 => skip_number(s, at + 3) + 8,
        3 => skip_classical_decl(s, at, left),
        4 => skip_expr(s, at + 4, 32) + 8,
        5 => skip_gate_call(s, at, left),
        6 => skip_compound(s, at, left),
        7 => skip_function_def(s, at, left),
        8 => skip_measure(s, at, left),
        9 => skip_operand(s, at + 1) + 8,
        10 => skip_operands(s, at + 1) + 8,
        11 => skip_delay(s, at, left),
        _ => skip_compound(s, at, left),
    }
}

fn skip_classical_decl(s: &[u8], at: usize, left: usize) -> usize
    requires { IsOk (stmt (texts_of s.now) left s.now at) × (get_or s.now at 0 ≡ 3) }
    ensures { result ≡ next_of (stmt (texts_of s.now) left s.now at) }
{
    let k = skip_qualifier(s, at + 1);
    skip_option_expr(s, k + 3) + 8
}

fn skip_gate_call(s: &[u8], at: usize, left: usize) -> usize
    requires { IsOk (stmt (texts_of s.now) left s.now at) × (get_or s.now at 0 ≡ 5) }
    ensures { result ≡ next_of (stmt (texts_of s.now) left s.now at) }
{
    let k = skip_modifiers(s, at + 3);
    let m = skip_exprs(s, k, 32);
    skip_operands(s, m) + 8
}

fn skip_function_def(s: &[u8], at: usize, left: usize) -> usize
    requires { IsOk (stmt (texts_of s.now) left s.now at) × (get_or s.now at 0 ≡ 7) }
    ensures { result ≡ next_of (stmt (texts_of s.now) left s.now at) }
{
    let k = skip_params(s, at + 3);
    skip_expr(s, k + 1, 32) + 8
}

fn skip_measure(s: &[u8], at: usize, left: usize) -> usize
    requires { IsOk (stmt (texts_of s.now) left s.now at) × (get_or s.now at 0 ≡ 8) }
    ensures { result ≡ next_of (stmt (texts_of s.now) left s.now at) }
{
    let k = skip_operand(s, at + 1);
    skip_option_operand(s, k) + 8
}

fn skip_delay(s: &[u8], at: usize, left: usize) -> usize
    requires { IsOk (stmt (texts_of s.now) left s.now at) × (get_or s.now at 0 ≡ 11) }
    ensures { result ≡ next_of (stmt (texts_of s.now) left s.now at) }
{
    let k = skip_expr(s, at + 1, 32);
    skip_operands(s, k) + 8
}

// The place of the body of a gate definition, an `if` or a loop.
fn body_place(s: &[u8], at: usize, left: usize) -> usize
    requires { IsOk (stmt (texts_of s.now) left s.now at) × Compound (get_or s.now at 0) }
    ensures { result ≡ body_place (texts_of s.now) s.now at }
{
    // By the case byte: an enum with a conversion would say each case twice.
    match s[at] {
        6 => {
            let k = skip_names(s, at + 3);
            skip_names(s, k)
        }
        13 => skip_range(s, at + 4),
        _ => skip_expr(s, at + 1, 32),
    }
}

// Past a gate definition, an `if` or a loop.
#[cycle(skip_body_skip_compound_skip_else_skip_stmt)]
fn skip_compound(s: &[u8], at: usize, left: usize) -> usize
    requires { IsOk (stmt (texts_of s.now) left s.now at) × Compound (get_or s.now at 0) }
    ensures { result ≡ next_of (stmt (texts_of s.now) left s.now at) }
{
    let k = body_place(s, at, left);
    let m = skip_body(s, k, left - 1);
    // An `if`, by the case byte, as the matches.
    if s[at] == 12 {
        return skip_else(s, m, left - 1) + 8;
    }
    m + 8
}

// The place past a body whose statements have so many levels left. A loop of its own: the count has two bytes, in a Vec one.
#[cycle(skip_body_skip_compound_skip_else_skip_stmt)]
pub fn skip_body(s: &[u8], at: usize, left: usize) -> usize
    requires { IsOk (body (stmt (texts_of s.now) left) s.now at) }
    ensures { result ≡ next_of (body (stmt (texts_of s.now) left) s.now at) }
{
    let mut k = at + 2;
    for _ in 0..u16_at(s, at) {
        k = skip_stmt(s, k, left);
    }
    k
}

// The place past the body of an `else`, where there is one.
#[cycle(skip_body_skip_compound_skip_else_skip_stmt)]
#[tactic(auto, using(crate::proofs::SkipParts::options))]
fn skip_else(s: &[u8], at: usize, left: usize) -> usize
    requires { IsOk (else_body (stmt (texts_of s.now) left) s.now at) }
    ensures { result ≡ next_of (else_body (stmt (texts_of s.now) left) s.now at) }
{
    skip_option(
        s,
        at,
        |k|
            requires { IsOk (body (stmt (texts_of s.now) left) s.now k) }
            ensures { result ≡ next_of (body (stmt (texts_of s.entry.now) left) s.entry.now k) }
        { skip_body(s, k, left) },
    )
}
