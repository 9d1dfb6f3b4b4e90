// Expressions. A case's function starts behind the case byte; `left` is how many levels are left below.
#![tactic(auto, unfolding(reading::specs::Answers::forget, tree::specs::Ans::bind, tree::specs::Ans::here, tree::specs::Ans::done, tree::specs::Read::one_of, tree::specs::Exprs::int_lit, tree::specs::Exprs::float_lit, tree::specs::Exprs::bool_lit, tree::specs::Exprs::ident, tree::specs::Exprs::index, tree::specs::Exprs::call, tree::specs::Exprs::neg, tree::specs::Read::bool, crate::specs::Pairs::pair), using(reading::proofs::Steps::steps, reading::proofs::Held::skips))]

ghost use Rattle.std.specs.Prelude.{◌≡◌};
ghost use Rattle.tree.specs.Ans.{bind};
ghost use Rattle.tree.specs.Limits.{expr_levels};
ghost use Rattle.tree.specs.Read.{case_byte, option};
ghost use Rattle.tree.specs.Exprs.{int_lit, float_lit, bool_lit, ident, index, call, const, neg, expr, exprs};
ghost use Rattle.reading.specs.Answers.{answer, forget};
ghost use Rattle.reading.specs.Sources.{in_file};
ghost use Rattle.tree.specs.Decode.{texts_of};
ghost use Rattle.forms.specs.Pairs.{pair};

use reading::answers::{Read, refuse};
use reading::containers::{read_option, read_vec};
use reading::numbers::{FLAGS, pass_span, read_case, read_u64};
use reading::source::Source;
use reading::texts::{read_float, read_name};
use refusal::Refusal;

const EXPR_LEVELS: usize = 32;

const EXPR_CASES: u8 = 10;

const CONST_KINDS: u8 = 3;

const BIN_OPS: u8 = 5;

const COMPARE_OPS: u8 = 6;

fn read_int_lit(s: &[u8], at: usize) -> Read<()>
    ensures { answer result ≡ forget (int_lit (texts_of s.now) s.now at) }
{
    read_u64(s, at).then_span(s)
}

fn read_float_lit(source: &Source, at: usize) -> Read<()>
    ensures { answer result ≡ forget (in_file float_lit source.now at) }
{
    read_float(source, at).then_span(source.bytes)
}

fn read_bool_lit(s: &[u8], at: usize) -> Read<()>
    ensures { answer result ≡ forget (bool_lit (texts_of s.now) s.now at) }
{
    read_case(s, at, FLAGS).then_span(s)
}

fn read_ident(source: &Source, at: usize) -> Read<()>
    ensures { answer result ≡ forget (in_file ident source.now at) }
{
    read_name(source, at).then_span(source.bytes)
}

fn read_index(source: &Source, at: usize) -> Read<()>
    ensures { answer result ≡ forget (in_file index source.now at) }
{
    let a = read_name(source, at);
    let Read::At(_, k) = a else {
        return a.into_place();
    };
    let b = read_u64(source.bytes, k);
    let Read::At(_, l) = b else {
        return b.into_place();
    };
    pass_span(source.bytes, l)
}

#[tactic(auto, unfolding(reading::specs::Answers::forget, tree::specs::Ans::bind), using(reading::proofs::Steps::steps, crate::proofs::Cases::const_is))]
fn read_const(s: &[u8], at: usize) -> Read<()>
    ensures { answer result ≡ forget (const (texts_of s.now) s.now at) }
{
    read_case(s, at, CONST_KINDS).then_span(s)
}

#[cycle(exprs)]
fn read_call(source: &Source, at: usize, left: usize) -> Read<()>
    ensures { answer result ≡ forget (in_file (λ t. call t (expr t left)) source.now at) }
{
    let a = read_name(source, at);
    let Read::At(_, k) = a else {
        return a.into_place();
    };
    let b = read_args(source, k, left);
    let Read::At(_, l) = b else {
        return b;
    };
    pass_span(source.bytes, l)
}

#[cycle(exprs)]
fn read_neg(source: &Source, at: usize, left: usize) -> Read<()>
    ensures { answer result ≡ forget (in_file (λ t. neg t (expr t left)) source.now at) }
{
    read_expr(source, at, left).then_span(source.bytes)
}

// The operator behind this case byte: one of five in an operation, of six in a comparison. By the byte, as the match below.
fn read_operator(s: &[u8], at: usize, case: u8) -> Read<u8>
    ensures binary { case ≡ 8 → answer result ≡ case_byte 5 s.now at }
    ensures compare { (case ≡ 8 → ⊥) → answer result ≡ case_byte 6 s.now at }
{
    if case == 8 {
        return read_case(s, at, BIN_OPS);
    }
    read_case(s, at, COMPARE_OPS)
}

// The two operands of an operator that was read, of an operation or a comparison.
#[cycle(exprs)]
fn read_pair(source: &Source, op: Read<u8>, left: usize) -> Read<()>
    ensures { answer result ≡ bind (answer op) (λ o. in_file (λ t. pair (expr t left)) source.now) }
{
    let Read::At(_, k) = op else {
        return op.into_place();
    };
    let a = read_expr(source, k, left);
    let Read::At(_, l) = a else {
        return a;
    };
    let b = read_expr(source, l, left);
    let Read::At(_, m) = b else {
        return b;
    };
    pass_span(source.bytes, m)
}

// Expressions behind their count.
#[cycle(exprs)]
fn read_args(source: &Source, at: usize, left: usize) -> Read<()>
    ensures { answer result ≡ forget (in_file (λ t. exprs (expr t left)) source.now at) }
{
    let read = |k|
        ensures { answer result ≡ forget (in_file (λ t. expr t left) source.entry.now k) }
    { read_expr(source, k, left) };
    read_vec(source.bytes, at, read)
}

// An expression with so many levels left.
#[cycle(exprs)]
#[tactic(auto, unfolding(reading::specs::Answers::forget, tree::specs::Exprs::expr_cases), using(reading::proofs::Steps::steps, reading::proofs::Cases::case_bytes, crate::proofs::Cases::exprs))]
fn read_expr(source: &Source, at: usize, left: usize) -> Read<()>
    ensures { answer result ≡ forget (in_file (λ t. expr t left) source.now at) }
{
    let s = source.bytes;
    let a = read_case(s, at, EXPR_CASES);
    let Read::At(b, k) = a else {
        return a.into_place();
    };
    if left == 0 {
        return refuse(Refusal::TooDeep, at);
    }
    // By the case byte: an enum with a conversion would say each case twice.
    match b {
        0 => read_int_lit(s, k),
        1 => read_float_lit(source, k),
        2 => read_bool_lit(s, k),
        3 => read_ident(source, k),
        4 => read_index(source, k),
        5 => read_call(source, k, left - 1),
        6 => read_const(s, k),
        7 => read_neg(source, k, left - 1),
        _ => read_pair(source, read_operator(s, k, b), left - 1),
    }
}

// An expression that a statement or a modifier holds.
pub fn read_held(source: &Source, at: usize) -> Read<()>
    ensures { answer result ≡ forget (in_file (λ t. expr t expr_levels) source.now at) }
{
    read_expr(source, at, EXPR_LEVELS)
}

pub(crate) fn read_held_args(source: &Source, at: usize) -> Read<()>
    ensures { answer result ≡ forget (in_file (λ t. exprs (expr t expr_levels)) source.now at) }
{
    read_args(source, at, EXPR_LEVELS)
}

pub(crate) fn read_optional_held(source: &Source, at: usize) -> Read<()>
    ensures { answer result ≡ forget (in_file (λ t. option (expr t expr_levels)) source.now at) }
{
    read_option(source.bytes, at, |k| read_held(source, k))
}
