// Operands, modifiers, ranges and parameters.
#![tactic(auto, unfolding(reading::specs::Answers::forget, tree::specs::Ans::bind, tree::specs::Ans::here, tree::specs::Ans::done, tree::specs::Read::one_of, tree::specs::Stmts::operand, tree::specs::Stmts::ctrl, tree::specs::Stmts::neg_ctrl, tree::specs::Stmts::inv, tree::specs::Stmts::pow, tree::specs::Stmts::for_range, tree::specs::Stmts::param, tree::specs::Stmts::classical_type), using(reading::proofs::Steps::steps, reading::proofs::Held::skips))]

ghost use Rattle.std.specs.Prelude.{◌≡◌};
ghost use Rattle.tree.specs.Read.{case_byte, option, vec};
ghost use Rattle.tree.specs.Exprs.{name};
ghost use Rattle.tree.specs.Stmts.{operand, ctrl, neg_ctrl, pow, modifier, for_range, param, qualifier};
ghost use Rattle.reading.specs.Answers.{answer, forget};
ghost use Rattle.reading.specs.Sources.{in_file};

use crate::exprs::{read_held, read_optional_held};
use reading::answers::Read;
use reading::containers::{read_option, read_vec};
use reading::numbers::{pass_span, read_case, read_optional_slice, read_optional_u64};
use reading::source::Source;
use reading::texts::read_name;

const MODIFIER_CASES: u8 = 4;

const TYPES: u8 = 5;

const QUALIFIERS: u8 = 3;

pub(crate) fn read_operand(source: &Source, at: usize) -> Read<()>
    ensures { answer result ≡ forget (in_file operand source.now at) }
{
    let a = read_name(source, at);
    let Read::At(_, k) = a else {
        return a.into_place();
    };
    let b = read_optional_u64(source.bytes, k);
    let Read::At(_, l) = b else {
        return b;
    };
    let c = read_optional_slice(source.bytes, l);
    let Read::At(_, m) = c else {
        return c;
    };
    pass_span(source.bytes, m)
}

pub(crate) fn read_optional_operand(source: &Source, at: usize) -> Read<()>
    ensures { answer result ≡ forget (in_file (λ t. option (operand t)) source.now at) }
{
    read_option(source.bytes, at, |k| read_operand(source, k))
}

// The case byte of a type.
pub fn read_type(s: &[u8], at: usize) -> Read<u8>
    ensures { answer result ≡ case_byte 5 s.now at }
{
    read_case(s, at, TYPES)
}

#[tactic(auto, unfolding(reading::specs::Answers::forget), using(reading::proofs::Held::skips, crate::proofs::Cases::qualifier_is))]
pub(crate) fn read_optional_qualifier(s: &[u8], at: usize) -> Read<()>
    ensures { answer result ≡ forget (option qualifier s.now at) }
{
    read_option(s, at, |k| read_case(s, k, QUALIFIERS).into_place())
}

// A modifier with an optional count, `ctrl` or `negctrl`, behind its case byte.
fn read_ctrl(source: &Source, at: usize) -> Read<()>
    ensures ctrl { answer result ≡ forget (in_file ctrl source.now at) }
    ensures neg_ctrl { answer result ≡ forget (in_file neg_ctrl source.now at) }
{
    read_optional_held(source, at).then_span(source.bytes)
}

fn read_pow(source: &Source, at: usize) -> Read<()>
    ensures { answer result ≡ forget (in_file pow source.now at) }
{
    read_held(source, at).then_span(source.bytes)
}

#[tactic(auto, unfolding(reading::specs::Answers::forget, tree::specs::Ans::bind, tree::specs::Ans::here, tree::specs::Ans::done, tree::specs::Stmts::modifier), using(reading::proofs::Steps::steps, reading::proofs::Cases::case_bytes, crate::proofs::Cases::modifiers))]
fn read_modifier(source: &Source, at: usize) -> Read<()>
    ensures { answer result ≡ forget (in_file modifier source.now at) }
{
    let a = read_case(source.bytes, at, MODIFIER_CASES);
    let Read::At(b, k) = a else {
        return a.into_place();
    };
    // By the case byte: an enum with a conversion would say each case twice.
    match b {
        0 | 1 => read_ctrl(source, k),
        2 => pass_span(source.bytes, k),
        _ => read_pow(source, k),
    }
}

pub fn read_range(source: &Source, at: usize) -> Read<()>
    ensures { answer result ≡ forget (in_file for_range source.now at) }
{
    let a = read_held(source, at);
    let Read::At(_, k) = a else {
        return a;
    };
    let b = read_held(source, k);
    let Read::At(_, l) = b else {
        return b;
    };
    read_optional_held(source, l)
}

// A function's parameter: its type and its name.
fn read_param(source: &Source, at: usize) -> Read<()>
    ensures { answer result ≡ forget (in_file param source.now at) }
{
    let a = read_type(source.bytes, at);
    let Read::At(_, k) = a else {
        return a.into_place();
    };
    read_name(source, k).into_place()
}

// Names behind their count; so the other Vecs.
pub fn read_names(source: &Source, at: usize) -> Read<()>
    ensures { answer result ≡ forget (in_file (λ t. vec (name t)) source.now at) }
{
    read_vec(source.bytes, at, |k| read_name(source, k).into_place())
}

pub(crate) fn read_params(source: &Source, at: usize) -> Read<()>
    ensures { answer result ≡ forget (in_file (λ t. vec (param t)) source.now at) }
{
    read_vec(source.bytes, at, |k| read_param(source, k))
}

pub(crate) fn read_modifiers(source: &Source, at: usize) -> Read<()>
    ensures { answer result ≡ forget (in_file (λ t. vec (modifier t)) source.now at) }
{
    read_vec(source.bytes, at, |k| read_modifier(source, k))
}

pub(crate) fn read_operands(source: &Source, at: usize) -> Read<()>
    ensures { answer result ≡ forget (in_file (λ t. vec (operand t)) source.now at) }
{
    read_vec(source.bytes, at, |k| read_operand(source, k))
}
