// Statements without a body. A case's function is given the place of the case byte and starts behind it.
#![tactic(auto, unfolding(reading::specs::Answers::forget, tree::specs::Ans::bind, tree::specs::Ans::here, tree::specs::Ans::done, tree::specs::Read::one_of, tree::specs::Stmts::include, tree::specs::Stmts::qubit_decl, tree::specs::Stmts::bit_decl, tree::specs::Stmts::classical_decl, tree::specs::Stmts::assignment, tree::specs::Stmts::gate_call, tree::specs::Stmts::function_def, tree::specs::Stmts::measure, tree::specs::Stmts::reset, tree::specs::Stmts::barrier, tree::specs::Stmts::delay, tree::specs::Stmts::classical_type, tree::specs::Stmts::assign_op), using(reading::proofs::Steps::steps))]

ghost use Rattle.std.specs.Prelude.{◌≡◌, ◌+◌, ◌<◌, length};
ghost use Rattle.tree.specs.Stmts.{include, qubit_decl, bit_decl, classical_decl, assignment, gate_call, function_def, measure, reset, barrier, delay};
ghost use Rattle.reading.specs.Answers.{answer, forget};
ghost use Rattle.reading.specs.Sources.{in_file};

use crate::exprs::{read_held, read_held_args, read_optional_held};
use crate::parts::{
    read_modifiers, read_operand, read_operands, read_optional_operand, read_optional_qualifier,
    read_params, read_type,
};
use reading::answers::Read;
use reading::numbers::{pass_span, read_case, read_optional_u64};
use reading::source::Source;
use reading::texts::{read_name, read_path};

const ASSIGN_OPS: u8 = 3;

pub fn read_include(source: &Source, at: usize) -> Read<()>
    requires { at < length source.now.bytes.now }
    ensures { answer result ≡ forget (in_file (λ t. include t at) source.now (at + 1)) }
{
    read_path(source, at + 1).then_span(source.bytes)
}

// A declaration of qubits or of bits: both have the same fields.
pub fn read_register(source: &Source, at: usize) -> Read<()>
    requires { at < length source.now.bytes.now }
    ensures { (answer result ≡ forget (in_file (λ t. qubit_decl t at) source.now (at + 1))) × (answer result ≡ forget (in_file (λ t. bit_decl t at) source.now (at + 1))) }
{
    let a = read_name(source, at + 1);
    let Read::At(_, k) = a else {
        return a.into_place();
    };
    let b = read_optional_u64(source.bytes, k);
    let Read::At(_, l) = b else {
        return b;
    };
    pass_span(source.bytes, l)
}

pub fn read_classical_decl(source: &Source, at: usize) -> Read<()>
    requires { at < length source.now.bytes.now }
    ensures { answer result ≡ forget (in_file (λ t. classical_decl t at) source.now (at + 1)) }
{
    let a = read_optional_qualifier(source.bytes, at + 1);
    let Read::At(_, k) = a else {
        return a;
    };
    let b = read_type(source.bytes, k);
    let Read::At(_, l) = b else {
        return b.into_place();
    };
    let c = read_name(source, l);
    let Read::At(_, m) = c else {
        return c.into_place();
    };
    let d = read_optional_held(source, m);
    let Read::At(_, n) = d else {
        return d;
    };
    pass_span(source.bytes, n)
}

pub fn read_assignment(source: &Source, at: usize) -> Read<()>
    requires { at < length source.now.bytes.now }
    ensures { answer result ≡ forget (in_file (λ t. assignment t at) source.now (at + 1)) }
{
    let a = read_name(source, at + 1);
    let Read::At(_, k) = a else {
        return a.into_place();
    };
    let b = read_case(source.bytes, k, ASSIGN_OPS);
    let Read::At(_, l) = b else {
        return b.into_place();
    };
    let c = read_held(source, l);
    let Read::At(_, m) = c else {
        return c;
    };
    pass_span(source.bytes, m)
}

pub fn read_gate_call(source: &Source, at: usize) -> Read<()>
    requires { at < length source.now.bytes.now }
    ensures { answer result ≡ forget (in_file (λ t. gate_call t at) source.now (at + 1)) }
{
    let a = read_name(source, at + 1);
    let Read::At(_, k) = a else {
        return a.into_place();
    };
    let b = read_modifiers(source, k);
    let Read::At(_, l) = b else {
        return b;
    };
    let c = read_held_args(source, l);
    let Read::At(_, m) = c else {
        return c;
    };
    let d = read_operands(source, m);
    let Read::At(_, n) = d else {
        return d;
    };
    pass_span(source.bytes, n)
}

pub fn read_function_def(source: &Source, at: usize) -> Read<()>
    requires { at < length source.now.bytes.now }
    ensures { answer result ≡ forget (in_file (λ t. function_def t at) source.now (at + 1)) }
{
    let a = read_name(source, at + 1);
    let Read::At(_, k) = a else {
        return a.into_place();
    };
    let b = read_params(source, k);
    let Read::At(_, l) = b else {
        return b;
    };
    let c = read_type(source.bytes, l);
    let Read::At(_, m) = c else {
        return c.into_place();
    };
    let d = read_held(source, m);
    let Read::At(_, n) = d else {
        return d;
    };
    pass_span(source.bytes, n)
}

pub fn read_measure(source: &Source, at: usize) -> Read<()>
    requires { at < length source.now.bytes.now }
    ensures { answer result ≡ forget (in_file (λ t. measure t at) source.now (at + 1)) }
{
    let a = read_operand(source, at + 1);
    let Read::At(_, k) = a else {
        return a;
    };
    let b = read_optional_operand(source, k);
    let Read::At(_, l) = b else {
        return b;
    };
    pass_span(source.bytes, l)
}

pub fn read_reset(source: &Source, at: usize) -> Read<()>
    requires { at < length source.now.bytes.now }
    ensures { answer result ≡ forget (in_file (λ t. reset t at) source.now (at + 1)) }
{
    read_operand(source, at + 1).then_span(source.bytes)
}

pub fn read_barrier(source: &Source, at: usize) -> Read<()>
    requires { at < length source.now.bytes.now }
    ensures { answer result ≡ forget (in_file (λ t. barrier t at) source.now (at + 1)) }
{
    read_operands(source, at + 1).then_span(source.bytes)
}

pub fn read_delay(source: &Source, at: usize) -> Read<()>
    requires { at < length source.now.bytes.now }
    ensures { answer result ≡ forget (in_file (λ t. delay t at) source.now (at + 1)) }
{
    let a = read_held(source, at + 1);
    let Read::At(_, k) = a else {
        return a;
    };
    let b = read_operands(source, k);
    let Read::At(_, l) = b else {
        return b;
    };
    pass_span(source.bytes, l)
}
