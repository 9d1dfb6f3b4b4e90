// Statements and their bodies; `left` is how many levels are left.
#![tactic(auto, unfolding(reading::specs::Answers::forget, tree::specs::Ans::bind, tree::specs::Ans::here, tree::specs::Ans::done, tree::specs::Read::one_of, tree::specs::Stmts::gate_def, tree::specs::Stmts::branch, tree::specs::Stmts::for_loop, tree::specs::Stmts::while_loop, tree::specs::Stmts::classical_type), using(reading::proofs::Steps::steps))]

ghost use Rattle.std.specs.Prelude.{◌≡◌, ◌+◌, ◌<◌, length};
ghost use Rattle.tree.specs.Stmts.{body, else_body, gate_def, branch, for_loop, while_loop, stmt};
ghost use Rattle.reading.specs.Answers.{answer, forget};
ghost use Rattle.reading.specs.Sources.{in_file};

use forms::exprs::read_held;
use forms::parts::{read_names, read_range, read_type};
use forms::stmts;
use reading::answers::{Read, refuse};
use reading::containers::read_option;
use reading::numbers::{pass_span, read_case, read_u16};
use reading::source::Source;
use reading::texts::read_name;
use refusal::Refusal;

const STMT_CASES: u8 = 15;

#[cycle(bodies)]
fn read_gate_def(source: &Source, at: usize, left: usize) -> Read<()>
    requires { at < length source.now.bytes.now }
    ensures { answer result ≡ forget (in_file (λ t. gate_def t (stmt t left) at) source.now (at + 1)) }
{
    let a = read_name(source, at + 1);
    let Read::At(_, k) = a else {
        return a.into_place();
    };
    let b = read_names(source, k);
    let Read::At(_, l) = b else {
        return b;
    };
    let c = read_names(source, l);
    let Read::At(_, m) = c else {
        return c;
    };
    let d = read_body(source, m, left);
    let Read::At(_, n) = d else {
        return d;
    };
    pass_span(source.bytes, n)
}

#[cycle(bodies)]
fn read_if(source: &Source, at: usize, left: usize) -> Read<()>
    requires { at < length source.now.bytes.now }
    ensures { answer result ≡ forget (in_file (λ t. branch t (stmt t left) at) source.now (at + 1)) }
{
    let a = read_held(source, at + 1);
    let Read::At(_, k) = a else {
        return a;
    };
    let b = read_body(source, k, left);
    let Read::At(_, l) = b else {
        return b;
    };
    let c = read_else(source, l, left);
    let Read::At(_, m) = c else {
        return c;
    };
    pass_span(source.bytes, m)
}

#[cycle(bodies)]
fn read_for(source: &Source, at: usize, left: usize) -> Read<()>
    requires { at < length source.now.bytes.now }
    ensures { answer result ≡ forget (in_file (λ t. for_loop t (stmt t left) at) source.now (at + 1)) }
{
    let a = read_name(source, at + 1);
    let Read::At(_, k) = a else {
        return a.into_place();
    };
    let b = read_type(source.bytes, k);
    let Read::At(_, l) = b else {
        return b.into_place();
    };
    let c = read_range(source, l);
    let Read::At(_, m) = c else {
        return c;
    };
    let d = read_body(source, m, left);
    let Read::At(_, n) = d else {
        return d;
    };
    pass_span(source.bytes, n)
}

#[cycle(bodies)]
fn read_while(source: &Source, at: usize, left: usize) -> Read<()>
    requires { at < length source.now.bytes.now }
    ensures { answer result ≡ forget (in_file (λ t. while_loop t (stmt t left) at) source.now (at + 1)) }
{
    let a = read_held(source, at + 1);
    let Read::At(_, k) = a else {
        return a;
    };
    let b = read_body(source, k, left);
    let Read::At(_, l) = b else {
        return b;
    };
    pass_span(source.bytes, l)
}

// A statement with so many levels left.
#[cycle(bodies)]
#[tactic(auto, unfolding(reading::specs::Answers::forget, tree::specs::Stmts::stmt_cases), using(reading::proofs::Steps::steps, reading::proofs::Cases::case_bytes, crate::proofs::Cases::stmts))]
fn read_stmt(source: &Source, at: usize, left: usize) -> Read<()>
    ensures { answer result ≡ forget (in_file (λ t. stmt t left) source.now at) }
{
    let a = read_case(source.bytes, at, STMT_CASES);
    let Read::At(b, _) = a else {
        return a.into_place();
    };
    if left == 0 {
        return refuse(Refusal::TooDeep, at);
    }
    // By the case byte: an enum with a conversion would say each case twice.
    match b {
        0 => stmts::read_include(source, at),
        1 | 2 => stmts::read_register(source, at),
        3 => stmts::read_classical_decl(source, at),
        4 => stmts::read_assignment(source, at),
        5 => stmts::read_gate_call(source, at),
        6 => read_gate_def(source, at, left - 1),
        7 => stmts::read_function_def(source, at),
        8 => stmts::read_measure(source, at),
        9 => stmts::read_reset(source, at),
        10 => stmts::read_barrier(source, at),
        11 => stmts::read_delay(source, at),
        12 => read_if(source, at, left - 1),
        13 => read_for(source, at, left - 1),
        _ => read_while(source, at, left - 1),
    }
}

// The body of an `else`, where there is one.
#[cycle(bodies)]
#[tactic(auto, unfolding(reading::specs::Answers::forget), using(reading::proofs::Held::skips, crate::proofs::Cases::bodies))]
fn read_else(source: &Source, at: usize, left: usize) -> Read<()>
    ensures { answer result ≡ forget (in_file (λ t. else_body (stmt t left)) source.now at) }
{
    let read = |k|
        ensures { answer result ≡ forget (in_file (λ t. body (stmt t left)) source.entry.now k) }
    { read_body(source, k, left) };
    read_option(source.bytes, at, read)
}

// Statements behind their count. A loop of its own: the count has two bytes; by a closure, as in a Vec, it took a twenty-fifth more
// instructions.
#[cycle(bodies)]
#[tactic(auto, unfolding(reading::specs::Answers::forget), using(reading::proofs::Held::vecs, crate::proofs::Cases::bodies))]
pub fn read_body(source: &Source, at: usize, left: usize) -> Read<()>
    ensures { answer result ≡ forget (in_file (λ t. body (stmt t left)) source.now at) }
{
    let a = read_u16(source.bytes, at);
    let Read::At(n, first) = a else {
        return a.into_place();
    };
    let mut k = first;
    for _ in 0..n {
        let b = read_stmt(source, k, left);
        let Read::At(_, next) = b else {
            return b;
        };
        k = next;
    }
    Read::At((), k)
}
