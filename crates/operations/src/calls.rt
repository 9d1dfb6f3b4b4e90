// What a gate call says.
ghost use Rattle.std.specs.Prelude.{◌≡◌, [], ◌++◌, ◌+◌, ◌<◌, length, get_or, eqb};
ghost use Rattle.ast.specs.Tree.{no_expr};
ghost use Rattle.tree.specs.Ans.{IsOk, next_of};
ghost use Rattle.tree.specs.Read.{vec};
ghost use Rattle.tree.specs.Exprs.{exprs};
ghost use Rattle.tree.specs.Stmts.{held, modifier, operand};
ghost use Rattle.tree.specs.Decode.{texts_of};
ghost use Rattle.sema.specs.Exprs.{check_modifiers};
ghost use Rattle.sema.specs.Operands.{use_operands};
ghost use Rattle.sema.specs.Stmts.{params_say, widths_say, register_widths};
ghost use Rattle.context.specs.Given.{texts, scopes, functions};
ghost use Rattle.operands.specs.Measured.{marks};
ghost use Rattle.context.specs.View.{gates_of};
ghost use Rattle.accepted.specs.Parts.{value_or};
ghost use Rattle.lines.specs.declared.Severity.{Severity};
ghost use Rattle.lines.specs.Values.{secondary_of, name_in, Below, NoteBelow, Reported};
ghost use Rattle.promises.specs.Emitted.{Emitted};
ghost use Rattle.promises.specs.Typings.{plain_context};
ghost use Rattle.operations.specs.Calls.{CallOf, params_by, qubits_by, fits_arity, arity_by, standard_of, signature_by};

use accepted::exprs::skip_exprs;
use accepted::numbers::{span_at, u16_at};
use accepted::parts::skip_operands;
use context::{SemaContext, Sink, StmtAt};
use lines::pieces::name_of;
use lines::{Diagnostic, Message, Note, Severity};
use operands::Measured;
use span::Span;

// What a gate call is made of: its name, the numbers of its parameters, arguments and controls, the places of the Vecs, its end and span.
#[derive(Clone, Copy)]
pub struct Call {
    pub name: usize,
    pub params: u8,
    pub args: u8,
    pub controls: u64,
    pub params_at: usize,
    pub args_at: usize,
    pub end: usize,
    pub span: Span,
}

pub fn call_at(here: StmtAt<'_>) -> Call
    requires { get_or here.texts.tree.now here.at 0 ≡ 5 }
    ensures { CallOf (texts_of here.entry.texts.tree.now) here.entry.texts.tree.now here.entry.at result }
{
    let tree = here.texts.tree;
    let at = here.at;
    let c = constants::modifier_control_count(tree, at + 3);
    let params_at = c.next;
    let args_at = skip_exprs(tree, params_at, 32);
    let end = skip_operands(tree, args_at);
    let name = u16_at(tree, at + 1);
    let params = tree[params_at];
    let args = tree[args_at];
    // 0 for arity where there is no total
    let controls = c.value.unwrap_or(0);
    let span = span_at(tree, end);
    Call {
        name,
        params,
        args,
        controls,
        params_at,
        args_at,
        end,
        span,
    }
}

// What a gate takes, and the note where the program defines it.
#[derive(Clone, Copy)]
struct Arity {
    params: u8,
    qubits: u8,
    decl: Option<(Note, Span)>,
}

// Is the number of arguments that of the qubits and controls?
fn is_arity(args: u8, qubits: u8, controls: u64) -> bool
    ensures { result ≡ eqb args (qubits + controls) }
{
    qubits <= args && u64::from(args - qubits) == controls
}

// An error of a call, with a note where its gate is defined in the program.
fn report_call(
    sema: SemaContext<'_>,
    out: &mut [u8],
    call: Call,
    message: Message,
    decl: Option<(Note, Span)>,
    sink: Sink,
) -> Sink
    requires { Below (length (texts sema)) (name_in message) × NoteBelow (length (texts sema)) decl }
    ensures { Reported (texts sema.entry) (record { severity = Severity.Error; message = message; span = call.span; secondary = decl }) sink out.old result out.new }
{
    let d = Diagnostic {
        severity: Severity::Error,
        message,
        span: call.span,
        secondary: decl,
    };
    lines::report(out, sink, sema.texts, d)
}

fn check_param_count(
    sema: SemaContext<'_>,
    out: &mut [u8],
    call: Call,
    gate: Arity,
    sink: Sink,
) -> Sink
    requires { (call.name < length (texts sema)) × NoteBelow (length (texts sema)) gate.decl }
    ensures { Emitted (texts sema.entry) (params_by call gate.params (secondary_of gate.decl)) sink out.old result out.new }
{
    if call.params == gate.params {
        return sink;
    }
    let message = Message::GateParams(call.name, u64::from(gate.params), u64::from(call.params));
    report_call(sema, out, call, message, gate.decl, sink)
}

fn check_qubit_count(
    sema: SemaContext<'_>,
    out: &mut [u8],
    call: Call,
    gate: Arity,
    sink: Sink,
) -> Sink
    requires { (call.name < length (texts sema)) × NoteBelow (length (texts sema)) gate.decl }
    ensures { Emitted (texts sema.entry) (qubits_by call gate.qubits (secondary_of gate.decl)) sink out.old result out.new }
{
    if is_arity(call.args, gate.qubits, call.controls) {
        return sink;
    }
    let message = Message::GateQubits(
        call.name,
        call.controls,
        u64::from(gate.qubits),
        u64::from(call.args),
    );
    report_call(sema, out, call, message, gate.decl, sink)
}

// Are there as many parameters and arguments as there should be? Asked by each caller, before the call is passed on: most fit.
fn fits_arity(call: Call, gate: Arity) -> bool
    ensures { result ≡ fits_arity call gate.params gate.qubits }
{
    call.params == gate.params && is_arity(call.args, gate.qubits, call.controls)
}

// The counts that are wrong.
fn report_arity(sema: SemaContext<'_>, out: &mut [u8], call: Call, gate: Arity, sink: Sink) -> Sink
    requires { (call.name < length (texts sema)) × NoteBelow (length (texts sema)) gate.decl }
    ensures { Emitted (texts sema.entry) (arity_by call gate.params gate.qubits (secondary_of gate.decl)) sink out.old result out.new }
{
    let s = check_param_count(sema, out, call, gate, sink);
    check_qubit_count(sema, out, call, gate, s)
}

// A gate that the program does not define: a standard gate, or none.
#[tactic(auto, using(crate::proofs::Arity::standard_fits))]
fn check_standard(sema: SemaContext<'_>, out: &mut [u8], call: Call, sink: Sink) -> Sink
    requires { call.name < length (texts sema) }
    ensures { Emitted (texts sema.entry) (standard_of (texts sema.entry) call) sink out.old result out.new }
{
    let places = sema.texts.places;
    let name = name_of(sema.texts.tree, places, call.name);
    let Some(standard) = gates::standard_gate_signature(name) else {
        let message = Message::GateNotDefined(call.name);
        return report_call(sema, out, call, message, None, sink);
    };
    let gate = Arity {
        params: standard.params,
        qubits: standard.qubits,
        decl: None,
    };
    if fits_arity(call, gate) {
        return sink;
    }
    report_arity(sema, out, call, gate, sink)
}

// A definition of the program goes before a standard gate.
#[tactic(auto, using(crate::proofs::Arity::fits))]
pub fn check_signature(sema: SemaContext<'_>, out: &mut [u8], call: Call, sink: Sink) -> Sink
    requires { call.name < length (texts sema) }
    ensures { Emitted (texts sema.entry) (signature_by (texts sema.entry) (gates_of sema.entry.scratch.now) call) sink out.old result out.new }
{
    let Some(sig) = tables::gate(sema.scratch, call.name) else {
        return check_standard(sema, out, call, sink);
    };
    let gate = Arity {
        params: sig.param_count,
        qubits: sig.qubit_count,
        decl: Some((Note::DefinedHere(call.name), sig.decl_span)),
    };
    if fits_arity(call, gate) {
        return sink;
    }
    report_arity(sema, out, call, gate, sink)
}

// The modifiers at `at`, and the parameters behind them.
pub fn check_values(sema: SemaContext<'_>, out: &mut [u8], at: usize, sink: Sink) -> Sink
    requires { IsOk (vec (modifier (texts sema)) sema.texts.tree.now at) × IsOk (exprs (held (texts sema)) sema.texts.tree.now (next_of (vec (modifier (texts sema)) sema.texts.tree.now at))) }
    ensures { Emitted (texts sema.entry) (check_modifiers (scopes sema.entry) (functions sema.entry) (value_or [] (vec (modifier (texts sema.entry)) sema.entry.texts.tree.now at)) ++ params_say (plain_context (scopes sema.entry) (functions sema.entry)) (value_or no_expr (exprs (held (texts sema.entry)) sema.entry.texts.tree.now (next_of (vec (modifier (texts sema.entry)) sema.entry.texts.tree.now at))))) sink out.old result out.new }
{
    let a = typing::check_modifiers(sema, out, at, sink);
    typing::check_params(sema, out, a.next, a.sink).sink
}

// The operands at `at`: each by itself, and their widths.
pub fn check_args(m: Measured<'_, '_>, out: &mut [u8], at: usize, span: Span, sink: Sink) -> Sink
    requires { IsOk (vec (operand (texts m.sema)) m.sema.texts.tree.now at) }
    ensures { Emitted (texts m.entry.sema) (use_operands (scopes m.entry.sema) (marks m.entry) span (value_or [] (vec (operand (texts m.entry.sema)) m.entry.sema.texts.tree.now at)) ++ widths_say span (register_widths (scopes m.entry.sema) (value_or [] (vec (operand (texts m.entry.sema)) m.entry.sema.texts.tree.now at)))) sink out.old result out.new }
{
    let s = operands::use_operands(m, out, at, span, sink);
    operands::check_broadcasting(m.sema, out, at, span, s)
}
