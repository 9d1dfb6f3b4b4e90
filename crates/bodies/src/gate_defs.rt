// Before the body of a gate definition.
ghost use Rattle.std.specs.Prelude.{◌≡◌, [], ◌≤◌, ◌<◌, length, get_or};
ghost use Rattle.tree.specs.Ans.{IsOk};
ghost use Rattle.tree.specs.Read.{vec};
ghost use Rattle.tree.specs.Exprs.{name};
ghost use Rattle.tree.specs.Decode.{texts_of};
ghost use Rattle.context.specs.Given.{texts};
ghost use Rattle.context.specs.View.{gates_of};
ghost use Rattle.accepted.specs.Parts.{value_or};
ghost use Rattle.promises.specs.Emitted.{Emitted};
ghost use Rattle.bodies.specs.Opened.{gate_known};
ghost use Rattle.bodies.specs.Parts.{GatePartsOf, GateEntered};

use accepted::numbers::{span_at, u16_at};
use accepted::parts::skip_names;
use accepted::stmts::skip_body;
use context::{GateSig, SemaContext, Sink, StmtAt};
use lines::Message;
use span::Span;

// The parts of a gate definition.
#[derive(Clone, Copy)]
pub struct GateParts {
    pub name: usize,
    pub params_at: usize,
    pub qubits_at: usize,
    pub body_at: usize,
    pub span: Span,
}

#[tactic(auto, using(crate::proofs::Gates::gates))]
pub fn gate_parts(here: StmtAt<'_>) -> GateParts
    requires { get_or here.texts.tree.now here.at 0 ≡ 6 }
    ensures { GatePartsOf here.entry.texts.tree.now here.entry.left here.entry.at result }
{
    let tree = here.texts.tree;
    let at = here.at;
    let name = u16_at(tree, at + 1);
    let qubits_at = skip_names(tree, at + 3);
    let body_at = skip_names(tree, qubits_at);
    let span = span_at(tree, skip_body(tree, body_at, here.left - 1));
    GateParts {
        name,
        params_at: at + 3,
        qubits_at,
        body_at,
        span,
    }
}

// A name that a gate has is reported, and the definition replaces the other.
#[tactic(auto, using(crate::proofs::Gates::reports))]
pub fn report_gate(sema: SemaContext<'_>, out: &mut [u8], x: usize, span: Span, sink: Sink) -> Sink
    requires { x < length (texts sema) }
    ensures { Emitted (texts sema.entry) (gate_known (gates_of sema.entry.scratch.now) x span) sink out.old result out.new }
{
    if tables::gate(sema.scratch, x).is_none() {
        return sink;
    }
    lines::report(
        out,
        sink,
        sema.texts,
        lines::error(Message::GateAlreadyDefined(x), span),
    )
}

// A Vec has as many values as its byte says.
#[tactic(auto, using(accepted::specs::Fields::counted_in))]
fn count_at(tree: &[u8], at: usize) -> u8
    requires { IsOk (vec (name (texts_of tree.now)) tree.now at) }
    ensures { result ≡ length (value_or [] (vec (name (texts_of tree.now)) tree.now at)) }
{
    tree[at]
}

// The gate is defined, and the scope of its parameters is entered.
pub fn define_gate(tree: &[u8], scratch: &mut [u8], depth: usize, parts: GateParts)
    requires { (65536 ≤ length scratch.old) × (depth < 9) × (length (texts_of tree.now) ≤ 256) × (parts.name < 256) × IsOk (vec (name (texts_of tree.now)) tree.now parts.params_at) × IsOk (vec (name (texts_of tree.now)) tree.now parts.qubits_at) }
    ensures { GateEntered scratch.old scratch.new depth parts.name (value_or [] (vec (name (texts_of tree.now)) tree.now parts.params_at)) (value_or [] (vec (name (texts_of tree.now)) tree.now parts.qubits_at)) parts.span }
{
    let sig = GateSig {
        param_count: count_at(tree, parts.params_at),
        qubit_count: count_at(tree, parts.qubits_at),
        decl_span: parts.span,
    };
    tables::define_gate(scratch, parts.name, sig);
    scopes::enter_gate(
        tree,
        scratch,
        depth,
        parts.params_at,
        parts.qubits_at,
        parts.span,
    );
}
