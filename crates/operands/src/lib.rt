// Checks of operands over accepted bytes: check_operand, operand_width, check_use_after_measure.
#![tactic(auto)]

mod bounds;
mod kinds;
mod measured;
mod uses;
mod widths;

ghost use Rattle.std.specs.Prelude.{◌≡◌, true, [], ◌++◌, ◌<◌, length};
ghost use Rattle.tree.specs.Ans.{IsOk, given};
ghost use Rattle.tree.specs.Read.{vec};
ghost use Rattle.tree.specs.Stmts.{operand};
ghost use Rattle.sema.specs.Operands.{check_operand, operand_width, check_use_after_measure, use_operands};
ghost use Rattle.sema.specs.Messages.{a_qubit};
ghost use Rattle.sema.specs.Stmts.{register_widths, widths_say};
ghost use Rattle.context.specs.Values.{number_of, operand_of};
ghost use Rattle.context.specs.Given.{texts, scopes};
ghost use Rattle.lines.specs.Values.{expected_of};
ghost use Rattle.promises.specs.Emitted.{Emitted};
ghost use Rattle.operands.specs.Measured.{marks};
ghost use Rattle.operands.specs.Says.{nothing};
ghost use Rattle.operands.specs.Passing.{passing};
ghost use Rattle.operands.specs.Widths.{measure_widths, uniform};

use accepted::operands::operand_at;
use accepted::singles::{is_single, single_at};
use bounds::Declared;
use context::{GateOperand, SemaContext, Sink};
use lines::{Expected, Message, Note, error, error_with_note};
pub use measured::Measured;
use span::Span;

pub fn check_operand(
    sema: SemaContext<'_>,
    out: &mut [u8],
    op: GateOperand,
    expected: Expected,
    sink: Sink,
) -> Sink
    requires { op.name < length (texts sema) }
    ensures { Emitted (texts sema.entry) (check_operand (scopes sema.entry) (operand_of op) (expected_of expected)) sink out.old result out.new }
{
    let Some(symbol) = tables::get(sema.scratch, sema.depth, op.name) else {
        return lines::report(
            out,
            sink,
            sema.texts,
            error(Message::NotDeclared(op.name), op.span),
        );
    };
    let declared = Declared { op, symbol };
    let s = declared.check_kind(sema, out, expected, sink);
    declared.check_bounds(sema, out, s)
}

#[tactic(auto, unfolding(sema::specs::Operands::operand_width))]
fn operand_width(sema: SemaContext<'_>, op: GateOperand) -> Option<u64>
    requires { op.name < 256 }
    ensures { number_of result ≡ operand_width (scopes sema.entry) (operand_of op) }
{
    let symbol = tables::get(sema.scratch, sema.depth, op.name)?;
    widths::width_by(symbol.size, op.slice, op.index)
}

// A measurement's source and target have one width.
#[tactic(auto, using(crate::proofs::WidthLaws::source_none))]
pub fn check_measure_widths(
    sema: SemaContext<'_>,
    out: &mut [u8],
    qubit: GateOperand,
    target: GateOperand,
    span: Span,
    sink: Sink,
) -> Sink
    requires { (qubit.name < length (texts sema)) × (target.name < length (texts sema)) }
    ensures { Emitted (texts sema.entry) (measure_widths (scopes sema.entry) (operand_of qubit) span (operand_of target)) sink out.old result out.new }
{
    let Some(a) = operand_width(sema, qubit) else {
        return sink;
    };
    let Some(b) = operand_width(sema, target) else {
        return sink;
    };
    if a == b {
        return sink;
    }
    lines::report(
        out,
        sink,
        sema.texts,
        error_with_note(
            Message::MeasurementWidths(a, b),
            span,
            Note::TargetDeclared,
            target.span,
        ),
    )
}

#[tactic(auto, using(crate::proofs::UseLaws::use_none, crate::proofs::UseLaws::looked_up))]
fn check_use_after_measure(
    m: Measured<'_, '_>,
    out: &mut [u8],
    op: GateOperand,
    span: Span,
    sink: Sink,
) -> Sink
    requires { op.name < length (texts m.sema) }
    ensures { Emitted (texts m.entry.sema) (check_use_after_measure (marks m.entry) (operand_of op) span) sink out.old result out.new }
{
    if let Some(ends) = op.slice {
        return uses::check_slice_use(m, out, op.name, ends, span, sink);
    }
    let Some(place) = sheet::lookup(m.marks, m.keys, op.name, op.index) else {
        return sink;
    };
    let at = uses::measure_span(m.sema.texts.tree, usize::from(place));
    lines::report(
        out,
        sink,
        m.sema.texts,
        error_with_note(Message::Used(op), span, Note::MeasuredHere, at),
    )
}

// Has check_operand nothing to say?
#[tactic(auto, unfolding(crate::specs::Says::nothing, sema::specs::Operands::check_operand))]
fn is_quiet(sema: SemaContext<'_>, op: GateOperand, expected: Expected) -> bool
    requires { op.name < 256 }
    ensures { result ≡ nothing (check_operand (scopes sema.entry) (operand_of op) (expected_of expected)) }
{
    let Some(symbol) = tables::get(sema.scratch, sema.depth, op.name) else {
        return false;
    };
    kinds::fits(expected, symbol.kind) && Declared { op, symbol }.keeps_bounds()
}

// An operand of a gate call, a barrier or a delay. Of most there is nothing to say but of their use. That is checked by one call, so it
// is compiled in here, and the context is not copied for it.
fn use_operand(m: Measured<'_, '_>, out: &mut [u8], op: GateOperand, span: Span, sink: Sink) -> Sink
    requires { op.name < length (texts m.sema) }
    ensures { Emitted (texts m.entry.sema) (check_operand (scopes m.entry.sema) (operand_of op) a_qubit ++ check_use_after_measure (marks m.entry) (operand_of op) span) sink out.old result out.new }
{
    let s = if is_quiet(m.sema, op, Expected::Qubit) {
        sink
    } else {
        check_operand(m.sema, out, op, Expected::Qubit, sink)
    };
    check_use_after_measure(m, out, op, span, s)
}

// Has such an operand an index and no slice, and is there nothing to say of it?
#[tactic(auto, using(crate::proofs::PassLaws::pass_loud))]
fn passes(m: Measured<'_, '_>, at: usize) -> bool
    requires { IsOk (operand (texts m.sema) m.sema.texts.tree.now at) }
    ensures { (sp : Span) → result ≡ passing (texts m.entry.sema) m.entry.sema.texts.tree.now (scopes m.entry.sema) (marks m.entry) sp at }
{
    if !is_single(m.sema.texts.tree, at) {
        return false;
    }
    let op = single_at(m.sema.texts.tree, at);
    is_quiet(m.sema, op, Expected::Qubit)
        && sheet::lookup(m.marks, m.keys, op.name, op.index).is_none()
}

// A Vec of them.
#[tactic(auto, using(accepted::specs::Fields::counted_in, crate::proofs::VecLaws::left_first))]
pub fn use_operands(m: Measured<'_, '_>, out: &mut [u8], at: usize, span: Span, sink: Sink) -> Sink
    requires { IsOk (vec (operand (texts m.sema)) m.sema.texts.tree.now at) }
    ensures { Emitted (texts m.entry.sema) (given [] (use_operands (scopes m.entry.sema) (marks m.entry) span) (vec (operand (texts m.entry.sema)) m.entry.sema.texts.tree.now at)) sink out.old result out.new }
{
    let mut k = at + 1;
    let mut s = sink;
    for _ in 0..m.sema.texts.tree[at] {
        if passes(m, k) {
            k += 20;
        } else {
            let op = operand_at(m.sema.texts.tree, k);
            s = use_operand(m, out, op.value, span, s);
            k = op.next;
        }
    }
    s
}

// Are the widths above 1 of a Vec of operands all equal? One alone has none beside it.
#[tactic(auto, using(accepted::specs::Fields::counted_in, crate::proofs::VecLaws::left_first))]
fn widths_agree(sema: SemaContext<'_>, at: usize) -> bool
    requires { IsOk (vec (operand (texts sema)) sema.texts.tree.now at) }
    ensures { result ≡ given true (λ ops. uniform (register_widths (scopes sema.entry) ops)) (vec (operand (texts sema.entry)) sema.entry.texts.tree.now at) }
{
    let n = sema.texts.tree[at];
    if n < 2 {
        return true;
    }
    let mut k = at + 1;
    let mut met = None;
    for _ in 0..n {
        if is_single(sema.texts.tree, k) {
            k += 20;
        } else {
            let op = operand_at(sema.texts.tree, k);
            let width = widths::above_one(operand_width(sema, op.value));
            if widths::differ(met, width) {
                return false;
            }
            met = met.or(width);
            k = op.next;
        }
    }
    true
}

// Registers in one gate call have one width.
pub fn check_broadcasting(
    sema: SemaContext<'_>,
    out: &mut [u8],
    at: usize,
    span: Span,
    sink: Sink,
) -> Sink
    requires { IsOk (vec (operand (texts sema)) sema.texts.tree.now at) }
    ensures { Emitted (texts sema.entry) (given [] (λ ops. widths_say span (register_widths (scopes sema.entry) ops)) (vec (operand (texts sema.entry)) sema.entry.texts.tree.now at)) sink out.old result out.new }
{
    if widths_agree(sema, at) {
        return sink;
    }
    lines::report(out, sink, sema.texts, error(Message::Broadcasting, span))
}
