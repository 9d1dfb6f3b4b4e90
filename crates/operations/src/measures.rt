// What a measurement says, and what it does to the marks.
ghost use Rattle.std.specs.Prelude.{◌≡◌, List, not, ℕ, ◌+◌, ◌≤◌, ◌<◌, length};
ghost use Rattle.std.proofs.Math.Option.{some};
ghost use Rattle.tree.specs.Ans.{IsOk, next_of};
ghost use Rattle.tree.specs.Read.{option};
ghost use Rattle.tree.specs.Stmts.{operand};
ghost use Rattle.sema.specs.Messages.{warning, already_measured};
ghost use Rattle.sema.specs.Marks.{mark_measured, apply, lookup_measured};
ghost use Rattle.sema.specs.Operands.{is_some, unless};
ghost use Rattle.sema.specs.Stmts.{measure_target, measure_says};
ghost use Rattle.context.specs.Values.{number_of, operand_of};
ghost use Rattle.context.specs.Given.{texts, scopes};
ghost use Rattle.operands.specs.Measured.{marks};
ghost use Rattle.context.specs.View.{PlaceOk, Placed, scopes_of, keys_of, marks_of, measure_span, span_at, context_of};
ghost use Rattle.sheet.specs.Sheet.{Covers};
ghost use Rattle.sheet.specs.Behind.{Blank};
ghost use Rattle.promises.specs.Emitted.{Emitted};
ghost use Rattle.promises.specs.Typings.{SaidOf};

use accepted::numbers::span_at;
use accepted::operands::operand_at;
use context::{After, GateOperand, Key, SemaContext, Sink};
use lines::{Expected, Message};
use operands::Measured;
use span::Span;

// Sets the marks of the measure statement at `at`.
pub fn mark_measured(
    keys: &[Key],
    scratch: &[u8],
    depth: usize,
    marks: &mut [u16; 256],
    qubit: GateOperand,
    at: usize,
)
    requires { (length keys.now ≤ 256) × (65536 ≤ length scratch.now) × (depth ≤ 9) × (qubit.name < 256) × (0 < at) × (at < 65536) × Covers (keys_of keys.now) (mark_measured (scopes_of scratch.now depth) (operand_of qubit)) }
    ensures placed { (tree : List ℕ) → PlaceOk tree at → Placed tree marks.old → Placed tree marks.new }
    ensures marks { (tree : List ℕ) → marks_of tree (keys_of keys.now) marks.new ≡ apply (mark_measured (scopes_of scratch.now depth) (operand_of qubit)) (measure_span tree at) (marks_of tree (keys_of keys.now) marks.old) }
    ensures behind { (n : ℕ) → length keys.now ≤ n → Blank n marks.old → Blank n marks.new }
{
    let name = qubit.name;
    let size = tables::size_of(scratch, depth, name);
    // at is a place of the tree, below 16,384: TryFrom would add an error that no place gives.
    sheet::set(marks, keys, qubit, size, at as u16);
}

// Was it measured before?
fn warn_measured(
    m: Measured<'_, '_>,
    out: &mut [u8],
    qubit: GateOperand,
    span: Span,
    sink: Sink,
) -> Sink
    requires { qubit.name < length (texts m.sema) }
    ensures { Emitted (texts m.entry.sema) (unless (not (is_some (lookup_measured (marks m.entry) qubit.name (number_of qubit.index)))) (warning (already_measured (operand_of qubit)) span)) sink out.old result out.new }
{
    if sheet::lookup(m.marks, m.keys, qubit.name, qubit.index).is_none() {
        return sink;
    }
    lines::report(
        out,
        sink,
        m.sema.texts,
        lines::warning(Message::AlreadyMeasured(qubit), span),
    )
}

// A target: a bit, or as many bits as there are qubits.
fn check_target(
    sema: SemaContext<'_>,
    out: &mut [u8],
    qubit: GateOperand,
    target: GateOperand,
    span: Span,
    sink: Sink,
) -> Sink
    requires { (qubit.name < length (texts sema)) × (target.name < length (texts sema)) }
    ensures { Emitted (texts sema.entry) (measure_target (scopes sema.entry) (operand_of qubit) span (some (operand_of target))) sink out.old result out.new }
{
    let s = operands::check_operand(sema, out, target, Expected::Bit, sink);
    operands::check_measure_widths(sema, out, qubit, target, span, s)
}

// The Option of a target at `at`. The statement's span stands behind it.
fn check_target_at(
    sema: SemaContext<'_>,
    out: &mut [u8],
    qubit: GateOperand,
    at: usize,
    sink: Sink,
) -> After
    requires { (qubit.name < length (texts sema)) × IsOk (option (operand (texts sema)) sema.texts.tree.now at) × (next_of (option (operand (texts sema)) sema.texts.tree.now at) + 8 ≤ length sema.texts.tree.now) }
    ensures { SaidOf (texts sema.entry) (measure_target (scopes sema.entry) (operand_of qubit) (span_at sema.entry.texts.tree.now result.next)) (option (operand (texts sema.entry)) sema.entry.texts.tree.now at) sink out.old result out.new }
{
    if sema.texts.tree[at] == 0 {
        return After { next: at + 1, sink };
    }
    let t = operand_at(sema.texts.tree, at + 1);
    let target = t.value;
    let next = t.next;
    let span = span_at(sema.texts.tree, next);
    let s = check_target(sema, out, qubit, target, span, sink);
    After { next, sink: s }
}

// What is said of a measurement of the qubit, with the Option of its target at `at`.
pub fn check_measure(
    m: Measured<'_, '_>,
    out: &mut [u8],
    qubit: GateOperand,
    at: usize,
    sink: Sink,
) -> After
    requires { (qubit.name < length (texts m.sema)) × IsOk (option (operand (texts m.sema)) m.sema.texts.tree.now at) × (next_of (option (operand (texts m.sema)) m.sema.texts.tree.now at) + 8 ≤ length m.sema.texts.tree.now) }
    ensures { SaidOf (texts m.entry.sema) (λ target. measure_says (context_of m.entry.sema.texts.tree.now (keys_of m.entry.keys.now) m.entry.sema.scratch.now m.entry.sema.depth m.entry.marks.now) (operand_of qubit) target (span_at m.entry.sema.texts.tree.now result.next)) (option (operand (texts m.entry.sema)) m.entry.sema.texts.tree.now at) sink out.old result out.new }
{
    let s = operands::check_operand(m.sema, out, qubit, Expected::Qubit, sink);
    let a = check_target_at(m.sema, out, qubit, at, s);
    let checked = a.sink;
    let span = span_at(m.sema.texts.tree, a.next);
    let said = warn_measured(m, out, qubit, span, checked);
    After {
        next: a.next,
        sink: said,
    }
}
