// What is said of declarations and assignments whose parts have been looked up.
ghost use Rattle.std.specs.Prelude.{[], ◌∷◌, ◌&&◌, ◌||◌, ◌-◌, ◌≤◌, ◌<◌, length};
ghost use Rattle.tree.specs.Decode.{texts_of};
ghost use Rattle.types.specs.Types.{assignable_to, numeric};
ghost use Rattle.sema.specs.Messages.{error, compound_numeric};
ghost use Rattle.sema.specs.Operands.{unless};
ghost use Rattle.sema.specs.Stmts.{is_assign, assign_says, target_says};
ghost use Rattle.context.specs.Values.{kind_of, typed_of, found_of};
ghost use Rattle.context.specs.View.{span_at};
ghost use Rattle.lines.specs.Values.{error_of, error_with_note_of, diagnostic_of, name_in, name_in_note, Below};
ghost use Rattle.promises.specs.Emitted.{Emitted};
ghost use Rattle.scopes.specs.Scopes.{qualified_of};
ghost use Rattle.declarations.specs.Says.{declared_says, qualifier_says, spanned};
ghost use Rattle.declarations.specs.Checked.{Valued};

use crate::parts::Assignment;
use accepted::numbers::span_at;
use ast::{AssignOp, ClassicalQualifier, ClassicalType};
use context::{Sink, Symbol, SymbolKind, Texts};
use lines::{Message, Note, error, error_with_note};
use span::Span;

// An error, and an error with a note.
pub fn report_error(
    texts: Texts<'_>,
    out: &mut [u8],
    message: Message,
    span: Span,
    sink: Sink,
) -> Sink
    requires { Below (length (texts_of texts.tree.now)) (name_in message) }
    ensures { Emitted (texts_of texts.entry.tree.now) (diagnostic_of (error_of message span) ∷ []) sink out.old result out.new }
{
    lines::report(out, sink, texts, error(message, span))
}

pub fn report_with_note(
    texts: Texts<'_>,
    out: &mut [u8],
    message: Message,
    span: Span,
    note: Note,
    at: Span,
    sink: Sink,
) -> Sink
    requires { Below (length (texts_of texts.tree.now)) (name_in message) × Below (length (texts_of texts.tree.now)) (name_in_note note) }
    ensures { Emitted (texts_of texts.entry.tree.now) (diagnostic_of (error_with_note_of message span note at) ∷ []) sink out.old result out.new }
{
    lines::report(out, sink, texts, error_with_note(message, span, note, at))
}

// The first declaration of a scope stays: `found` is what the scope had.
#[tactic(auto, using(crate::proofs::Sayings::silent), unfolding(crate::specs::Says::declared_says))]
pub fn report_declared(
    texts: Texts<'_>,
    out: &mut [u8],
    found: Option<Symbol>,
    x: usize,
    span: Span,
    sink: Sink,
) -> Sink
    requires { x < length (texts_of texts.tree.now) }
    ensures { Emitted (texts_of texts.entry.tree.now) (declared_says (found_of found) x span) sink out.old result out.new }
{
    let Some(prev) = found else {
        return sink;
    };
    report_with_note(
        texts,
        out,
        Message::AlreadyDeclared(x),
        span,
        Note::FirstDeclared(x),
        prev.decl_span,
        sink,
    )
}

// The message at the span of the expression that ends at `end`, where the expected type does not take the actual one.
#[tactic(auto, using(crate::proofs::Sayings::silent))]
pub fn check_type(
    texts: Texts<'_>,
    out: &mut [u8],
    expected: ClassicalType,
    actual: ClassicalType,
    message: Message,
    end: usize,
    sink: Sink,
) -> Sink
    requires { (8 ≤ end) × (end ≤ length texts.tree.now) × Below (length (texts_of texts.tree.now)) (name_in message) }
    ensures { Emitted (texts_of texts.entry.tree.now) (unless (assignable_to expected actual) (diagnostic_of (error_of message (span_at texts.entry.tree.now (end - 8))))) sink out.old result out.new }
{
    if types::assignable(expected, actual) {
        return sink;
    }
    let span = span_at(texts.tree, end - 8);
    report_error(texts, out, message, span, sink)
}

// A compound assignment takes numeric operands.
#[tactic(auto, using(crate::proofs::Sayings::silent))]
fn check_compound(
    texts: Texts<'_>,
    out: &mut [u8],
    op: AssignOp,
    expected: ClassicalType,
    actual: ClassicalType,
    span: Span,
    sink: Sink,
) -> Sink
    ensures { Emitted (texts_of texts.entry.tree.now) (unless (is_assign op || (numeric expected && numeric actual)) (error compound_numeric span)) sink out.old result out.new }
{
    if op == AssignOp::Assign || types::is_numeric(expected) && types::is_numeric(actual) {
        return sink;
    }
    report_error(texts, out, Message::CompoundNumeric, span, sink)
}

// The value of an assignment against the type of its target.
#[tactic(auto, using(crate::proofs::Sayings::silent), unfolding(sema::specs::Stmts::assign_says))]
fn check_assign(texts: Texts<'_>, out: &mut [u8], a: Assignment, expected: ClassicalType) -> Sink
    requires { Valued texts.tree.now a.name a.value }
    ensures { Emitted (texts_of texts.entry.tree.now) (assign_says a.name a.op (spanned (span_at texts.entry.tree.now (a.value.next - 8))) a.span expected (typed_of a.value.typed)) a.value.sink out.old result out.new }
{
    let Some(actual) = a.value.typed else {
        return a.value.sink;
    };
    let message = Message::CannotAssign(actual, expected, a.name);
    let s = check_type(
        texts,
        out,
        expected,
        actual,
        message,
        a.value.next,
        a.value.sink,
    );
    check_compound(texts, out, a.op, expected, actual, a.span, s)
}

// The target of an assignment is of this kind.
#[tactic(auto, unfolding(sema::specs::Stmts::target_says))]
pub fn check_kind(texts: Texts<'_>, out: &mut [u8], a: Assignment, kind: SymbolKind) -> Sink
    requires { Valued texts.tree.now a.name a.value }
    ensures { Emitted (texts_of texts.entry.tree.now) (target_says a.name a.op (spanned (span_at texts.entry.tree.now (a.value.next - 8))) a.span (typed_of a.value.typed) (kind_of kind)) a.value.sink out.old result out.new }
{
    let message = match kind {
        SymbolKind::Classical(expected) => return check_assign(texts, out, a, expected),
        SymbolKind::Const(_) => Message::AssignToConst(a.name),
        SymbolKind::Qubit | SymbolKind::Bit | SymbolKind::GateParam | SymbolKind::GateQubit =>
            Message::NotAssignable(a.name),
    };
    report_error(texts, out, message, a.span, a.value.sink)
}

// The const and input checks; `init` says whether there is an initializer.
#[tactic(auto, using(crate::proofs::Sayings::silent), unfolding(crate::specs::Says::qualifier_says))]
pub fn check_qualifier(
    texts: Texts<'_>,
    out: &mut [u8],
    q: Option<ClassicalQualifier>,
    init: bool,
    x: usize,
    span: Span,
    sink: Sink,
) -> Sink
    requires { x < length (texts_of texts.tree.now) }
    ensures { Emitted (texts_of texts.entry.tree.now) (qualifier_says (qualified_of q) init x span) sink out.old result out.new }
{
    let message = match (q, init) {
        (Some(ClassicalQualifier::Const), false) => Message::ConstWithoutInit(x),
        (Some(ClassicalQualifier::Input), true) => Message::InputWithInit(x),
        _ => return sink,
    };
    report_error(texts, out, message, span, sink)
}
