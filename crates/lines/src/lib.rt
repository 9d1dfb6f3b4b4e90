// One diagnostic of the listing: its line, and its note's.
#![tactic(auto)]

mod messages;
pub mod pieces;
mod words;

ghost use Rattle.std.specs.Prelude.{◌≡◌, ℕ, List, ◌≤◌, ◌<◌, ◌+◌, ◌∷◌, [], length};
ghost use Rattle.text.specs.Text.{text};
ghost use Rattle.text.specs.Decimal.{decimal};
ghost use Rattle.tree.specs.Decode.{texts_of};
ghost use Rattle.context.specs.Sink.{written_of};
ghost use Rattle.listing.specs.Listing.{ended, spaced, letter, note_lines, diagnostic_line};
ghost use Rattle.lines.specs.Values.{severity_of, diagnostic_of, secondary_of, name_in, Below, NoteBelow, Fits, counted_of, error_of, error_with_note_of, warning_of, Reported};
ghost use Rattle.lines.specs.Stored.{Wrote, Said};
ghost use Rattle.lines.specs.Texts.{head_text};

use ast::ClassicalType;
use context::{GateOperand, Sink, SymbolKind, Texts};
use messages::{store_message, store_note};
use pieces::{copy, numbers, put};
use span::Span;

#[derive(Clone, Copy, Debug, PartialEq, Eq)]
pub enum Severity {
    Error,
    Warning,
}

// What an operand is expected to be.
#[derive(Clone, Copy, Debug, PartialEq, Eq)]
pub enum Expected {
    Qubit,
    Bit,
}

// Where a type is required.
#[derive(Clone, Copy, Debug, PartialEq, Eq)]
pub enum Place {
    IfCondition,
    WhileCondition,
    RangeBound,
    RangeStep,
    ControlArgument,
}

// The messages of the analysis, their fields in the order of the wording's definition.
#[derive(Clone, Copy)]
pub enum Message {
    AlreadyDeclared(usize),
    NotDeclared(usize),
    ExpectedKind(Expected, usize, SymbolKind),
    CannotIndexGateQubit(usize),
    IndexOutOfBounds(u64, usize, u64),
    CannotIndex(usize),
    SliceOutOfBounds(u64, u64, usize, u64),
    CannotSlice(usize),
    UsedIndex(usize, u64),
    Used(GateOperand),
    ConstWithoutInit(usize),
    InputWithInit(usize),
    CannotInitialize(ClassicalType, usize, ClassicalType),
    CannotAssign(ClassicalType, ClassicalType, usize),
    CompoundNumeric,
    AssignToConst(usize),
    NotAssignable(usize),
    GateParams(usize, u64, u64),
    // The expected number is the sum of a control total and a number of qubits.
    GateQubits(usize, u64, u64, u64),
    GateNotDefined(usize),
    ParamsNumeric,
    Broadcasting,
    GateAlreadyDefined(usize),
    FunctionAlreadyDefined(usize),
    FunctionReturns(usize, ClassicalType, ClassicalType),
    MeasurementWidths(u64, u64),
    AlreadyMeasured(GateOperand),
    DelayNumeric,
    ForVariable,
    ControlCount,
    PowerNumeric,
    MustHaveType(Place, ClassicalType, ClassicalType),
    NotClassical(usize),
    CannotIndexBit(usize),
    NotIndexable(usize),
    FunctionNotDefined(usize),
    FunctionArguments(usize, u64, u64),
    ArgumentType(u64, usize, ClassicalType, ClassicalType),
    NegationNumeric,
    ArithmeticNumeric,
    ComparisonTypes,
}

#[derive(Clone, Copy)]
pub enum Note {
    FirstDeclared(usize),
    DeclaredAs(usize, SymbolKind),
    DeclaredWithSize(usize, u64),
    DeclaredWithoutSize(usize),
    MeasuredHere,
    DefinedHere(usize),
    FirstDefined,
    TargetDeclared,
    FunctionDefined,
}

#[derive(Clone, Copy)]
pub struct Diagnostic {
    pub severity: Severity,
    pub message: Message,
    pub span: Span,
    pub secondary: Option<(Note, Span)>,
}

pub fn error(message: Message, span: Span) -> Diagnostic
    ensures { result ≡ error_of message span }
{
    Diagnostic {
        severity: Severity::Error,
        message,
        span,
        secondary: None,
    }
}

pub fn error_with_note(message: Message, span: Span, note: Note, at: Span) -> Diagnostic
    ensures { result ≡ error_with_note_of message span note at }
{
    Diagnostic {
        secondary: Some((note, at)),
        ..error(message, span)
    }
}

pub fn warning(message: Message, span: Span) -> Diagnostic
    ensures { result ≡ warning_of message span }
{
    Diagnostic {
        severity: Severity::Warning,
        ..error(message, span)
    }
}

#[tactic(auto, unfolding(listing::specs::Listing::letter))]
fn letter(severity: Severity) -> u8
    ensures { result ∷ [] ≡ letter (severity_of severity) }
{
    match severity {
        Severity::Error => b'E',
        Severity::Warning => b'W',
    }
}

// The head of a line: its letter and its span.
fn head(out: &mut [u8], n: usize, letter: u8, span: Span) -> usize
    requires { n < 1073741824 }
    ensures { Said out.old n out.new result (head_text (letter ∷ (32 ∷ [])) span) 96 }
{
    let a = put(out, n, letter);
    let b = put(out, a, b' ');
    numbers(out, b, u64::from(span.start), u64::from(span.end), b' ')
}

// The message's line.
fn message_line(texts: &Texts, out: &mut [u8], n: usize, d: Diagnostic) -> usize
    requires { (n < 1048576) × Below (length (texts_of texts.now.tree.now)) (name_in d.message) }
    ensures { Said out.old n out.new result (ended (diagnostic_line (texts_of texts.now.tree.now) (diagnostic_of d) ∷ [])) 512 }
{
    let a = head(out, n, letter(d.severity), d.span);
    let b = store_message(texts, out, a, d.message);
    put(out, b, b'\n')
}

// The note's line, where there is a note.
fn note_line(texts: &Texts, out: &mut [u8], n: usize, secondary: Option<(Note, Span)>) -> usize
    requires { (n < 1048576) × NoteBelow (length (texts_of texts.now.tree.now)) secondary }
    ensures { Said out.old n out.new result (ended (note_lines (texts_of texts.now.tree.now) (secondary_of secondary))) 512 }
{
    let Some((note, span)) = secondary else {
        return n;
    };
    let a = head(out, n, b'N', span);
    let b = store_note(texts, out, a, note);
    put(out, b, b'\n')
}

// One diagnostic more, and the listing's length.
fn counted(sink: Sink, severity: Severity, n: usize) -> Sink
    requires { (sink.errors + sink.warnings ≤ 256) × (n ≤ sink.n + 1024) }
    ensures { (o : List ℕ) → written_of result o ≡ counted_of sink severity n o }
{
    // n is at most 1,048,576: TryFrom would add an error that no n gives.
    let n = n as u32;
    let (errors, warnings) = match severity {
        Severity::Error => (sink.errors + 1, sink.warnings),
        Severity::Warning => (sink.errors, sink.warnings + 1),
    };
    Sink {
        n,
        errors,
        warnings,
    }
}

// Writes a diagnostic behind what is written; one past the limit adds nothing. The walk over an accepted tree meets what is required.
// The sink is state, so it goes by value beside the listing, which is lent.
pub fn report(out: &mut [u8], sink: Sink, texts: Texts<'_>, d: Diagnostic) -> Sink
    requires { Fits (length (texts_of texts.tree.now)) d }
    ensures { Reported (texts_of texts.entry.tree.now) d sink out.old result out.new }
{
    if 256 < sink.errors + sink.warnings {
        return sink;
    }
    // std has no From<u32> for usize.
    let a = message_line(&texts, out, sink.n as usize, d);
    let b = note_line(&texts, out, a, d.secondary);
    counted(sink, d.severity, b)
}

// The listing's first line, from place 0 on. The answer is its length.
pub fn first_line(out: &mut [u8], errors: u16, warnings: u16) -> usize
    ensures { Wrote out.old 0 out.new result (ended (spaced (text "list") (decimal errors ∷ decimal warnings ∷ []) ∷ [])) }
{
    let a = copy(out, 0, b"list ");
    numbers(out, a, u64::from(errors), u64::from(warnings), b'\n')
}
