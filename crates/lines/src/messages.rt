// What each message and note says.
ghost use Rattle.std.specs.Prelude.{◌≤◌, ◌<◌, ◌++◌, length};
ghost use Rattle.tree.specs.Decode.{texts_of};
ghost use Rattle.sema.specs.Messages.{name_at, operand_text, message_text, note_text};
ghost use Rattle.context.specs.Values.{operand_of};
ghost use Rattle.lines.specs.Stored.{Said};
ghost use Rattle.lines.specs.Values.{message_of, note_of, name_in, name_in_note, Below};

use super::pieces::Value::{ExpectedName, KindName, Name, Number, Sum, TypeName};
use super::pieces::{copy, decimal, name_of, put, say};
use super::words::place_name;
use super::{Message, Note};
use context::{GateOperand, Texts};

// A name between two pieces.
fn named(texts: &Texts, out: &mut [u8], n: usize, before: &[u8], x: usize, after: &[u8]) -> usize
    requires { (n < 1073741824) × (x < length (texts_of texts.now.tree.now)) × (length before.now ≤ 32) × (length after.now ≤ 128) }
    ensures { Said out.old n out.new result (before.now ++ (name_at (texts_of texts.now.tree.now) x ++ after.now)) 256 }
{
    let places = texts.places;
    let a = copy(out, n, before);
    let b = copy(out, a, name_of(texts.tree, places, x));
    copy(out, b, after)
}

// An operand is shown by its index, else by its slice.
fn operand(texts: &Texts, out: &mut [u8], n: usize, op: GateOperand) -> usize
    requires { (n < 2147483648) × (op.name < length (texts_of texts.now.tree.now)) }
    ensures { Said out.old n out.new result (operand_text (texts_of texts.now.tree.now) (operand_of op)) 160 }
{
    let places = texts.places;
    let a = copy(out, n, name_of(texts.tree, places, op.name));
    match (op.index, op.slice) {
        (Some(i), _) => {
            let b = put(out, a, b'[');
            let c = decimal(out, b, i);
            put(out, c, b']')
        }
        (None, Some((x, y))) => {
            let b = put(out, a, b'[');
            let c = decimal(out, b, x);
            let d = put(out, c, b':');
            let e = decimal(out, d, y);
            put(out, e, b']')
        }
        (None, None) => a,
    }
}

// An operand between two pieces.
fn around(
    texts: &Texts,
    out: &mut [u8],
    n: usize,
    before: &[u8],
    op: GateOperand,
    after: &[u8],
) -> usize
    requires { (n < 1073741824) × (op.name < length (texts_of texts.now.tree.now)) × (length before.now ≤ 32) × (length after.now ≤ 128) }
    ensures { Said out.old n out.new result (before.now ++ (operand_text (texts_of texts.now.tree.now) (operand_of op) ++ after.now)) 384 }
{
    let a = copy(out, n, before);
    let b = operand(texts, out, a, op);
    copy(out, b, after)
}

// Stores what a message says.
#[tactic(auto, unfolding(sema::specs::Messages::message_parts))]
pub(crate) fn store_message(texts: &Texts, out: &mut [u8], n: usize, message: Message) -> usize
    requires { (n < 1073741824) × Below (length (texts_of texts.now.tree.now)) (name_in message) }
    ensures { Said out.old n out.new result (message_text (texts_of texts.now.tree.now) (message_of message)) 384 }
{
    match message {
        Message::AlreadyDeclared(x) => named(
            texts,
            out,
            n,
            b"`",
            x,
            b"` is already declared in this scope",
        ),
        Message::NotDeclared(x) => named(texts, out, n, b"`", x, b"` is not declared"),
        Message::ExpectedKind(e, x, k) => {
            let p = say(texts, out, n, b"expected ", ExpectedName(e));
            let q = say(texts, out, p, b", but `", Name(x));
            say(texts, out, q, b"` is a ", KindName(k))
        }
        Message::CannotIndexGateQubit(x) => named(
            texts,
            out,
            n,
            b"cannot index gate qubit `",
            x,
            b"` \xe2\x80\x94 gate qubits are single wires",
        ),
        Message::IndexOutOfBounds(i, x, size) => {
            let p = say(texts, out, n, b"index ", Number(i));
            let q = say(texts, out, p, b" is out of bounds for `", Name(x));
            let r = say(texts, out, q, b"` (size ", Number(size));
            copy(out, r, b")")
        }
        Message::CannotIndex(x) => named(
            texts,
            out,
            n,
            b"cannot index `",
            x,
            b"` \xe2\x80\x94 it is a single qubit/bit, not a register",
        ),
        Message::SliceOutOfBounds(a, b, x, size) => {
            let p = say(texts, out, n, b"slice ", Number(a));
            let q = say(texts, out, p, b":", Number(b));
            let r = say(texts, out, q, b" is out of bounds for `", Name(x));
            let s = say(texts, out, r, b"` (size ", Number(size));
            copy(out, s, b")")
        }
        Message::CannotSlice(x) => named(texts, out, n, b"cannot slice scalar `", x, b"`"),
        Message::UsedIndex(x, i) => {
            let p = say(texts, out, n, b"use of qubit `", Name(x));
            let q = say(texts, out, p, b"[", Number(i));
            copy(out, q, b"]` after measurement")
        }
        Message::Used(op) => around(
            texts,
            out,
            n,
            b"use of qubit `",
            op,
            b"` after measurement \xe2\x80\x94 qubit state has collapsed and cannot be used in a gate without an explicit `reset`",
        ),
        Message::ConstWithoutInit(x) => named(
            texts,
            out,
            n,
            b"const `",
            x,
            b"` requires an initializer",
        ),
        Message::InputWithInit(x) => named(
            texts,
            out,
            n,
            b"input `",
            x,
            b"` cannot have an initializer",
        ),
        Message::CannotInitialize(ty, x, a) => {
            let p = say(texts, out, n, b"cannot initialize ", TypeName(ty));
            let q = say(texts, out, p, b" `", Name(x));
            let r = say(texts, out, q, b"` with ", TypeName(a));
            copy(out, r, b" expression")
        }
        Message::CannotAssign(a, e, x) => {
            let p = say(texts, out, n, b"cannot assign ", TypeName(a));
            let q = say(texts, out, p, b" expression to ", TypeName(e));
            let r = say(texts, out, q, b" `", Name(x));
            copy(out, r, b"`")
        }
        Message::CompoundNumeric => copy(out, n, b"compound assignment requires numeric operands"),
        Message::AssignToConst(x) => named(texts, out, n, b"cannot assign to const `", x, b"`"),
        Message::NotAssignable(x) => named(
            texts,
            out,
            n,
            b"`",
            x,
            b"` is not an assignable classical variable",
        ),
        Message::GateParams(x, expected, got) => {
            let p = say(texts, out, n, b"gate `", Name(x));
            let q = say(texts, out, p, b"` expects ", Number(expected));
            say(texts, out, q, b" parameter(s), got ", Number(got))
        }
        Message::GateQubits(x, total, qubits, got) => {
            let p = say(texts, out, n, b"gate `", Name(x));
            let q = say(texts, out, p, b"` expects ", Sum(total, qubits));
            say(
                texts,
                out,
                q,
                b" qubit(s) after modifiers, got ",
                Number(got),
            )
        }
        Message::GateNotDefined(x) => named(texts, out, n, b"gate `", x, b"` is not defined"),
        Message::ParamsNumeric => copy(out, n, b"gate parameters must be numeric"),
        Message::Broadcasting => copy(
            out,
            n,
            b"gate register operands must have the same length for broadcasting",
        ),
        Message::GateAlreadyDefined(x) => named(
            texts,
            out,
            n,
            b"gate `",
            x,
            b"` is already defined",
        ),
        Message::FunctionAlreadyDefined(x) => named(
            texts,
            out,
            n,
            b"function `",
            x,
            b"` is already defined",
        ),
        Message::FunctionReturns(x, r, a) => {
            let p = say(texts, out, n, b"function `", Name(x));
            let q = say(texts, out, p, b"` returns ", TypeName(r));
            say(texts, out, q, b", but its body has type ", TypeName(a))
        }
        Message::MeasurementWidths(a, b) => {
            let p = say(texts, out, n, b"measurement source has ", Number(a));
            let q = say(texts, out, p, b" qubit(s), but target has ", Number(b));
            copy(out, q, b" bit(s)")
        }
        Message::AlreadyMeasured(op) => around(
            texts,
            out,
            n,
            b"qubit `",
            op,
            b"` has already been measured",
        ),
        Message::DelayNumeric => copy(out, n, b"delay duration must be numeric"),
        Message::ForVariable => copy(out, n, b"for-loop variable must have type int"),
        Message::ControlCount => copy(
            out,
            n,
            b"control count must be a positive compile-time integer",
        ),
        Message::PowerNumeric => copy(out, n, b"power modifier argument must be numeric"),
        Message::MustHaveType(place, e, a) => {
            let p = copy(out, n, place_name(place));
            let q = say(texts, out, p, b" must have type ", TypeName(e));
            say(texts, out, q, b", found ", TypeName(a))
        }
        Message::NotClassical(x) => named(
            texts,
            out,
            n,
            b"`",
            x,
            b"` cannot be used as a classical expression",
        ),
        Message::CannotIndexBit(x) => named(texts, out, n, b"cannot index scalar bit `", x, b"`"),
        Message::NotIndexable(x) => named(
            texts,
            out,
            n,
            b"`",
            x,
            b"` is not an indexable classical register",
        ),
        Message::FunctionNotDefined(x) => named(
            texts,
            out,
            n,
            b"function `",
            x,
            b"` is not defined",
        ),
        Message::FunctionArguments(x, expected, got) => {
            let p = say(texts, out, n, b"function `", Name(x));
            let q = say(texts, out, p, b"` expects ", Number(expected));
            say(texts, out, q, b" argument(s), got ", Number(got))
        }
        Message::ArgumentType(i, x, e, a) => {
            let p = say(texts, out, n, b"argument ", Number(i));
            let q = say(texts, out, p, b" to `", Name(x));
            let r = say(texts, out, q, b"` must be ", TypeName(e));
            say(texts, out, r, b", found ", TypeName(a))
        }
        Message::NegationNumeric => copy(out, n, b"unary negation requires a numeric operand"),
        Message::ArithmeticNumeric => copy(
            out,
            n,
            b"arithmetic operators require numeric operands",
        ),
        Message::ComparisonTypes => copy(out, n, b"comparison operands have incompatible types"),
    }
}

// Stores what a note says.
#[tactic(auto, unfolding(sema::specs::Messages::note_parts))]
pub(crate) fn store_note(texts: &Texts, out: &mut [u8], n: usize, note: Note) -> usize
    requires { (n < 1073741824) × Below (length (texts_of texts.now.tree.now)) (name_in_note note) }
    ensures { Said out.old n out.new result (note_text (texts_of texts.now.tree.now) (note_of note)) 384 }
{
    match note {
        Note::FirstDeclared(x) => named(texts, out, n, b"`", x, b"` first declared here"),
        Note::DeclaredAs(x, k) => {
            let p = say(texts, out, n, b"`", Name(x));
            let q = say(texts, out, p, b"` declared as ", KindName(k));
            copy(out, q, b" here")
        }
        Note::DeclaredWithSize(x, size) => {
            let p = say(texts, out, n, b"`", Name(x));
            let q = say(texts, out, p, b"` declared with size ", Number(size));
            copy(out, q, b" here")
        }
        Note::DeclaredWithoutSize(x) => named(
            texts,
            out,
            n,
            b"`",
            x,
            b"` declared without a size here",
        ),
        Note::MeasuredHere => copy(out, n, b"qubit was measured here"),
        Note::DefinedHere(x) => named(texts, out, n, b"`", x, b"` defined here"),
        Note::FirstDefined => copy(out, n, b"first defined here"),
        Note::TargetDeclared => copy(out, n, b"measurement target declared here"),
        Note::FunctionDefined => copy(out, n, b"function defined here"),
    }
}
