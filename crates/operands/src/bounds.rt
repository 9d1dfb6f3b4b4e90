// What is said of an operand whose name is declared: its kind, its index, its slice.
ghost use Rattle.std.specs.Prelude.{◌≡◌, ◌<◌, length, ℕ, Bool};
ghost use Rattle.sema.specs.Operands.{index_says, slice_says, bounds_say};
ghost use Rattle.context.specs.Values.{number_of, ends_of, operand_of, symbol_of};
ghost use Rattle.context.specs.Given.{texts};
ghost use Rattle.lines.specs.Values.{expected_of, error_with_note_of, Fits, Reported};
ghost use Rattle.promises.specs.Emitted.{Emitted};
ghost use Rattle.operands.specs.Says.{fault_of, kind_says, index_fault_says, slice_fault_says, nothing};

use crate::kinds::{fits, indexes_wire};
use context::{GateOperand, SemaContext, Sink, Symbol};
use lines::{Expected, Message, Note, error, error_with_note};

// An operand, and the symbol that declares its name.
#[derive(Clone, Copy)]
pub struct Declared {
    pub op: GateOperand,
    pub symbol: Symbol,
}

// What is wrong with an index, or with both ends of a slice: the symbol has no size, or they are not below it.
#[derive(Clone, Copy)]
enum Fault<T> {
    WithoutSize,
    OutOfBounds(T, u64),
}

// The fault of a place that an operand has, if it has one.
#[tactic(auto, unfolding(crate::specs::Says::fault_of))]
fn find_fault<T: Copy, F: Fn(T, u64) -> bool>(
    place: Option<T>,
    size: Option<u64>,
    is_within: F,
) -> Option<Fault<T>>
    requires { F.IsAlwaysCallable is_within }
    ensures { (t : T → ℕ → Bool) → ((p : T) (n : ℕ) (r : Bool) → F.post is_within p n r → r ≡ t p n) → result ≡ fault_of t place size }
{
    let p = place?;
    let Some(n) = size else {
        return Some(Fault::WithoutSize);
    };
    if is_within(p, n) {
        None
    } else {
        Some(Fault::OutOfBounds(p, n))
    }
}

impl Declared {
    // An error of the operand, with a note where its symbol is declared.
    fn report(
        self,
        sema: SemaContext<'_>,
        out: &mut [u8],
        message: Message,
        note: Note,
        sink: Sink,
    ) -> Sink
        requires { Fits (length (texts sema)) (error_with_note_of message self.op.span note self.symbol.decl_span) }
        ensures { Reported (texts sema.entry) (error_with_note_of message self.op.span note self.symbol.decl_span) sink out.old result out.new }
    {
        let d = error_with_note(message, self.op.span, note, self.symbol.decl_span);
        lines::report(out, sink, sema.texts, d)
    }

    #[tactic(auto, using(crate::proofs::Checks::kind_fits))]
    pub fn check_kind(
        self,
        sema: SemaContext<'_>,
        out: &mut [u8],
        expected: Expected,
        sink: Sink,
    ) -> Sink
        requires { self.op.name < length (texts sema) }
        ensures { Emitted (texts sema.entry) (kind_says (operand_of self.op) (symbol_of self.symbol) (expected_of expected)) sink out.old result out.new }
    {
        let kind = self.symbol.kind;
        if fits(expected, kind) {
            return sink;
        }
        let x = self.op.name;
        self.report(
            sema,
            out,
            Message::ExpectedKind(expected, x, kind),
            Note::DeclaredAs(x, kind),
            sink,
        )
    }

    fn index_fault(self) -> Option<Fault<u64>>
        ensures { index_fault_says (operand_of self.op) (symbol_of self.symbol) result ≡ index_says (operand_of self.op) (symbol_of self.symbol) (number_of self.op.index) (number_of self.symbol.size) }
    {
        find_fault(self.op.index, self.symbol.size, |i, n| i < n)
    }

    fn slice_fault(self) -> Option<Fault<(u64, u64)>>
        ensures { slice_fault_says (operand_of self.op) (symbol_of self.symbol) result ≡ slice_says (operand_of self.op) (symbol_of self.symbol) (ends_of self.op.slice) (number_of self.symbol.size) }
    {
        find_fault(self.op.slice, self.symbol.size, |(a, b), n| a <= b && b < n)
    }

    fn check_index(self, sema: SemaContext<'_>, out: &mut [u8], sink: Sink) -> Sink
        requires { self.op.name < length (texts sema) }
        ensures { Emitted (texts sema.entry) (index_says (operand_of self.op) (symbol_of self.symbol) (number_of self.op.index) (number_of self.symbol.size)) sink out.old result out.new }
    {
        let x = self.op.name;
        match self.index_fault() {
            None => sink,
            Some(Fault::WithoutSize) => self.report(
                sema,
                out,
                Message::CannotIndex(x),
                Note::DeclaredWithoutSize(x),
                sink,
            ),
            Some(Fault::OutOfBounds(i, n)) => self.report(
                sema,
                out,
                Message::IndexOutOfBounds(i, x, n),
                Note::DeclaredWithSize(x, n),
                sink,
            ),
        }
    }

    fn check_slice(self, sema: SemaContext<'_>, out: &mut [u8], sink: Sink) -> Sink
        requires { self.op.name < length (texts sema) }
        ensures { Emitted (texts sema.entry) (slice_says (operand_of self.op) (symbol_of self.symbol) (ends_of self.op.slice) (number_of self.symbol.size)) sink out.old result out.new }
    {
        let x = self.op.name;
        match self.slice_fault() {
            None => sink,
            Some(Fault::WithoutSize) => {
                let d = error(Message::CannotSlice(x), self.op.span);
                lines::report(out, sink, sema.texts, d)
            }
            Some(Fault::OutOfBounds((a, b), n)) => self.report(
                sema,
                out,
                Message::SliceOutOfBounds(a, b, x, n),
                Note::DeclaredWithSize(x, n),
                sink,
            ),
        }
    }

    // Has check_bounds nothing to say?
    pub fn keeps_bounds(self) -> bool
        ensures { result ≡ nothing (bounds_say (operand_of self.op) (symbol_of self.symbol)) }
    {
        !indexes_wire(self.op, self.symbol.kind)
            && self.index_fault().is_none()
            && self.slice_fault().is_none()
    }

    // A gate qubit must not be indexed; else the bounds of index and slice.
    pub fn check_bounds(self, sema: SemaContext<'_>, out: &mut [u8], sink: Sink) -> Sink
        requires { self.op.name < length (texts sema) }
        ensures { Emitted (texts sema.entry) (bounds_say (operand_of self.op) (symbol_of self.symbol)) sink out.old result out.new }
    {
        if indexes_wire(self.op, self.symbol.kind) {
            let d = error(Message::CannotIndexGateQubit(self.op.name), self.op.span);
            return lines::report(out, sink, sema.texts, d);
        }
        let s = self.check_index(sema, out, sink);
        self.check_slice(sema, out, s)
    }
}
