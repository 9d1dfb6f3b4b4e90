// The values that the walk over a tree passes around, as the code holds them.
#![tactic(auto)]

mod sema_context;
mod stmt_at;
mod texts;

ghost use Rattle.std.specs.Prelude.{◌≡◌, suc, ◌+◌, ◌*◌, ◌≤◌};
ghost use Rattle.sema.specs.Limits.{diagnostic_limit};
ghost use Rattle.sema.specs.Messages.{a_bit};
ghost use Rattle.sema.specs.Operands.{fits};
ghost use Rattle.context.specs.Values.{kind_of};

use ast::ClassicalType;
pub use sema_context::SemaContext;
use span::Span;
pub use stmt_at::StmtAt;
pub use texts::Texts;

// The places of the texts of a tree.
pub type Places = [usize; 256];

// What a mark is kept for: a name, or a name with an index.
#[derive(Clone, Copy, PartialEq)]
pub struct Key {
    pub name: usize,
    pub index: Option<u64>,
}

// The keys that a walk has met, and others behind them. How many there are is state, and goes by value beside them.
pub type Index = [Key; 256];

// A value that was read, and the place past it.
#[derive(Clone, Copy)]
pub struct Past<T> {
    pub value: T,
    pub next: usize,
}

#[derive(Clone, Copy)]
pub struct GateOperand {
    pub name: usize,
    pub index: Option<u64>,
    pub slice: Option<(u64, u64)>,
    pub span: Span,
}

#[derive(Clone, Copy, Debug, PartialEq, Eq)]
pub enum SymbolKind {
    Qubit,
    Bit,
    Classical(ClassicalType),
    Const(ClassicalType),
    GateParam,
    GateQubit,
}

// What goes for a bit, and what an expression takes an index of.
#[tactic(auto, unfolding(sema::specs::Operands::fits))]
pub fn is_bit(kind: SymbolKind) -> bool
    ensures { result ≡ fits a_bit (kind_of kind) }
{
    kind == SymbolKind::Bit
}

#[derive(Clone, Copy)]
pub struct Symbol {
    pub kind: SymbolKind,
    pub size: Option<u64>,
    pub decl_span: Span,
}

#[derive(Clone, Copy)]
pub struct GateSig {
    pub param_count: u8,
    pub qubit_count: u8,
    pub decl_span: Span,
}

// The types of the parameters are read one by one.
#[derive(Clone, Copy)]
pub struct FunctionSig {
    pub param_count: u8,
    pub return_type: ClassicalType,
    pub decl_span: Span,
}

// How far the listing is: its length, and the diagnostics in it. They are no more than one over the limit, and there are at
// most 1,024 bytes for each and for the first line. It is passed by value everywhere, so it is 8 bytes.
#[derive(Clone, Copy)]
pub struct Sink {
    pub n: u32,
    pub errors: u16,
    pub warnings: u16,
    pub ghost few: { errors + warnings ≤ suc diagnostic_limit },
    pub ghost short: { n ≤ 1024 * suc (errors + warnings) },
}

// What an expression is found to be, the place past it, and the listing after what is said of it.
#[derive(Clone, Copy)]
pub struct Typing {
    pub typed: Option<ClassicalType>,
    pub next: usize,
    pub sink: Sink,
}

// The place past what was checked, and the listing after what is said of it.
#[derive(Clone, Copy)]
pub struct After {
    pub next: usize,
    pub sink: Sink,
}

// The walk on its way: the place in the tree, the listing, how many keys there are, the marks.
#[derive(Clone, Copy)]
pub struct State {
    pub at: usize,
    pub sink: Sink,
    pub keys: usize,
    pub marks: [u16; 256],
}
