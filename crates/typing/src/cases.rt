// The cases of an expression, once its parts have their types.
ghost use Rattle.std.specs.Prelude.{◌≡◌, [], ◌∷◌, ◌+◌, ◌≤◌, ◌<◌, length};
ghost use Rattle.ast.specs.Tree.{Expr};
ghost use Rattle.sema.specs.Exprs.{untyped, ident_type, index_type, neg_type, check_expr};
ghost use Rattle.context.specs.Values.{kind_of, symbol_of, typed_of};
ghost use Rattle.context.specs.Given.{texts, scopes, functions};
ghost use Rattle.context.specs.View.{number_at, span_at};
ghost use Rattle.lines.specs.Values.{Below, name_in, diagnostic_of, error_of};
ghost use Rattle.typing.specs.Checks.{Found, has_type, comparable, operator_of, operation_type, pair_type, pair_message};

use crate::Operator;
use accepted::numbers::{span_at, u16_at, u64_at};
use ast::ClassicalType;
use context::{SemaContext, Sink, Symbol, SymbolKind, Typing};
use lines::{Message, error};
use span::Span;

pub fn has_type(ty: ClassicalType, next: usize, sink: Sink) -> Typing
    ensures { result ≡ has_type ty next sink }
{
    Typing {
        typed: Some(ty),
        next,
        sink,
    }
}

// No type, and an error said.
fn refuse(
    sema: SemaContext<'_>,
    out: &mut [u8],
    sink: Sink,
    message: Message,
    span: Span,
    next: usize,
) -> Typing
    requires { Below (length (texts sema)) (name_in message) }
    ensures { Found (texts sema.entry) (untyped (diagnostic_of (error_of message span) ∷ [])) next sink out.old result out.new }
{
    let sink = lines::report(out, sink, sema.texts, error(message, span));
    Typing {
        typed: None,
        next,
        sink,
    }
}

// A name, by its symbol's kind.
fn ident_type(
    sema: SemaContext<'_>,
    out: &mut [u8],
    x: usize,
    span: Span,
    kind: SymbolKind,
    next: usize,
    sink: Sink,
) -> Typing
    requires { x < length (texts sema) }
    ensures { Found (texts sema.entry) (ident_type x span (kind_of kind)) next sink out.old result out.new }
{
    match kind {
        SymbolKind::Classical(ty) | SymbolKind::Const(ty) => has_type(ty, next, sink),
        SymbolKind::Bit => has_type(ClassicalType::Int, next, sink),
        SymbolKind::GateParam => has_type(ClassicalType::Float, next, sink),
        SymbolKind::Qubit | SymbolKind::GateQubit => {
            refuse(sema, out, sink, Message::NotClassical(x), span, next)
        }
    }
}

pub fn check_ident(sema: SemaContext<'_>, out: &mut [u8], at: usize, sink: Sink) -> Typing
    requires { (at + 11 ≤ length sema.texts.tree.now) × (number_at 2 sema.texts.tree.now (at + 1) < length (texts sema)) }
    ensures { Found (texts sema.entry) (check_expr (scopes sema.entry) (functions sema.entry) (Expr.Ident (number_at 2 sema.entry.texts.tree.now (at + 1)) (span_at sema.entry.texts.tree.now (at + 3)))) (at + 11) sink out.old result out.new }
{
    let x = u16_at(sema.texts.tree, at + 1);
    let span = span_at(sema.texts.tree, at + 3);
    let next = at + 11;
    let Some(symbol) = tables::get(sema.scratch, sema.depth, x) else {
        return refuse(sema, out, sink, Message::NotDeclared(x), span, next);
    };
    ident_type(sema, out, x, span, symbol.kind, next, sink)
}

// A name with an index, by its symbol.
fn index_type(
    sema: SemaContext<'_>,
    out: &mut [u8],
    x: usize,
    i: u64,
    span: Span,
    symbol: Symbol,
    next: usize,
    sink: Sink,
) -> Typing
    requires { x < length (texts sema) }
    ensures { Found (texts sema.entry) (index_type x i span (symbol_of symbol) (kind_of symbol.kind)) next sink out.old result out.new }
{
    if !context::is_bit(symbol.kind) {
        return refuse(sema, out, sink, Message::NotIndexable(x), span, next);
    }
    let Some(n) = symbol.size else {
        return refuse(sema, out, sink, Message::CannotIndexBit(x), span, next);
    };
    if i < n {
        return has_type(ClassicalType::Int, next, sink);
    }
    refuse(
        sema,
        out,
        sink,
        Message::IndexOutOfBounds(i, x, n),
        span,
        next,
    )
}

pub fn check_index(sema: SemaContext<'_>, out: &mut [u8], at: usize, sink: Sink) -> Typing
    requires { (at + 19 ≤ length sema.texts.tree.now) × (number_at 2 sema.texts.tree.now (at + 1) < length (texts sema)) }
    ensures { Found (texts sema.entry) (check_expr (scopes sema.entry) (functions sema.entry) (Expr.Index (number_at 2 sema.entry.texts.tree.now (at + 1)) (number_at 8 sema.entry.texts.tree.now (at + 3)) (span_at sema.entry.texts.tree.now (at + 11)))) (at + 19) sink out.old result out.new }
{
    let x = u16_at(sema.texts.tree, at + 1);
    let i = u64_at(sema.texts.tree, at + 3);
    let span = span_at(sema.texts.tree, at + 11);
    let next = at + 19;
    let Some(symbol) = tables::get(sema.scratch, sema.depth, x) else {
        return refuse(sema, out, sink, Message::NotDeclared(x), span, next);
    };
    index_type(sema, out, x, i, span, symbol, next, sink)
}

// The type of an operand with a minus before it; the span stands behind the operand.
pub fn negation(sema: SemaContext<'_>, out: &mut [u8], t: Typing) -> Typing
    requires { t.next + 8 ≤ length sema.texts.tree.now }
    ensures { Found (texts sema.entry) (neg_type (span_at sema.entry.texts.tree.now t.next) (typed_of t.typed)) (t.next + 8) t.sink out.old result out.new }
{
    let next = t.next + 8;
    let Some(ty) = t.typed else {
        return Typing { next, ..t };
    };
    if types::is_numeric(ty) {
        return Typing { next, ..t };
    }
    let span = span_at(sema.texts.tree, t.next);
    refuse(sema, out, t.sink, Message::NegationNumeric, span, next)
}

fn comparable(a: ClassicalType, b: ClassicalType) -> bool
    ensures { result ≡ comparable a b }
{
    a == b || (types::is_numeric(a) && types::is_numeric(b))
}

// The operator with an accepted case byte.
pub fn operator(case: u8) -> Operator
    ensures { result ≡ operator_of case }
{
    // An accepted byte, total: TryFrom would add an error that no accepted byte gives.
    match case {
        8 => Operator::Arithmetic,
        _ => Operator::Comparison,
    }
}

// The type of an operation on two types: none where they do not go together.
fn pair_type(operator: Operator, a: ClassicalType, b: ClassicalType) -> Option<ClassicalType>
    ensures { result ≡ pair_type operator a b }
{
    match operator {
        Operator::Arithmetic => types::arithmetic_type(a, b),
        Operator::Comparison => comparable(a, b).then_some(ClassicalType::Bool),
    }
}

fn pair_message(operator: Operator) -> Message
    ensures { result ≡ pair_message operator }
{
    match operator {
        Operator::Arithmetic => Message::ArithmeticNumeric,
        Operator::Comparison => Message::ComparisonTypes,
    }
}

// The type of two operands with an operator or a comparison between them; the span stands behind them.
pub fn operation(
    sema: SemaContext<'_>,
    out: &mut [u8],
    operator: Operator,
    l: Option<ClassicalType>,
    t: Typing,
) -> Typing
    requires { t.next + 8 ≤ length sema.texts.tree.now }
    ensures { Found (texts sema.entry) (operation_type operator (span_at sema.entry.texts.tree.now t.next) (typed_of l) (typed_of t.typed)) (t.next + 8) t.sink out.old result out.new }
{
    let next = t.next + 8;
    let (Some(a), Some(b)) = (l, t.typed) else {
        return Typing {
            typed: None,
            next,
            ..t
        };
    };
    let Some(ty) = pair_type(operator, a, b) else {
        let span = span_at(sema.texts.tree, t.next);
        return refuse(sema, out, t.sink, pair_message(operator), span, next);
    };
    has_type(ty, next, t.sink)
}
