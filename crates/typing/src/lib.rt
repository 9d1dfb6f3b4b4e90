// Types of expressions over accepted bytes: check_expr, require_type, check_modifiers.
#![tactic(auto)]

mod calls;
mod cases;
mod demands;

ghost use Rattle.std.specs.Prelude.{◌≡◌, ℕ, List, [], ◌+◌, ◌≤◌, ◌<◌, length, get_or};
ghost use Rattle.std.specs.Borrow.{MutBor};
ghost use Rattle.context.specs.declared.Sink.{Sink};
ghost use Rattle.tree.specs.Ans.{IsOk, next_of, given};
ghost use Rattle.tree.specs.Read.{option, vec};
ghost use Rattle.tree.specs.Exprs.{expr, exprs};
ghost use Rattle.tree.specs.Stmts.{held, modifier};
ghost use Rattle.sema.specs.Exprs.{check_arguments, require_type, require_numeric, control_says, check_modifier, check_modifiers};
ghost use Rattle.sema.specs.Stmts.{params_say};
ghost use Rattle.context.specs.Given.{texts, scopes, functions};
ghost use Rattle.context.specs.View.{span_at};
ghost use Rattle.lines.specs.Values.{place_of, message_of, name_in, Below};
ghost use Rattle.tables.specs.Tables.{params_of};
ghost use Rattle.promises.specs.Emitted.{Emitted};
ghost use Rattle.promises.specs.Typings.{TypingOf, SaidOf, plain_context};
ghost use Rattle.typing.specs.Checks.{NamedBelow, require_says};
ghost use Rattle.typing.specs.Vecs.{CheckedTo};

use accepted::exprs::skip_exprs;
use accepted::numbers::{span_at, u16_at};
use ast::ClassicalType;
use context::{After, FunctionSig, SemaContext, Sink, Typing};
use lines::{Message, Place, error};

// The function of a call, and the listing after what is said of it.
#[derive(Clone, Copy)]
struct Callee {
    sig: Option<FunctionSig>,
    sink: Sink,
}

// What is asked of an expression's type: to fit a type at a place, to be numeric, or to fit the parameter of that number and function.
#[derive(Clone, Copy)]
enum Wanted {
    Assignable(ClassicalType, Place),
    Numeric(Message),
    Argument(ClassicalType, u64, usize),
}

// What stands between two operands: a binary operator or a comparison.
#[derive(Clone, Copy)]
enum Operator {
    Arithmetic,
    Comparison,
}

// The arguments of a call against the parameters of the function x.
#[cycle(check_arguments_check_call_check_expr)]
fn check_arguments(
    sema: &SemaContext<'_>,
    out: &mut [u8],
    at: usize,
    left: usize,
    x: usize,
    params: u8,
    sink: Sink,
) -> Sink
    requires { (x < length (texts sema.now)) × (params ≡ length (params_of (functions sema.now x))) × IsOk (exprs (expr (texts sema.now) left) sema.now.texts.tree.now at) }
    ensures { Emitted (texts sema.now) (given [] (λ es. check_arguments (scopes sema.now) (functions sema.now) es x 0 (params_of (functions sema.now x))) (exprs (expr (texts sema.now) left) sema.now.texts.tree.now at)) sink out.old result out.new }
{
    let mut k = at + 1;
    let mut s = sink;
    for i in 0..sema.texts.tree[at] {
        let t = check_expr_in(sema, out, k, left, s);
        s = calls::check_argument(*sema, out, x, params, i, t);
        k = t.next;
    }
    s
}

#[cycle(check_arguments_check_call_check_expr)]
fn check_call(sema: &SemaContext<'_>, out: &mut [u8], at: usize, left: usize, sink: Sink) -> Typing
    requires { IsOk (expr (texts sema.now) left sema.now.texts.tree.now at) × (get_or sema.now.texts.tree.now at 0 ≡ 5) }
    ensures { TypingOf (texts sema.now) (scopes sema.now) (functions sema.now) (expr (texts sema.now) left sema.now.texts.tree.now at) sink out.old result out.new }
{
    let x = u16_at(sema.texts.tree, at + 1);
    let end = skip_exprs(sema.texts.tree, at + 3, left - 1);
    let span = span_at(sema.texts.tree, end);
    let next = end + 8;
    let n = sema.texts.tree[at + 3];
    let f = calls::check_callee(*sema, out, x, n, span, sink);
    let params = f.sig.map_or(0, |sig| sig.param_count);
    let sink = check_arguments(sema, out, at + 3, left - 1, x, params, f.sink);
    let typed = f.sig.map(|sig| sig.return_type);
    Typing { typed, next, sink }
}

// `check_expr`, the context lent: by value it would be copied at each level.
#[cycle(check_arguments_check_call_check_expr)]
fn check_expr_in(
    sema: &SemaContext<'_>,
    out: &mut [u8],
    at: usize,
    left: usize,
    sink: Sink,
) -> Typing
    requires { IsOk (expr (texts sema.now) left sema.now.texts.tree.now at) }
    ensures { TypingOf (texts sema.now) (scopes sema.now) (functions sema.now) (expr (texts sema.now) left sema.now.texts.tree.now at) sink out.old result out.new }
{
    // By the case byte: an enum with a conversion would say each case twice.
    match sema.texts.tree[at] {
        0 => cases::has_type(ClassicalType::Int, at + 17, sink),
        1 => cases::has_type(ClassicalType::Float, at + 11, sink),
        2 => cases::has_type(ClassicalType::Bool, at + 10, sink),
        3 => cases::check_ident(*sema, out, at, sink),
        4 => cases::check_index(*sema, out, at, sink),
        5 => check_call(sema, out, at, left, sink),
        6 => cases::has_type(ClassicalType::Float, at + 10, sink),
        7 => {
            let t = check_expr_in(sema, out, at + 1, left - 1, sink);
            cases::negation(*sema, out, t)
        }
        _ => {
            let l = check_expr_in(sema, out, at + 2, left - 1, sink);
            let r = check_expr_in(sema, out, l.next, left - 1, l.sink);
            let operator = cases::operator(sema.texts.tree[at]);
            cases::operation(*sema, out, operator, l.typed, r)
        }
    }
}

// Validate an expression and return its inferred classical type.
pub fn check_expr(
    sema: SemaContext<'_>,
    out: &mut [u8],
    at: usize,
    left: usize,
    sink: Sink,
) -> Typing
    requires { IsOk (expr (texts sema) left sema.texts.tree.now at) }
    ensures { TypingOf (texts sema.entry) (scopes sema.entry) (functions sema.entry) (expr (texts sema.entry) left sema.entry.texts.tree.now at) sink out.old result out.new }
{
    check_expr_in(&sema, out, at, left, sink)
}

// An expression whose type must be as it is wanted.
fn require(sema: SemaContext<'_>, out: &mut [u8], at: usize, wanted: Wanted, sink: Sink) -> After
    requires { IsOk (held (texts sema) sema.texts.tree.now at) × NamedBelow (length (texts sema)) wanted }
    ensures { SaidOf (texts sema.entry) (require_says (scopes sema.entry) (functions sema.entry) wanted) (held (texts sema.entry) sema.entry.texts.tree.now at) sink out.old result out.new }
{
    let t = check_expr(sema, out, at, 32, sink);
    After {
        next: t.next,
        sink: demands::check_wanted(sema, out, wanted, t),
    }
}

// An expression that must have a type.
#[tactic(auto, unfolding(sema::specs::Exprs::require_type, crate::specs::Checks::unmet))]
pub fn require_type(
    sema: SemaContext<'_>,
    out: &mut [u8],
    at: usize,
    expected: ClassicalType,
    place: Place,
    sink: Sink,
) -> After
    requires { IsOk (held (texts sema) sema.texts.tree.now at) }
    ensures { SaidOf (texts sema.entry) (λ e. require_type (scopes sema.entry) (functions sema.entry) e expected (place_of place)) (held (texts sema.entry) sema.entry.texts.tree.now at) sink out.old result out.new }
{
    require(sema, out, at, Wanted::Assignable(expected, place), sink)
}

// An expression that must be numeric; the message stands at its span.
#[tactic(auto, unfolding(sema::specs::Exprs::require_numeric, crate::specs::Checks::unmet))]
pub fn require_numeric(
    sema: SemaContext<'_>,
    out: &mut [u8],
    at: usize,
    message: Message,
    sink: Sink,
) -> After
    requires { IsOk (held (texts sema) sema.texts.tree.now at) × Below (length (texts sema)) (name_in message) }
    ensures { SaidOf (texts sema.entry) (λ e. require_numeric (scopes sema.entry) (functions sema.entry) e (message_of message)) (held (texts sema.entry) sema.entry.texts.tree.now at) sink out.old result out.new }
{
    require(sema, out, at, Wanted::Numeric(message), sink)
}

// The Option of a count that a control holds; the control's span stands behind it.
fn check_control(sema: SemaContext<'_>, out: &mut [u8], at: usize, sink: Sink) -> After
    requires { IsOk (option (held (texts sema)) sema.texts.tree.now at) × (next_of (option (held (texts sema)) sema.texts.tree.now at) + 8 ≤ length sema.texts.tree.now) }
    ensures { SaidOf (texts sema.entry) (λ arg. control_says (scopes sema.entry) (functions sema.entry) arg (span_at sema.entry.texts.tree.now (next_of (option (held (texts sema.entry)) sema.entry.texts.tree.now at)))) (option (held (texts sema.entry)) sema.entry.texts.tree.now at) sink out.old result out.new }
{
    if sema.texts.tree[at] == 0 {
        return After { next: at + 1, sink };
    }
    let a = require_type(
        sema,
        out,
        at + 1,
        ClassicalType::Int,
        Place::ControlArgument,
        sink,
    );
    let e = constants::eval_const_int(sema.texts.tree, at + 1, 32);
    if constants::is_count(e.value) {
        return a;
    }
    let span = span_at(sema.texts.tree, a.next);
    let sink = lines::report(out, a.sink, sema.texts, error(Message::ControlCount, span));
    After { sink, ..a }
}

fn check_modifier(sema: SemaContext<'_>, out: &mut [u8], at: usize, sink: Sink) -> After
    requires { IsOk (modifier (texts sema) sema.texts.tree.now at) }
    ensures { SaidOf (texts sema.entry) (check_modifier (scopes sema.entry) (functions sema.entry)) (modifier (texts sema.entry) sema.entry.texts.tree.now at) sink out.old result out.new }
{
    // By the case byte: an enum with a conversion would say each case twice.
    match sema.texts.tree[at] {
        2 => After { next: at + 9, sink },
        3 => {
            let a = require_numeric(sema, out, at + 1, Message::PowerNumeric, sink);
            After {
                next: a.next + 8,
                ..a
            }
        }
        _ => {
            let a = check_control(sema, out, at + 1, sink);
            After {
                next: a.next + 8,
                ..a
            }
        }
    }
}

// A Vec whose values are checked one by one.
fn check_vec<F: Fn(&mut [u8], usize, Sink) -> After>(
    tree: &[u8],
    out: &mut [u8],
    at: usize,
    sink: Sink,
    check: F,
) -> After
    requires at_in_bounds { at < length tree.now }
    requires callable { (i k : ℕ) (s : Sink) (o : List ℕ) → i < get_or tree.now at 0 → CheckedTo (F.post check) i (at + 1) sink out.old k s o → (b : MutBor (List ℕ)) → b.now ≡ o → F.pre check b k s }
    ensures { CheckedTo (F.post check) (get_or tree.now at 0) (at + 1) sink out.old result.next result.sink out.new }
{
    let mut next = at + 1;
    let mut s = sink;
    for _ in 0..tree[at] {
        let a = check(out, next, s);
        next = a.next;
        s = a.sink;
    }
    After { next, sink: s }
}

// A Vec of modifiers.
pub fn check_modifiers(sema: SemaContext<'_>, out: &mut [u8], at: usize, sink: Sink) -> After
    requires { IsOk (vec (modifier (texts sema)) sema.texts.tree.now at) }
    ensures { SaidOf (texts sema.entry) (check_modifiers (scopes sema.entry) (functions sema.entry)) (vec (modifier (texts sema.entry)) sema.entry.texts.tree.now at) sink out.old result out.new }
{
    check_vec(
        sema.texts.tree,
        out,
        at,
        sink,
        |out, k, s| check_modifier(sema, out, k, s),
    )
}

// A Vec of gate parameters.
pub fn check_params(sema: SemaContext<'_>, out: &mut [u8], at: usize, sink: Sink) -> After
    requires { IsOk (exprs (held (texts sema)) sema.texts.tree.now at) }
    ensures { SaidOf (texts sema.entry) (params_say (plain_context (scopes sema.entry) (functions sema.entry))) (exprs (held (texts sema.entry)) sema.entry.texts.tree.now at) sink out.old result out.new }
{
    check_vec(sema.texts.tree, out, at, sink, |out, k, s| {
        require_numeric(sema, out, k, Message::ParamsNumeric, s)
    })
}
