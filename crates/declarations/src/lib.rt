// Declarations, assignments and function definitions over accepted bytes: cases of the Rust's analyze_stmt.
#![tactic(auto)]

mod parts;
mod reports;

ghost use Rattle.std.specs.Prelude.{◌≡◌, ◌+◌, ◌-◌, ◌≤◌, ◌<◌, length, get_or};
ghost use Rattle.std.proofs.Math.Option.{none};
ghost use Rattle.tree.specs.Ans.{IsOk, next_of};
ghost use Rattle.tree.specs.Read.{option, vec};
ghost use Rattle.tree.specs.Stmts.{qualifier, held, param};
ghost use Rattle.tree.specs.Decode.{texts_of};
ghost use Rattle.sema.specs.Symbols.{get};
ghost use Rattle.sema.specs.Stmts.{init_says};
ghost use Rattle.accepted.specs.Parts.{value_or};
ghost use Rattle.context.specs.Given.{texts, scopes, functions};
ghost use Rattle.context.specs.Values.{typed_of};
ghost use Rattle.context.specs.View.{span_at, type_of, scopes_of, functions_of};
ghost use Rattle.tables.specs.Tables.{FewParams};
ghost use Rattle.promises.specs.Emitted.{Emitted};
ghost use Rattle.promises.specs.Walks.{Passable, StmtPassed};
ghost use Rattle.declarations.specs.Says.{classical_rest, spanned, target_by};
ghost use Rattle.declarations.specs.Checked.{Checkable, Valued, Declared, init_at, Defined, BodyChecked};

use accepted::numbers::{span_at, u16_at};
use accepted::parts::skip_qualifier;
use ast::ClassicalType;
use context::{After, FunctionSig, SemaContext, Sink, StmtAt, Texts};
use lines::{Message, Note};
use parts::{Assignment, Function, assign_op_at, function_at};
use reports::{
    check_kind, check_qualifier, check_type, report_declared, report_error, report_with_note,
};
use scopes::{Declaration, qualifier_at, type_at};

// Gives the name its symbol in the innermost scope; the first declaration stays.
fn declare(
    texts: Texts<'_>,
    scratch: &mut [u8],
    out: &mut [u8],
    depth: usize,
    d: Declaration,
    sink: Sink,
) -> Sink
    requires { Checkable scratch.old depth × (0 < depth) × (d.name < length (texts_of texts.tree.now)) }
    ensures { Declared (texts_of texts.entry.tree.now) depth d.name d.symbol sink scratch.old out.old result scratch.new out.new }
{
    let found = scopes::declare(scratch, depth, d.name, d.symbol);
    report_declared(texts, out, found, d.name, d.symbol.decl_span, sink)
}

// The declaration of a qubit or a bit.
fn register(here: StmtAt<'_>, scratch: &mut [u8], out: &mut [u8], sink: Sink) -> After
    requires { Passable here.texts.tree.now scratch.old × (0 < get_or here.texts.tree.now here.at 0) × (get_or here.texts.tree.now here.at 0 < 3) }
    ensures { StmtPassed here.entry.texts.tree.now here.entry.left here.entry.at sink scratch.old out.old result scratch.new out.new }
{
    let d = scopes::declaration_at(here.texts.tree, here.at, here.left);
    let s = declare(here.texts, scratch, out, 9 - here.left, d, sink);
    After {
        next: d.end,
        sink: s,
    }
}

// Each case of a statement has its function: a qubit's declaration and a bit's do the same.
pub fn qubit_decl(here: StmtAt<'_>, scratch: &mut [u8], out: &mut [u8], sink: Sink) -> After
    requires { Passable here.texts.tree.now scratch.old × (get_or here.texts.tree.now here.at 0 ≡ 1) }
    ensures { StmtPassed here.entry.texts.tree.now here.entry.left here.entry.at sink scratch.old out.old result scratch.new out.new }
{
    register(here, scratch, out, sink)
}

pub fn bit_decl(here: StmtAt<'_>, scratch: &mut [u8], out: &mut [u8], sink: Sink) -> After
    requires { Passable here.texts.tree.now scratch.old × (get_or here.texts.tree.now here.at 0 ≡ 2) }
    ensures { StmtPassed here.entry.texts.tree.now here.entry.left here.entry.at sink scratch.old out.old result scratch.new out.new }
{
    register(here, scratch, out, sink)
}

// The initializer of x behind its byte, in the scopes after the declaration.
#[tactic(auto, using(crate::proofs::Classical::initializers))]
fn check_init(
    sema: SemaContext<'_>,
    out: &mut [u8],
    at: usize,
    x: usize,
    ty: ClassicalType,
    sink: Sink,
) -> Sink
    requires { (x < length (texts sema)) × IsOk (option (held (texts sema)) sema.texts.tree.now at) }
    ensures { Emitted (texts sema.entry) (init_says (scopes sema.entry) (functions sema.entry) ty x (init_at sema.entry.texts.tree.now at)) sink out.old result out.new }
{
    if sema.texts.tree[at] == 0 {
        return sink;
    }
    let t = typing::check_expr(sema, out, at + 1, 32, sink);
    let Some(actual) = t.typed else {
        return t.sink;
    };
    let message = Message::CannotInitialize(ty, x, actual);
    check_type(sema.texts, out, ty, actual, message, t.next, t.sink)
}

// What is said of the classical declaration d after its name: of its qualifier and of its initializer.
#[tactic(auto, using(crate::proofs::Classical::classical))]
fn check_classical(
    here: StmtAt<'_>,
    scratch: &[u8],
    out: &mut [u8],
    d: Declaration,
    sink: Sink,
) -> Sink
    requires { (65536 ≤ length scratch.now) × (d.name < length (texts_of here.texts.tree.now)) × (get_or here.texts.tree.now here.at 0 ≡ 3) }
    ensures { Emitted (texts_of here.entry.texts.tree.now) (classical_rest (scopes_of scratch.now (9 - here.entry.left)) (functions_of scratch.now) (value_or none (option qualifier here.entry.texts.tree.now (here.entry.at + 1))) (type_of (get_or here.entry.texts.tree.now (next_of (option qualifier here.entry.texts.tree.now (here.entry.at + 1))) 0)) d.name (init_at here.entry.texts.tree.now (next_of (option qualifier here.entry.texts.tree.now (here.entry.at + 1)) + 3)) d.symbol.decl_span) sink out.old result out.new }
{
    let texts = here.texts;
    let q = qualifier_at(texts.tree, here.at + 1);
    let k = skip_qualifier(texts.tree, here.at + 1);
    let init = texts.tree[k + 3] != 0;
    let s = check_qualifier(texts, out, q, init, d.name, d.symbol.decl_span, sink);
    let ty = type_at(texts.tree, k);
    check_init(here.context(scratch), out, k + 3, d.name, ty, s)
}

// The declaration of a classical variable: its name, its qualifier, its initializer.
pub fn classical_decl(here: StmtAt<'_>, scratch: &mut [u8], out: &mut [u8], sink: Sink) -> After
    requires { Passable here.texts.tree.now scratch.old × (get_or here.texts.tree.now here.at 0 ≡ 3) }
    ensures { StmtPassed here.entry.texts.tree.now here.entry.left here.entry.at sink scratch.old out.old result scratch.new out.new }
{
    let d = scopes::declaration_at(here.texts.tree, here.at, here.left);
    let s = declare(here.texts, scratch, out, 9 - here.left, d, sink);
    let r = check_classical(here, scratch, out, d, s);
    After {
        next: d.end,
        sink: r,
    }
}

// The target of an assignment.
#[tactic(auto, unfolding(crate::specs::Says::target_by))]
fn check_target(sema: SemaContext<'_>, out: &mut [u8], a: Assignment) -> Sink
    requires { Valued sema.texts.tree.now a.name a.value }
    ensures { Emitted (texts sema.entry) (target_by (get (scopes sema.entry) a.name) a.name a.op (spanned (span_at sema.entry.texts.tree.now (a.value.next - 8))) a.span (typed_of a.value.typed)) a.value.sink out.old result out.new }
{
    let Some(symbol) = tables::get(sema.scratch, sema.depth, a.name) else {
        return report_error(
            sema.texts,
            out,
            Message::NotDeclared(a.name),
            a.span,
            a.value.sink,
        );
    };
    check_kind(sema.texts, out, a, symbol.kind)
}

// The value, and then the target. The scratch stays as it is.
#[tactic(auto, using(crate::proofs::Targets::assignments))]
pub fn assignment(here: StmtAt<'_>, scratch: &[u8], out: &mut [u8], sink: Sink) -> After
    requires { Passable here.texts.tree.now scratch.now × (get_or here.texts.tree.now here.at 0 ≡ 4) }
    ensures { StmtPassed here.entry.texts.tree.now here.entry.left here.entry.at sink scratch.now out.old result scratch.now out.new }
{
    let sema = here.context(scratch);
    let value = typing::check_expr(sema, out, here.at + 4, 32, sink);
    let a = Assignment {
        name: u16_at(here.texts.tree, here.at + 1),
        op: assign_op_at(here.texts.tree, here.at + 3),
        value,
        span: span_at(here.texts.tree, value.next),
    };
    let s = check_target(sema, out, a);
    After {
        next: value.next + 8,
        sink: s,
    }
}

// The function f; of two of one name the first stays.
#[tactic(auto, using(crate::proofs::Functions::parameters))]
fn define(texts: Texts<'_>, scratch: &mut [u8], out: &mut [u8], f: Function, sink: Sink) -> Sink
    requires { (65536 ≤ length scratch.old) × FewParams (functions_of scratch.old) × (f.name < length (texts_of texts.tree.now)) × IsOk (vec (param (texts_of texts.tree.now)) texts.tree.now f.params) }
    ensures { Defined texts.entry.tree.now f sink scratch.old out.old result scratch.new out.new }
{
    if let Some(prev) = tables::function(scratch, f.name) {
        return report_with_note(
            texts,
            out,
            Message::FunctionAlreadyDefined(f.name),
            f.span,
            Note::FirstDefined,
            prev.decl_span,
            sink,
        );
    }
    let sig = FunctionSig {
        param_count: texts.tree[f.params],
        return_type: f.return_type,
        decl_span: f.span,
    };
    tables::define_function(scratch, texts.tree, f.name, f.params + 1, sig);
    sink
}

// The body of f in a scope with its parameters.
fn check_body(
    texts: Texts<'_>,
    scratch: &mut [u8],
    out: &mut [u8],
    depth: usize,
    f: Function,
    sink: Sink,
) -> Sink
    requires { Checkable scratch.old depth × (depth < 9) × (f.name < length (texts_of texts.tree.now)) × IsOk (vec (param (texts_of texts.tree.now)) texts.tree.now f.params) × IsOk (held (texts_of texts.tree.now) texts.tree.now f.body) }
    ensures { BodyChecked texts.entry.tree.now depth f sink scratch.old out.old result scratch.new out.new }
{
    scopes::enter_function(texts.tree, scratch, depth, f.params, f.span);
    let sema = SemaContext {
        texts,
        scratch,
        depth: depth + 1,
    };
    let t = typing::check_expr(sema, out, f.body, 32, sink);
    let Some(actual) = t.typed else {
        return t.sink;
    };
    let message = Message::FunctionReturns(f.name, f.return_type, actual);
    check_type(texts, out, f.return_type, actual, message, t.next, t.sink)
}

// The function is known in its own body. Its scope is left by counting one less.
#[tactic(auto, using(crate::proofs::Functions::function_defs))]
pub fn function_def(here: StmtAt<'_>, scratch: &mut [u8], out: &mut [u8], sink: Sink) -> After
    requires { Passable here.texts.tree.now scratch.old × (get_or here.texts.tree.now here.at 0 ≡ 7) }
    ensures { StmtPassed here.entry.texts.tree.now here.entry.left here.entry.at sink scratch.old out.old result scratch.new out.new }
{
    let f = function_at(here);
    let s = define(here.texts, scratch, out, f, sink);
    let r = check_body(here.texts, scratch, out, 9 - here.left, f, s);
    After {
        next: f.end,
        sink: r,
    }
}
