// Before the body of a `for`.
ghost use Rattle.std.specs.Prelude.{◌≡◌, [], get_or};
ghost use Rattle.tree.specs.Ans.{IsOk, given};
ghost use Rattle.tree.specs.Read.{option};
ghost use Rattle.tree.specs.Stmts.{held, for_range};
ghost use Rattle.sema.specs.Stmts.{step_says};
ghost use Rattle.context.specs.Given.{texts, scopes, functions};
ghost use Rattle.promises.specs.Emitted.{Emitted};
ghost use Rattle.promises.specs.Typings.{plain_context};
ghost use Rattle.bodies.specs.Parts.{ForPartsOf, variable_says, bounds_say};

use accepted::numbers::{span_at, u16_at};
use accepted::parts::skip_range;
use accepted::stmts::skip_body;
use ast::ClassicalType;
use context::{SemaContext, Sink, StmtAt};
use lines::{Message, Place};
use scopes::type_at;
use span::Span;

// The parts of a `for`.
#[derive(Clone, Copy)]
pub struct ForParts {
    pub name: usize,
    pub ty: ClassicalType,
    pub body_at: usize,
    pub span: Span,
}

#[tactic(auto, using(crate::proofs::Loops::loops))]
pub fn for_parts(here: StmtAt<'_>) -> ForParts
    requires { get_or here.texts.tree.now here.at 0 ≡ 13 }
    ensures { ForPartsOf here.entry.texts.tree.now here.entry.left here.entry.at result }
{
    let tree = here.texts.tree;
    let at = here.at;
    let name = u16_at(tree, at + 1);
    let ty = type_at(tree, at + 3);
    let body_at = skip_range(tree, at + 4);
    let span = span_at(tree, skip_body(tree, body_at, here.left - 1));
    ForParts {
        name,
        ty,
        body_at,
        span,
    }
}

// The variable of a `for` must be an int.
#[tactic(auto, using(crate::proofs::Loops::variables))]
pub fn report_type(
    sema: SemaContext<'_>,
    out: &mut [u8],
    ty: ClassicalType,
    span: Span,
    sink: Sink,
) -> Sink
    ensures { Emitted (texts sema.entry) (variable_says ty span) sink out.old result out.new }
{
    if ty == ClassicalType::Int {
        return sink;
    }
    lines::report(
        out,
        sink,
        sema.texts,
        lines::error(Message::ForVariable, span),
    )
}

// The step of a range, where there is one.
#[tactic(auto, using(crate::proofs::Loops::steps))]
fn check_step(sema: SemaContext<'_>, out: &mut [u8], at: usize, sink: Sink) -> Sink
    requires { IsOk (option (held (texts sema)) sema.texts.tree.now at) }
    ensures { Emitted (texts sema.entry) (given [] (step_says (plain_context (scopes sema.entry) (functions sema.entry))) (option (held (texts sema.entry)) sema.entry.texts.tree.now at)) sink out.old result out.new }
{
    if sema.texts.tree[at] == 0 {
        return sink;
    }
    typing::require_type(
        sema,
        out,
        at + 1,
        ClassicalType::Int,
        Place::RangeStep,
        sink,
    )
    .sink
}

// The bounds of a range, and its step.
#[tactic(auto, using(crate::proofs::Loops::ranges))]
pub fn check_range(sema: SemaContext<'_>, out: &mut [u8], at: usize, sink: Sink) -> Sink
    requires { IsOk (for_range (texts sema) sema.texts.tree.now at) }
    ensures { Emitted (texts sema.entry) (given [] (bounds_say (plain_context (scopes sema.entry) (functions sema.entry))) (for_range (texts sema.entry) sema.entry.texts.tree.now at)) sink out.old result out.new }
{
    let a = typing::require_type(sema, out, at, ClassicalType::Int, Place::RangeBound, sink);
    let b = typing::require_type(
        sema,
        out,
        a.next,
        ClassicalType::Int,
        Place::RangeBound,
        a.sink,
    );
    check_step(sema, out, b.next, b.sink)
}
