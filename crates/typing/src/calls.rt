// The function of a call, and an argument against its parameter.
ghost use Rattle.std.specs.Prelude.{◌≡◌, ◌-◌, ◌≤◌, ◌<◌, length, drop, eqb};
ghost use Rattle.sema.specs.Messages.{error_with_note, function_arguments, function_defined};
ghost use Rattle.sema.specs.Operands.{unless};
ghost use Rattle.context.specs.Values.{typed_of};
ghost use Rattle.context.specs.Given.{texts, functions};
ghost use Rattle.context.specs.View.{span_at};
ghost use Rattle.tables.specs.Tables.{params_of};
ghost use Rattle.promises.specs.Emitted.{Emitted};
ghost use Rattle.typing.specs.Checks.{CalleeOf, argument_at};

use crate::demands::check_wanted;
use crate::{Callee, Wanted};
use context::{FunctionSig, SemaContext, Sink, Typing};
use lines::{Message, Note, error, error_with_note};
use span::Span;

// So many arguments against the parameters of a function that is defined.
fn count_arguments(
    sema: SemaContext<'_>,
    out: &mut [u8],
    x: usize,
    n: u8,
    sig: FunctionSig,
    span: Span,
    sink: Sink,
) -> Sink
    requires { x < length (texts sema) }
    ensures { Emitted (texts sema.entry) (unless (eqb n sig.param_count) (error_with_note (function_arguments x sig.param_count n) span function_defined sig.decl_span)) sink out.old result out.new }
{
    if n == sig.param_count {
        return sink;
    }
    lines::report(
        out,
        sink,
        sema.texts,
        error_with_note(
            Message::FunctionArguments(x, u64::from(sig.param_count), u64::from(n)),
            span,
            Note::FunctionDefined,
            sig.decl_span,
        ),
    )
}

// The function that is called with so many arguments.
pub fn check_callee(
    sema: SemaContext<'_>,
    out: &mut [u8],
    x: usize,
    n: u8,
    span: Span,
    sink: Sink,
) -> Callee
    requires { x < length (texts sema) }
    ensures { CalleeOf (texts sema.entry) (functions sema.entry x) x n span sink out.old result out.new }
{
    let sig = tables::function(sema.scratch, x);
    let sink = match sig {
        Some(sig) => count_arguments(sema, out, x, n, sig, span, sink),
        None => lines::report(
            out,
            sink,
            sema.texts,
            error(Message::FunctionNotDefined(x), span),
        ),
    };
    Callee { sig, sink }
}

// An argument against the parameter of its place, where the function has one.
pub fn check_argument(
    sema: SemaContext<'_>,
    out: &mut [u8],
    x: usize,
    params: u8,
    i: u8,
    t: Typing,
) -> Sink
    requires { (x < length (texts sema)) × (params ≡ length (params_of (functions sema x))) × (8 ≤ t.next) × (t.next ≤ length sema.texts.tree.now) }
    ensures { Emitted (texts sema.entry) (argument_at x i (span_at sema.entry.texts.tree.now (t.next - 8)) (drop i (params_of (functions sema.entry x))) (typed_of t.typed)) t.sink out.old result out.new }
{
    if params <= i {
        return t.sink;
    }
    let expected = tables::param_type(sema.scratch, x, usize::from(i));
    let wanted = Wanted::Argument(expected, u64::from(i) + 1, x);
    check_wanted(sema, out, wanted, t)
}
