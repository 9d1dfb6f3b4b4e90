// What is said of uses that a mark covers.
ghost use Rattle.std.specs.Prelude.{◌≡◌, ◌+◌, ◌<◌, length};
ghost use Rattle.tree.specs.Ans.{IsOk};
ghost use Rattle.tree.specs.Stmts.{measure};
ghost use Rattle.tree.specs.Decode.{texts_of};
ghost use Rattle.sema.specs.Marks.{smallest_covered};
ghost use Rattle.sema.specs.Operands.{used_index_says};
ghost use Rattle.context.specs.Given.{texts};
ghost use Rattle.context.specs.View.{measure_span};
ghost use Rattle.operands.specs.Measured.{marks};
ghost use Rattle.promises.specs.Emitted.{Emitted};

use crate::Measured;
use accepted::numbers::span_at;
use accepted::parts::{skip_operand, skip_option_operand};
use context::Sink;
use lines::{Message, Note, error_with_note};
use span::Span;

// The span of the measure statement whose case byte stands at a place.
#[tactic(auto, using(crate::proofs::UseLaws::measure_parts))]
pub fn measure_span(tree: &[u8], place: usize) -> Span
    requires { IsOk (measure (texts_of tree.now) place tree.now (place + 1)) }
    ensures { result ≡ measure_span tree.now place }
{
    let k = skip_operand(tree, place + 1);
    let m = skip_option_operand(tree, k);
    span_at(tree, m)
}

// The smallest index of the slice that a mark covers.
#[tactic(auto, using(crate::proofs::UseLaws::slice_unused, crate::proofs::UseLaws::covered))]
pub fn check_slice_use(
    m: Measured<'_, '_>,
    out: &mut [u8],
    x: usize,
    ends: (u64, u64),
    span: Span,
    sink: Sink,
) -> Sink
    requires { x < length (texts m.sema) }
    ensures { Emitted (texts m.entry.sema) (used_index_says x span (smallest_covered (marks m.entry) x ends)) sink out.old result out.new }
{
    let Some((i, place)) = sheet::smallest(m.marks, m.keys, x, ends) else {
        return sink;
    };
    let at = measure_span(m.sema.texts.tree, usize::from(place));
    lines::report(
        out,
        sink,
        m.sema.texts,
        error_with_note(Message::UsedIndex(x, i), span, Note::MeasuredHere, at),
    )
}
