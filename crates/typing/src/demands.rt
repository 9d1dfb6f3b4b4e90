// The type of an expression against what is asked of it.
ghost use Rattle.std.specs.Prelude.{◌≡◌, ◌-◌, ◌≤◌, length};
ghost use Rattle.context.specs.Values.{typed_of};
ghost use Rattle.context.specs.Given.{texts};
ghost use Rattle.context.specs.View.{span_at};
ghost use Rattle.promises.specs.Emitted.{Emitted};
ghost use Rattle.typing.specs.Checks.{NamedBelow, meets, complaint, unmet};

use crate::Wanted;
use accepted::numbers::span_at;
use ast::ClassicalType;
use context::{SemaContext, Sink, Typing};
use lines::{Message, error};

fn meets(wanted: Wanted, actual: ClassicalType) -> bool
    ensures { result ≡ meets wanted actual }
{
    match wanted {
        Wanted::Assignable(expected, _) | Wanted::Argument(expected, _, _) => {
            types::assignable(expected, actual)
        }
        Wanted::Numeric(_) => types::is_numeric(actual),
    }
}

// What is said of a type that is not as it is wanted.
fn complaint(wanted: Wanted, actual: ClassicalType) -> Message
    ensures { result ≡ complaint wanted actual }
{
    match wanted {
        Wanted::Assignable(expected, place) => Message::MustHaveType(place, expected, actual),
        Wanted::Numeric(message) => message,
        Wanted::Argument(expected, i, x) => Message::ArgumentType(i, x, expected, actual),
    }
}

// An expression that was just checked; its span stands in its last 8 bytes. Compiled into its callers: most types are as they are wanted,
// and a call would copy the context.
#[inline(always)]
pub fn check_wanted(sema: SemaContext<'_>, out: &mut [u8], wanted: Wanted, t: Typing) -> Sink
    requires { NamedBelow (length (texts sema)) wanted × (8 ≤ t.next) × (t.next ≤ length sema.texts.tree.now) }
    ensures { Emitted (texts sema.entry) (unmet wanted (span_at sema.entry.texts.tree.now (t.next - 8)) (typed_of t.typed)) t.sink out.old result out.new }
{
    let Some(actual) = t.typed else {
        return t.sink;
    };
    if meets(wanted, actual) {
        return t.sink;
    }
    let span = span_at(sema.texts.tree, t.next - 8);
    lines::report(
        out,
        t.sink,
        sema.texts,
        error(complaint(wanted, actual), span),
    )
}
