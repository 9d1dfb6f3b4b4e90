// Before a body: what is said, and the scope that is entered. The marks, whatever they are, stay.
#![tactic(auto)]

mod for_loops;
mod gate_defs;

ghost use Rattle.std.specs.Prelude.{◌≡◌, List, ℕ, ◌+◌, ◌≤◌, length, get_or};
ghost use Rattle.tree.specs.Ans.{IsOk};
ghost use Rattle.tree.specs.Stmts.{held};
ghost use Rattle.tree.specs.Decode.{texts_of};
ghost use Rattle.sema.specs.Messages as Messages;
ghost use Rattle.lines.specs.Values.{place_of};
ghost use Rattle.promises.specs.Walks.{state_of};
ghost use Rattle.bodies.specs.Opened.{GateOpened, ConditionOpened, ForOpened};

use ast::ClassicalType;
use context::{After, Sink, StmtAt};
use for_loops::{check_range, for_parts, report_type};
use gate_defs::{define_gate, gate_parts, report_gate};
use lines::Place;

// The gate is defined, and its body opened.
#[tactic(auto, using(crate::proofs::Gates::gates))]
pub fn open_gate(here: StmtAt<'_>, scratch: &mut [u8], out: &mut [u8], sink: Sink) -> After
    requires { (length here.texts.tree.now ≤ 16384) × (65536 ≤ length scratch.old) × (get_or here.texts.tree.now here.at 0 ≡ 6) }
    ensures { (marks : List ℕ) → GateOpened here.entry.texts.tree.now here.entry.left (state_of here.entry.at sink marks) scratch.old out.old (state_of result.next result.sink marks) scratch.new out.new }
{
    let parts = gate_parts(here);
    let sema = here.context(scratch);
    let said = report_gate(sema, out, parts.name, parts.span, sink);
    define_gate(here.texts.tree, scratch, 9 - here.left, parts);
    After {
        next: parts.body_at,
        sink: said,
    }
}

// A condition, and an empty scope for what stands behind it.
#[tactic(auto, using(crate::proofs::Loops::conditions))]
fn open_condition(
    here: StmtAt<'_>,
    scratch: &mut [u8],
    out: &mut [u8],
    sink: Sink,
    place: Place,
) -> After
    requires { (length here.texts.tree.now ≤ 16384) × (65536 ≤ length scratch.old) × IsOk (held (texts_of here.texts.tree.now) here.texts.tree.now (here.at + 1)) }
    ensures { (marks : List ℕ) → ConditionOpened (place_of place) here.entry.texts.tree.now here.entry.left (state_of here.entry.at sink marks) scratch.old out.old (state_of result.next result.sink marks) scratch.new out.new }
{
    let sema = here.context(scratch);
    let a = typing::require_type(sema, out, here.at + 1, ClassicalType::Bool, place, sink);
    tables::enter(scratch, 9 - here.left);
    a
}

// Each case of a statement has its function: an `if` and a `while` are opened alike.
#[tactic(auto, using(crate::proofs::Loops::conditions))]
pub fn open_if(here: StmtAt<'_>, scratch: &mut [u8], out: &mut [u8], sink: Sink) -> After
    requires { (length here.texts.tree.now ≤ 16384) × (65536 ≤ length scratch.old) × (get_or here.texts.tree.now here.at 0 ≡ 12) }
    ensures { (marks : List ℕ) → ConditionOpened Messages.if_condition here.entry.texts.tree.now here.entry.left (state_of here.entry.at sink marks) scratch.old out.old (state_of result.next result.sink marks) scratch.new out.new }
{
    open_condition(here, scratch, out, sink, Place::IfCondition)
}

#[tactic(auto, using(crate::proofs::Loops::conditions))]
pub fn open_while(here: StmtAt<'_>, scratch: &mut [u8], out: &mut [u8], sink: Sink) -> After
    requires { (length here.texts.tree.now ≤ 16384) × (65536 ≤ length scratch.old) × (get_or here.texts.tree.now here.at 0 ≡ 14) }
    ensures { (marks : List ℕ) → ConditionOpened Messages.while_condition here.entry.texts.tree.now here.entry.left (state_of here.entry.at sink marks) scratch.old out.old (state_of result.next result.sink marks) scratch.new out.new }
{
    open_condition(here, scratch, out, sink, Place::WhileCondition)
}

// The bounds are checked, and the body opened.
#[tactic(auto, using(crate::proofs::Loops::loops))]
pub fn open_for(here: StmtAt<'_>, scratch: &mut [u8], out: &mut [u8], sink: Sink) -> After
    requires { (length here.texts.tree.now ≤ 16384) × (65536 ≤ length scratch.old) × (get_or here.texts.tree.now here.at 0 ≡ 13) }
    ensures { (marks : List ℕ) → ForOpened here.entry.texts.tree.now here.entry.left (state_of here.entry.at sink marks) scratch.old out.old (state_of result.next result.sink marks) scratch.new out.new }
{
    let parts = for_parts(here);
    let sema = here.context(scratch);
    let a = report_type(sema, out, parts.ty, parts.span, sink);
    let said = check_range(sema, out, here.at + 4, a);
    scopes::enter_loop(scratch, 9 - here.left, parts.name, parts.ty, parts.span);
    After {
        next: parts.body_at,
        sink: said,
    }
}
