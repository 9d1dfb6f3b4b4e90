// Includes, gate calls, measurements, resets, barriers and delays over accepted bytes: cases of the Rust's analyze_stmt.
#![tactic(auto)]

mod calls;
mod measures;

ghost use Rattle.std.specs.Prelude.{◌≡◌, ℕ, ◌+◌, ◌-◌, ◌≤◌, length, get_or};
ghost use Rattle.tree.specs.Ans.{IsOk, next_of};
ghost use Rattle.tree.specs.Read.{vec};
ghost use Rattle.tree.specs.Stmts.{operand, stmt};
ghost use Rattle.tree.specs.Decode.{texts_of};
ghost use Rattle.sema.specs.Operands.{use_operands};
ghost use Rattle.context.specs.Given.{texts, scopes};
ghost use Rattle.operands.specs.Measured.{marks};
ghost use Rattle.context.specs.View.{scopes_of, keys_in, keys_of, span_at};
ghost use Rattle.sheet.specs.Behind.{Blank};
ghost use Rattle.sheet.specs.Sheet.{Indexed, Grown};
ghost use Rattle.promises.specs.Went.{stmt_keys};
ghost use Rattle.promises.specs.Typings.{SaidOf};
ghost use Rattle.promises.specs.Walks.{state_of, Walkable, Ready, Passable, StmtKeyed, StmtWalked, StmtPassed};

use accepted::numbers::span_at;
use accepted::operands::operand_at;
use accepted::parts::skip_operands;
use calls::{call_at, check_args, check_signature, check_values};
use context::{After, Index, Key, Sink, StmtAt};
use lines::{Expected, Message};
use measures::{check_measure, mark_measured};
use operands::Measured;

// An include says nothing and changes nothing.
pub fn include(here: StmtAt<'_>, scratch: &[u8], out: &mut [u8], sink: Sink) -> After
    requires { Passable here.texts.tree.now scratch.now × (get_or here.texts.tree.now here.at 0 ≡ 0) }
    ensures { StmtPassed here.entry.texts.tree.now here.entry.left here.entry.at sink scratch.now out.old result scratch.now out.new }
{
    After {
        next: here.at + 11,
        sink,
    }
}

// The operands of a barrier or a delay. The statement's span stands behind them.
fn use_targets(m: Measured<'_, '_>, out: &mut [u8], at: usize, sink: Sink) -> After
    requires { IsOk (vec (operand (texts m.sema)) m.sema.texts.tree.now at) × (next_of (vec (operand (texts m.sema)) m.sema.texts.tree.now at) + 8 ≤ length m.sema.texts.tree.now) }
    ensures { SaidOf (texts m.entry.sema) (use_operands (scopes m.entry.sema) (marks m.entry) (span_at m.entry.sema.texts.tree.now result.next)) (vec (operand (texts m.entry.sema)) m.entry.sema.texts.tree.now at) sink out.old result out.new }
{
    let next = skip_operands(m.sema.texts.tree, at);
    let span = span_at(m.sema.texts.tree, next);
    let s = operands::use_operands(m, out, at, span, sink);
    After { next, sink: s }
}

// A barrier uses its operands. `Measured` is made here and where else it is used: lent by the walk, it would be made in the arms of its
// match.
pub fn barrier<'a>(
    here: StmtAt<'a>,
    keys: &'a [Key],
    scratch: &'a [u8],
    out: &mut [u8],
    marks: &[u16; 256],
    sink: Sink,
) -> After
    requires { Walkable here.texts.tree.now keys.now × Ready here.texts.tree.now scratch.now (state_of here.at sink marks.now) × (get_or here.texts.tree.now here.at 0 ≡ 10) }
    ensures { StmtWalked here.entry.texts.tree.now (keys_of keys.now) here.entry.left (state_of here.entry.at sink marks.now) scratch.now out.old (state_of result.next result.sink marks.now) scratch.now out.new }
{
    let sema = here.context(scratch);
    let m = Measured { sema, keys, marks };
    let a = use_targets(m, out, here.at + 1, sink);
    After {
        next: a.next + 8,
        ..a
    }
}

// A delay: a numeric duration, and the operands it uses.
pub fn delay<'a>(
    here: StmtAt<'a>,
    keys: &'a [Key],
    scratch: &'a [u8],
    out: &mut [u8],
    marks: &[u16; 256],
    sink: Sink,
) -> After
    requires { Walkable here.texts.tree.now keys.now × Ready here.texts.tree.now scratch.now (state_of here.at sink marks.now) × (get_or here.texts.tree.now here.at 0 ≡ 11) }
    ensures { StmtWalked here.entry.texts.tree.now (keys_of keys.now) here.entry.left (state_of here.entry.at sink marks.now) scratch.now out.old (state_of result.next result.sink marks.now) scratch.now out.new }
{
    let sema = here.context(scratch);
    let m = Measured { sema, keys, marks };
    let a = typing::require_numeric(sema, out, here.at + 1, Message::DelayNumeric, sink);
    let b = use_targets(m, out, a.next, a.sink);
    After {
        next: b.next + 8,
        ..b
    }
}

// A reset clears the marks of its operand.
pub fn reset<'a>(
    here: StmtAt<'a>,
    keys: &'a [Key],
    scratch: &'a [u8],
    out: &mut [u8],
    marks: &mut [u16; 256],
    sink: Sink,
) -> After
    requires { Walkable here.texts.tree.now keys.now × Ready here.texts.tree.now scratch.now (state_of here.at sink marks.old) × (get_or here.texts.tree.now here.at 0 ≡ 9) }
    ensures walked { StmtWalked here.entry.texts.tree.now (keys_of keys.now) here.entry.left (state_of here.entry.at sink marks.old) scratch.now out.old (state_of result.next result.sink marks.new) scratch.now out.new }
    ensures behind { (n : ℕ) → length keys.now ≤ n → Blank n marks.old → Blank n marks.new }
{
    let sema = here.context(scratch);
    let op = operand_at(here.texts.tree, here.at + 1);
    let said = operands::check_operand(sema, out, op.value, Expected::Qubit, sink);
    sheet::clear(marks, keys, op.value);
    After {
        next: op.next + 8,
        sink: said,
    }
}

// Puts the keys of the measure statement at `at` into the index: how many there are then, or None where they are too many. Plain
// parameters: a `StmtAt` would ask for the places of the texts too.
pub fn add_keys(
    tree: &[u8],
    index: &mut Index,
    scratch: &[u8],
    keys: usize,
    left: usize,
    at: usize,
) -> Option<usize>
    requires { IsOk (stmt (texts_of tree.now) left tree.now at) × (left ≤ 8) × (length (texts_of tree.now) ≤ 256) × (65536 ≤ length scratch.now) × Indexed index.old keys × (get_or tree.now at 0 ≡ 8) }
    ensures added { Grown index.new result (stmt_keys (stmt (texts_of tree.now) left tree.now at) (scopes_of scratch.now (9 - left)) (keys_in index.old keys)) }
    ensures index { length index.new ≡ length index.old }
{
    let op = operand_at(tree, at + 1).value;
    let size = tables::size_of(scratch, 9 - left, op.name);
    sheet::new_keys::add_measured(index, keys, op, size)
}

// A measurement: its operands, and the marks that it sets.
pub fn measure<'a>(
    here: StmtAt<'a>,
    keys: &'a [Key],
    scratch: &'a [u8],
    out: &mut [u8],
    marks: &mut [u16; 256],
    sink: Sink,
) -> After
    requires walkable { Walkable here.texts.tree.now keys.now × Ready here.texts.tree.now scratch.now (state_of here.at sink marks.old) × (get_or here.texts.tree.now here.at 0 ≡ 8) }
    requires stmt_keyed { StmtKeyed (keys_of keys.now) (scopes_of scratch.now (9 - here.left)) (stmt (texts_of here.texts.tree.now) here.left here.texts.tree.now here.at) }
    ensures walked { StmtWalked here.entry.texts.tree.now (keys_of keys.now) here.entry.left (state_of here.entry.at sink marks.old) scratch.now out.old (state_of result.next result.sink marks.new) scratch.now out.new }
    ensures behind { (n : ℕ) → length keys.now ≤ n → Blank n marks.old → Blank n marks.new }
{
    let sema = here.context(scratch);
    let qubit = operand_at(here.texts.tree, here.at + 1);
    let m = Measured {
        sema,
        keys,
        marks: &*marks,
    };
    let a = check_measure(m, out, qubit.value, qubit.next, sink);
    let said = a.sink;
    mark_measured(keys, scratch, 9 - here.left, marks, qubit.value, here.at);
    After {
        next: a.next + 8,
        sink: said,
    }
}

// A gate call: its arity, its modifiers and parameters, and its operands.
pub fn gate_call<'a>(
    here: StmtAt<'a>,
    keys: &'a [Key],
    scratch: &'a [u8],
    out: &mut [u8],
    marks: &[u16; 256],
    sink: Sink,
) -> After
    requires { Walkable here.texts.tree.now keys.now × Ready here.texts.tree.now scratch.now (state_of here.at sink marks.now) × (get_or here.texts.tree.now here.at 0 ≡ 5) }
    ensures { StmtWalked here.entry.texts.tree.now (keys_of keys.now) here.entry.left (state_of here.entry.at sink marks.now) scratch.now out.old (state_of result.next result.sink marks.now) scratch.now out.new }
{
    let sema = here.context(scratch);
    let m = Measured { sema, keys, marks };
    let call = call_at(here);
    let named = check_signature(sema, out, call, sink);
    let checked = check_values(sema, out, here.at + 3, named);
    let said = check_args(m, out, call.args_at, call.span, checked);
    After {
        next: call.end + 8,
        sink: said,
    }
}
