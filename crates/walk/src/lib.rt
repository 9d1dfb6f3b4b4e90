// The analysis of statements over accepted bytes: the Rust's analyze_stmt (plain_stmt, body_stmt) and analyze_stmts. A body takes the state
// and gives it by value, so a caller keeps the marks of the entry of a body. A statement with a body gives it by value too, and is lent it to
// read: each copy is 536 bytes. A statement without a body is lent the marks. Keys are numbered as measure statements are met (keyed_stmt);
// once there are too many, the walk stops, and gives None.
#![tactic(auto)]

ghost use Rattle.std.specs.Prelude.{◌≡◌, true, false, ℕ, ◌-◌, ◌≤◌, length, get_or};
ghost use Rattle.tree.specs.Stmts.{stmt};
ghost use Rattle.tree.specs.Decode.{texts_of};
ghost use Rattle.context.specs.View.{keys_in, keys_of, scopes_of};
ghost use Rattle.sheet.specs.Sheet.{Indexed, Grown};
ghost use Rattle.sheet.specs.Behind.{Blank};
ghost use Rattle.promises.specs.Walks.{state_of, Walkable, Ready, StmtKeyed, StmtWalked};
ghost use Rattle.promises.specs.Went.{stmt_keys, StmtAsked, BodyAsked, StmtWent, BodyWent};
ghost use Rattle.walk.specs.Bodies.{moved_to, stepped, is_plain, LoopAsked, ElseAsked, LoopWent, ElseWent};

use accepted::numbers::u16_at;
use context::{After, Index, Key, Sink, State, StmtAt, Texts};

// What a statement without statements in it leaves beside the marks: the place past it, the listing, how many keys there are.
#[derive(Clone, Copy)]
struct Step {
    next: usize,
    sink: Sink,
    keys: usize,
}

// The state past what was checked: the keys and the marks stay.
fn moved(st: State, a: After) -> State
    ensures { result ≡ moved_to st a }
{
    State {
        at: a.next,
        sink: a.sink,
        ..st
    }
}

// Not inlined, as the other statements with a body: states stand in each one's frame, and a nest takes the frames of what it is made of.
#[cycle(stmts)]
#[inline(never)]
fn gate_def(
    texts: Texts<'_>,
    index: &mut Index,
    scratch: &mut [u8],
    out: &mut [u8],
    left: usize,
    st: &State,
) -> Option<State>
    requires { StmtAsked texts.tree.now index.old left st.now scratch.old × (get_or texts.tree.now st.now.at 0 ≡ 6) }
    ensures { StmtWent texts.entry.tree.now left st.now index.old scratch.old out.old result index.new scratch.new out.new }
{
    let here = StmtAt {
        texts,
        left,
        at: st.at,
    };
    let a = bodies::open_gate(here, scratch, out, st.sink);
    let s = moved(*st, a);
    let mut r = analyze_stmts(texts, index, scratch, out, left - 1, s)?;
    r.at += 8;
    Some(r)
}

#[cycle(stmts)]
#[inline(never)]
fn branch(
    texts: Texts<'_>,
    index: &mut Index,
    scratch: &mut [u8],
    out: &mut [u8],
    left: usize,
    st: &State,
) -> Option<State>
    requires { StmtAsked texts.tree.now index.old left st.now scratch.old × (get_or texts.tree.now st.now.at 0 ≡ 12) }
    ensures { StmtWent texts.entry.tree.now left st.now index.old scratch.old out.old result index.new scratch.new out.new }
{
    let here = StmtAt {
        texts,
        left,
        at: st.at,
    };
    let a = bodies::open_if(here, scratch, out, st.sink);
    let s = moved(*st, a);
    let t = analyze_stmts(texts, index, scratch, out, left - 1, s)?;
    branch_else(texts, index, scratch, out, left, &st.marks, t)
}

// The `else` of an `if`, from the entry marks, and the span behind it; t is the state after the `then` body. Both exits are united.
#[cycle(stmts)]
fn branch_else(
    texts: Texts<'_>,
    index: &mut Index,
    scratch: &mut [u8],
    out: &mut [u8],
    left: usize,
    entry: &[u16; 256],
    t: State,
) -> Option<State>
    requires { ElseAsked texts.tree.now index.old left entry.now t scratch.old }
    ensures { ElseWent texts.entry.tree.now left entry.now t index.old scratch.old out.old result index.new scratch.new out.new }
{
    let k = t.at;
    let mut then = t;
    if texts.tree[k] == 0 {
        sheet::unite(entry, &mut then.marks);
        then.at = k + 9;
        return Some(then);
    }
    tables::enter(scratch, 9 - left);
    let inner = State {
        at: k + 1,
        marks: *entry,
        ..t
    };
    let mut e = analyze_stmts(texts, index, scratch, out, left - 1, inner)?;
    sheet::unite(&then.marks, &mut e.marks);
    e.at += 8;
    Some(e)
}

// Each case of a statement has its function.
#[cycle(stmts)]
#[inline(never)]
fn for_loop(
    texts: Texts<'_>,
    index: &mut Index,
    scratch: &mut [u8],
    out: &mut [u8],
    left: usize,
    st: &State,
) -> Option<State>
    requires { StmtAsked texts.tree.now index.old left st.now scratch.old × (get_or texts.tree.now st.now.at 0 ≡ 13) }
    ensures { StmtWent texts.entry.tree.now left st.now index.old scratch.old out.old result index.new scratch.new out.new }
{
    let here = StmtAt {
        texts,
        left,
        at: st.at,
    };
    let a = bodies::open_for(here, scratch, out, st.sink);
    loop_body(texts, index, scratch, out, left - 1, st, a)
}

#[cycle(stmts)]
#[inline(never)]
fn while_loop(
    texts: Texts<'_>,
    index: &mut Index,
    scratch: &mut [u8],
    out: &mut [u8],
    left: usize,
    st: &State,
) -> Option<State>
    requires { StmtAsked texts.tree.now index.old left st.now scratch.old × (get_or texts.tree.now st.now.at 0 ≡ 14) }
    ensures { StmtWent texts.entry.tree.now left st.now index.old scratch.old out.old result index.new scratch.new out.new }
{
    let here = StmtAt {
        texts,
        left,
        at: st.at,
    };
    let a = bodies::open_while(here, scratch, out, st.sink);
    loop_body(texts, index, scratch, out, left - 1, st, a)
}

// The body of a loop, opened, and its span behind it. Entry and exit are united. Inlined: a call would copy the state once more.
#[cycle(stmts)]
#[inline(always)]
fn loop_body(
    texts: Texts<'_>,
    index: &mut Index,
    scratch: &mut [u8],
    out: &mut [u8],
    left: usize,
    st: &State,
    a: After,
) -> Option<State>
    requires { LoopAsked texts.tree.now index.old left (moved_to st.now a) scratch.old }
    ensures { LoopWent texts.entry.tree.now left (moved_to st.now a) index.old scratch.old out.old result index.new scratch.new out.new }
{
    let s = moved(*st, a);
    let mut r = analyze_stmts(texts, index, scratch, out, left, s)?;
    sheet::unite(&st.marks, &mut r.marks);
    r.at += 8;
    Some(r)
}

// Has the statement with this case byte no statements in it? A gate definition, an `if` and a loop have. By the byte, as the matches.
#[tactic(auto, unfolding(crate::specs::Bodies::is_plain))]
fn is_plain(case: u8) -> bool
    ensures { result ≡ is_plain case }
{
    case != 6 && case < 12
}

// A statement without statements in it, whose keys are there.
fn plain_stmt(
    here: StmtAt<'_>,
    keys: &[Key],
    scratch: &mut [u8],
    out: &mut [u8],
    marks: &mut [u16; 256],
    sink: Sink,
) -> After
    requires walkable { Walkable here.texts.tree.now keys.now × Ready here.texts.tree.now scratch.old (state_of here.at sink marks.old) × (is_plain (get_or here.texts.tree.now here.at 0) ≡ true) }
    requires stmt_keyed { StmtKeyed (keys_of keys.now) (scopes_of scratch.old (9 - here.left)) (stmt (texts_of here.texts.tree.now) here.left here.texts.tree.now here.at) }
    ensures walked { StmtWalked here.entry.texts.tree.now (keys_of keys.now) here.entry.left (state_of here.entry.at sink marks.old) scratch.old out.old (state_of result.next result.sink marks.new) scratch.new out.new }
    ensures behind { (n : ℕ) → length keys.now ≤ n → Blank n marks.old → Blank n marks.new }
{
    // By the case byte: an enum with a conversion would say each case twice.
    match here.texts.tree[here.at] {
        0 => operations::include(here, scratch, out, sink),
        1 => declarations::qubit_decl(here, scratch, out, sink),
        2 => declarations::bit_decl(here, scratch, out, sink),
        3 => declarations::classical_decl(here, scratch, out, sink),
        4 => declarations::assignment(here, scratch, out, sink),
        5 => operations::gate_call(here, keys, scratch, out, marks, sink),
        7 => declarations::function_def(here, scratch, out, sink),
        8 => operations::measure(here, keys, scratch, out, marks, sink),
        9 => operations::reset(here, keys, scratch, out, marks, sink),
        10 => operations::barrier(here, keys, scratch, out, marks, sink),
        _ => operations::delay(here, keys, scratch, out, marks, sink),
    }
}

// Puts the keys of a measure statement into the index: how many there are then, or None where they are too many.
fn keys_with(here: StmtAt<'_>, index: &mut Index, scratch: &[u8], keys: usize) -> Option<usize>
    requires { Indexed index.old keys × (65536 ≤ length scratch.now) × (is_plain (get_or here.texts.tree.now here.at 0) ≡ true) }
    ensures added { Grown index.new result (stmt_keys (stmt (texts_of here.entry.texts.tree.now) here.entry.left here.entry.texts.tree.now here.entry.at) (scopes_of scratch.now (9 - here.entry.left)) (keys_in index.old keys)) }
    ensures index { length index.new ≡ length index.old }
{
    // A measure statement, by the case byte, as the matches.
    if here.texts.tree[here.at] == 8 {
        return operations::add_keys(here.texts.tree, index, scratch, keys, here.left, here.at);
    }
    Some(keys)
}

// Such a statement, its keys first. Where they are too many, nothing more is done.
fn keyed_stmt(
    here: StmtAt<'_>,
    index: &mut Index,
    scratch: &mut [u8],
    out: &mut [u8],
    keys: usize,
    marks: &mut [u16; 256],
    sink: Sink,
) -> Option<Step>
    requires { StmtAsked here.texts.tree.now index.old here.left (record { at = here.at; sink = sink; keys = keys; marks = marks.old }) scratch.old × (is_plain (get_or here.texts.tree.now here.at 0) ≡ true) }
    ensures { StmtWent here.entry.texts.tree.now here.entry.left (record { at = here.entry.at; sink = sink; keys = keys; marks = marks.old }) index.old scratch.old out.old (stepped result marks.new) index.new scratch.new out.new }
{
    let count = keys_with(here, index, scratch, keys)?;
    let a = plain_stmt(here, &index[..count], scratch, out, marks, sink);
    Some(Step {
        next: a.next,
        sink: a.sink,
        keys: count,
    })
}

// A statement with statements in it.
#[cycle(stmts)]
fn body_stmt(
    texts: Texts<'_>,
    index: &mut Index,
    scratch: &mut [u8],
    out: &mut [u8],
    left: usize,
    st: &State,
) -> Option<State>
    requires { StmtAsked texts.tree.now index.old left st.now scratch.old × (is_plain (get_or texts.tree.now st.now.at 0) ≡ false) }
    ensures { StmtWent texts.entry.tree.now left st.now index.old scratch.old out.old result index.new scratch.new out.new }
{
    let at = st.at;
    // By the case byte: an enum with a conversion would say each case twice.
    match texts.tree[at] {
        6 => gate_def(texts, index, scratch, out, left, st),
        12 => branch(texts, index, scratch, out, left, st),
        13 => for_loop(texts, index, scratch, out, left, st),
        _ => while_loop(texts, index, scratch, out, left, st),
    }
}

// A body: statements behind their two-byte count. In the loop, place and listing are kept beside the state: they are in registers then.
#[cycle(stmts)]
pub fn analyze_stmts(
    texts: Texts<'_>,
    index: &mut Index,
    scratch: &mut [u8],
    out: &mut [u8],
    left: usize,
    st: State,
) -> Option<State>
    requires { BodyAsked texts.tree.now index.old left st scratch.old }
    ensures { BodyWent texts.entry.tree.now left st index.old scratch.old out.old result index.new scratch.new out.new }
{
    let at = st.at;
    let n = u16_at(texts.tree, at);
    let mut s = st;
    let mut k = at + 2;
    let mut sink = s.sink;
    for _ in 0..n {
        if is_plain(texts.tree[k]) {
            let here = StmtAt { texts, left, at: k };
            let keys = s.keys;
            let a = keyed_stmt(here, index, scratch, out, keys, &mut s.marks, sink)?;
            sink = a.sink;
            k = a.next;
            s.keys = a.keys;
        } else {
            s.at = k;
            s.sink = sink;
            s = body_stmt(texts, index, scratch, out, left, &s)?;
            sink = s.sink;
            k = s.at;
        }
    }
    s.at = k;
    s.sink = sink;
    Some(s)
}
