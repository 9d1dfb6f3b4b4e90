// The symbols, gates and functions that a walk has met, as tables in the lent scratch. The layout is that of the context's views. The
// walk lends a scratch of at least 65,536 bytes, names texts by numbers below 256, and has at most 9 scopes. These are clauses and no
// types: a name is read from the file as two bytes, so a narrower type would need a cast at each; the scratch is lent, and what is known
// of it goes by value beside it.
// A caller in C lends plain bytes, so the entries are bytes and not structs.
#![tactic(auto)]

ghost use Rattle.std.specs.Prelude.{◌≡◌, ◌+◌, ◌-◌, ◌*◌, ◌≤◌, ◌<◌, [], length, get_or, set};
ghost use Rattle.std.proofs.lemmas.List.Edits.{sets};
ghost use Rattle.tree.specs.Fits.{NumberFits, SpanFits, OptionFits};
ghost use Rattle.sema.specs.Messages.{Qubit};
ghost use Rattle.sema.specs.Symbols.{get, get_current};
ghost use Rattle.sema.specs.Marks.{size_of as sizeIn};
ghost use Rattle.context.specs.Values.{kind_of, number_of as size_of, symbol_of, found_of, gate_of, found_gate_of};
ghost use Rattle.context.specs.View.{number_at, type_of, kinds, size_by, symbol_at, code_place, symbol_place, scopes_of, gates_of, functions_of};
ghost use Rattle.tables.specs.Entries.{SymbolFits, code_of, span_bytes, size_bytes, symbol_bytes, gate_bytes, type_bytes, function_bytes};
ghost use Rattle.tables.specs.Tables.{Inserted, Entered, Begun, GateDefined, FunctionDefined, brief_of, params_of, FewParams, function_in, cleared};

use accepted::numbers::{span_at, u64_at};
use ast::ClassicalType;
use context::{FunctionSig, GateSig, Symbol, SymbolKind};
use span::Span;

// Of a level, the codes' bytes and then the entries.
const CODES: usize = 256;

const SYMBOL: usize = 17;

const LEVEL: usize = CODES + 256 * SYMBOL;

// Behind the levels, the gates, and then the functions.
const GATES: usize = 9 * LEVEL;

const GATE: usize = 11;

const FUNCTIONS: usize = GATES + 256 * GATE;

const FUNCTION: usize = 27;

const END: usize = FUNCTIONS + 256 * FUNCTION;

// The scratch that a walk is lent.
const SCRATCH: usize = 65536;

fn store_span(s: &mut [u8], at: usize, sp: Span)
    requires { at + 8 ≤ length s.old }
    ensures { (s.new ≡ sets s.old at (span_bytes sp)) × SpanFits sp }
{
    s[at..at + 4].copy_from_slice(&sp.start.to_be_bytes());
    s[at + 4..at + 8].copy_from_slice(&sp.end.to_be_bytes());
}

// The type with a number. Total: a TryFrom would add an error that no stored byte gives. A name of its own and no `From`: it says which
// number it is.
pub fn type_of(n: u8) -> ClassicalType
    ensures { result ≡ type_of n }
{
    match n {
        1 => ClassicalType::UInt,
        2 => ClassicalType::Float,
        3 => ClassicalType::Angle,
        4 => ClassicalType::Bool,
        _ => ClassicalType::Int,
    }
}

// The kind with a code. No code above 14 is ever stored, so a TryFrom would add an error that no stored byte gives.
#[tactic(auto, using(crate::proofs::Codes::kind_classical, crate::proofs::Codes::kind_const))]
fn kind_of(code: u8) -> SymbolKind
    requires { 0 < code }
    ensures { kind_of result ≡ get_or kinds (code - 1) Qubit }
{
    match code {
        2 => SymbolKind::Bit,
        3..=7 => SymbolKind::Classical(type_of(code - 3)),
        8..=12 => SymbolKind::Const(type_of(code - 8)),
        13 => SymbolKind::GateParam,
        14 => SymbolKind::GateQubit,
        _ => SymbolKind::Qubit,
    }
}

// The codes are the layout of the entries here: a `From` would not say which number it is.
fn kind_code(kind: SymbolKind) -> u8
    ensures { result ≡ code_of (kind_of kind) }
{
    match kind {
        SymbolKind::Qubit => 1,
        SymbolKind::Bit => 2,
        SymbolKind::Classical(ty) => 3 + types::number(ty),
        SymbolKind::Const(ty) => 8 + types::number(ty),
        SymbolKind::GateParam => 13,
        SymbolKind::GateQubit => 14,
    }
}

fn size_at(s: &[u8], at: usize) -> Option<u64>
    requires { at + 9 ≤ length s.now }
    ensures { size_of result ≡ size_by (get_or s.now at 0) (number_at 8 s.now (at + 1)) }
{
    (s[at] != 0).then(|| u64_at(s, at + 1))
}

fn store_size(s: &mut [u8], at: usize, size: Option<u64>)
    requires { at + 9 ≤ length s.old }
    ensures { (s.new ≡ sets s.old at (size_bytes (size_of size))) × OptionFits (NumberFits 8) (size_of size) }
{
    match size {
        Some(n) => {
            s[at] = 1;
            s[at + 1..at + 9].copy_from_slice(&n.to_be_bytes());
        }
        None => s[at..at + 9].fill(0),
    }
}

fn symbol_at(s: &[u8], level: usize, x: usize) -> Option<Symbol>
    requires { (65536 ≤ length s.now) × (level < 9) × (x < 256) }
    ensures { found_of result ≡ symbol_at s.now level x }
{
    let base = level * LEVEL;
    let code = s[base + x];
    if code == 0 {
        return None;
    }
    let at = base + CODES + x * SYMBOL;
    let entry = &s[at..at + SYMBOL]; // from a part of its own, the compiler reads a number by one load
    Some(Symbol {
        kind: kind_of(code),
        size: size_at(entry, 0),
        decl_span: span_at(entry, 9),
    })
}

#[tactic(auto, using(crate::proofs::Stores::symbol_stored))]
fn store_symbol(s: &mut [u8], level: usize, x: usize, sym: Symbol)
    requires { (65536 ≤ length s.old) × (level < 9) × (x < 256) }
    ensures { (s.new ≡ sets (set s.old (code_place level x) (code_of (kind_of sym.kind))) (symbol_place level x) (symbol_bytes (symbol_of sym))) × SymbolFits (symbol_of sym) }
{
    let base = level * LEVEL;
    let at = base + CODES + x * SYMBOL;
    s[base + x] = kind_code(sym.kind);
    store_size(s, at, sym.size);
    store_span(s, at + 9, sym.decl_span);
}

// The symbol of a name in the innermost scope that has one.
pub fn get(scratch: &[u8], depth: usize, x: usize) -> Option<Symbol>
    requires { (65536 ≤ length scratch.now) × (depth ≤ 9) × (x < 256) }
    ensures { found_of result ≡ get (scopes_of scratch.now depth) x }
{
    (0..depth)
        .rev()
        .find_map(|level| symbol_at(scratch, level, x))
}

// The symbol of a name in the innermost scope. Most names have none there: the code is looked at before a symbol is read.
#[tactic(auto, using(crate::proofs::Views::current_none, crate::proofs::Views::current_at))]
pub fn get_current(scratch: &[u8], depth: usize, x: usize) -> Option<Symbol>
    requires { (65536 ≤ length scratch.now) × (0 < depth) × (depth ≤ 9) × (x < 256) }
    ensures { found_of result ≡ get_current (scopes_of scratch.now depth) x }
{
    let level = depth - 1;
    if scratch[level * LEVEL + x] == 0 {
        return None;
    }
    symbol_at(scratch, level, x)
}

// The size of the symbol that a name shows.
#[tactic(auto, unfolding(sema::specs::Marks::size_of))]
pub fn size_of(scratch: &[u8], depth: usize, x: usize) -> Option<u64>
    requires { (65536 ≤ length scratch.now) × (depth ≤ 9) × (x < 256) }
    ensures { size_of result ≡ sizeIn (get (scopes_of scratch.now depth) x) }
{
    get(scratch, depth, x)?.size
}

// Gives a name a symbol in the innermost scope.
pub fn insert(scratch: &mut [u8], depth: usize, x: usize, sym: Symbol)
    requires { (65536 ≤ length scratch.old) × (0 < depth) × (depth ≤ 9) × (x < 256) }
    ensures { Inserted scratch.old scratch.new depth x (symbol_of sym) }
{
    store_symbol(scratch, depth - 1, x, sym);
}

// An empty scope within the others. It is left by counting one less.
pub fn enter(scratch: &mut [u8], depth: usize)
    requires { (65536 ≤ length scratch.old) × (depth < 9) }
    ensures { Entered scratch.old scratch.new depth }
{
    let at = depth * LEVEL;
    scratch[at..at + CODES].fill(0);
}

#[tactic(auto, using(crate::proofs::Views::gate_none, crate::proofs::Views::gate_some))]
pub fn gate(scratch: &[u8], x: usize) -> Option<GateSig>
    requires { (65536 ≤ length scratch.now) × (x < 256) }
    ensures { found_gate_of result ≡ gates_of scratch.now x }
{
    let at = GATES + x * GATE;
    if scratch[at] == 0 {
        return None;
    }
    Some(GateSig {
        param_count: scratch[at + 1],
        qubit_count: scratch[at + 2],
        decl_span: span_at(scratch, at + 3),
    })
}

fn store_gate(s: &mut [u8], at: usize, sig: GateSig)
    requires { at + 11 ≤ length s.old }
    ensures { (s.new ≡ sets s.old at (gate_bytes (gate_of sig))) × SpanFits sig.decl_span }
{
    s[at] = 1;
    s[at + 1] = sig.param_count;
    s[at + 2] = sig.qubit_count;
    store_span(s, at + 3, sig.decl_span);
}

pub fn define_gate(scratch: &mut [u8], x: usize, sig: GateSig)
    requires { (65536 ≤ length scratch.old) × (x < 256) }
    ensures { GateDefined scratch.old scratch.new x (gate_of sig) }
{
    store_gate(scratch, GATES + x * GATE, sig);
}

#[tactic(auto, using(crate::proofs::Views::function_none, crate::proofs::Views::function_some))]
pub fn function(scratch: &[u8], x: usize) -> Option<FunctionSig>
    requires { (65536 ≤ length scratch.now) × (x < 256) }
    ensures { result ≡ brief_of (functions_of scratch.now x) }
{
    let at = FUNCTIONS + x * FUNCTION;
    if scratch[at] == 0 {
        return None;
    }
    Some(FunctionSig {
        param_count: scratch[at + 2],
        return_type: type_of(scratch[at + 1]),
        decl_span: span_at(scratch, at + 3),
    })
}

// The type of a function's parameter; `function` says how many there are.
#[tactic(auto, using(crate::proofs::Views::param_read))]
pub fn param_type(scratch: &[u8], x: usize, i: usize) -> ClassicalType
    requires { (65536 ≤ length scratch.now) × (x < 256) × (i < length (params_of (functions_of scratch.now x))) }
    ensures { result ≡ get_or (params_of (functions_of scratch.now x)) i ClassicalType.Int }
{
    type_of(scratch[FUNCTIONS + x * FUNCTION + 11 + i])
}

// Copies the type bytes of so many parameters from the tree, every third byte. By number: after a zip with iter_mut is over, a proof
// knows nothing of what was stored.
fn store_types(s: &mut [u8], to: usize, tree: &[u8], at: usize, count: usize)
    requires { (to + count ≤ length s.old) × (at + 3 * count ≤ length tree.now) }
    ensures { s.new ≡ sets s.old to (type_bytes tree.now at count) }
{
    for i in 0..count {
        s[to + i] = tree[at + 3 * i];
    }
}

#[tactic(auto, using(crate::proofs::Stores::function_stored))]
fn store_function(s: &mut [u8], at: usize, sig: FunctionSig)
    requires { at + 11 ≤ length s.old }
    ensures { (s.new ≡ sets s.old at (function_bytes sig.return_type sig.decl_span sig.param_count [])) × SpanFits sig.decl_span }
{
    s[at] = 1;
    s[at + 1] = types::number(sig.return_type);
    s[at + 2] = sig.param_count;
    store_span(s, at + 3, sig.decl_span);
}

// Its parameters stand in the tree from `at` on: a type byte and a text number of two bytes each. The walk has read them, and defines
// functions by this alone, so none has more than 16.
pub fn define_function(scratch: &mut [u8], tree: &[u8], x: usize, at: usize, sig: FunctionSig)
    requires { (65536 ≤ length scratch.old) × (x < 256) × (sig.param_count ≤ 16) × (at + 3 * sig.param_count ≤ length tree.now) × FewParams (functions_of scratch.old) }
    ensures { FunctionDefined scratch.old scratch.new x (function_in tree.now at sig.param_count sig.return_type sig.decl_span) }
{
    let entry = FUNCTIONS + x * FUNCTION;
    store_function(scratch, entry, sig);
    store_types(scratch, entry + 11, tree, at, usize::from(sig.param_count));
}

// Before a walk: one empty scope, no gates, no functions, whatever the scratch held.
pub fn begin(scratch: &mut [u8])
    requires { 65536 ≤ length scratch.old }
    ensures { Begun scratch.old scratch.new }
{
    enter(scratch, 0);
    scratch[GATES..END].fill(0);
}

// After a call.
pub fn clear(scratch: &mut [u8])
    requires { 65536 ≤ length scratch.old }
    ensures { scratch.new ≡ cleared scratch.old }
{
    scratch[..SCRATCH].fill(0);
}
