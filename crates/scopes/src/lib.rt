// What statements do to the scopes in the scratch: declarations, and the scopes that bodies begin with. The callers have seen the whole
// file accepted, so that names are numbers below 256. Parameters and clauses are plain, as those of tables and of accepted.
#![tactic(auto)]

ghost use Rattle.std.specs.Prelude.{◌≡◌, [], ◌∷◌, map, ℕ, suc, ◌≤◌, ◌<◌, length, get_or};
ghost use Rattle.std.proofs.Math.Option.{none};
ghost use Rattle.tree.specs.Ans.{IsOk};
ghost use Rattle.tree.specs.Read.{option, vec};
ghost use Rattle.tree.specs.Exprs.{name};
ghost use Rattle.tree.specs.Stmts.{qualifier, param, stmt};
ghost use Rattle.tree.specs.Decode.{texts_of};
ghost use Rattle.sema.specs.Symbols.{get_current, declare, decl_kind, gate_scope, function_scope, loop_scope};
ghost use Rattle.context.specs.Values.{kind_of, number_of, found_of};
ghost use Rattle.context.specs.View.{type_of, scopes_of, gates_of, functions_of};
ghost use Rattle.tables.specs.Tables.{Becomes};
ghost use Rattle.accepted.specs.Parts.{value_or};
ghost use Rattle.scopes.specs.Scopes.{register_kind, qualified_of, Declares, named, typed, into};

use accepted::exprs::skip_option_expr;
use accepted::numbers::{span_at, u16_at};
use accepted::operands::number_at;
use accepted::parts::skip_qualifier;
use ast::{ClassicalQualifier, ClassicalType};
use context::{Symbol, SymbolKind};
use span::Span;

// What a declaration declares, and the place past it.
#[derive(Clone, Copy)]
pub struct Declaration {
    pub name: usize,
    pub symbol: Symbol,
    pub end: usize,
}

// The first declaration of a scope stays: the one that was there is the answer.
pub fn declare(scratch: &mut [u8], depth: usize, x: usize, symbol: Symbol) -> Option<Symbol>
    requires { (65536 ≤ length scratch.old) × (0 < depth) × (depth ≤ 9) × (x < 256) }
    ensures found { found_of result ≡ get_current (scopes_of scratch.old depth) x }
    ensures becomes { Becomes scratch.old scratch.new depth (declare (scopes_of scratch.old depth) x (kind_of symbol.kind) (number_of symbol.size) symbol.decl_span) (gates_of scratch.old) (functions_of scratch.old) }
    ensures below { (d : ℕ) → d < depth → scopes_of scratch.new d ≡ scopes_of scratch.old d }
{
    let prev = tables::get_current(scratch, depth, x);
    if prev.is_none() {
        tables::insert(scratch, depth, x, symbol);
    }
    prev
}

// A type by its case byte.
pub fn type_at(tree: &[u8], at: usize) -> ClassicalType
    requires { at < length tree.now }
    ensures { result ≡ type_of (get_or tree.now at 0) }
{
    tables::type_of(tree[at])
}

// A qualifier, where there is one.
#[tactic(auto, using(crate::proofs::Declaring::qualifiers))]
pub fn qualifier_at(tree: &[u8], at: usize) -> Option<ClassicalQualifier>
    requires { IsOk (option qualifier tree.now at) }
    ensures { qualified_of result ≡ value_or none (option qualifier tree.now at) }
{
    if tree[at] == 0 {
        return None;
    }
    // An accepted byte, total: TryFrom would add an error that no accepted byte gives.
    match tree[at + 1] {
        0 => Some(ClassicalQualifier::Const),
        1 => Some(ClassicalQualifier::Input),
        _ => Some(ClassicalQualifier::Output),
    }
}

// A register of this kind.
#[tactic(auto, using(crate::proofs::Declaring::registers))]
fn register(tree: &[u8], at: usize, left: usize, kind: SymbolKind) -> Declaration
    requires { IsOk (stmt (texts_of tree.now) left tree.now at) × (0 < get_or tree.now at 0) × (get_or tree.now at 0 < 3) × (kind_of kind ≡ register_kind (get_or tree.now at 0)) }
    ensures { Declares (texts_of tree.now) (stmt (texts_of tree.now) left tree.now at) result }
{
    let name = u16_at(tree, at + 1);
    let size = number_at(tree, at + 3);
    let decl_span = span_at(tree, size.next);
    Declaration {
        name,
        symbol: Symbol {
            kind,
            size: size.value,
            decl_span,
        },
        end: size.next + 8,
    }
}

// The kind of a classical declaration by its qualifier.
#[tactic(auto, unfolding(sema::specs::Symbols::decl_kind))]
fn decl_kind(q: Option<ClassicalQualifier>, ty: ClassicalType) -> SymbolKind
    ensures { kind_of result ≡ decl_kind (qualified_of q) ty }
{
    match q {
        Some(ClassicalQualifier::Const) => SymbolKind::Const(ty),
        _ => SymbolKind::Classical(ty),
    }
}

#[tactic(auto, using(crate::proofs::Declaring::classical))]
fn classical_decl(tree: &[u8], at: usize, left: usize) -> Declaration
    requires { IsOk (stmt (texts_of tree.now) left tree.now at) × (get_or tree.now at 0 ≡ 3) }
    ensures { Declares (texts_of tree.now) (stmt (texts_of tree.now) left tree.now at) result }
{
    let k = skip_qualifier(tree, at + 1);
    let kind = decl_kind(qualifier_at(tree, at + 1), type_at(tree, k));
    let name = u16_at(tree, k + 1);
    let end = skip_option_expr(tree, k + 3);
    let decl_span = span_at(tree, end);
    Declaration {
        name,
        symbol: Symbol {
            kind,
            size: None,
            decl_span,
        },
        end: end + 8,
    }
}

// What a statement declares: QubitDecl, BitDecl or ClassicalDecl.
pub fn declaration_at(tree: &[u8], at: usize, left: usize) -> Declaration
    requires { IsOk (stmt (texts_of tree.now) left tree.now at) × (0 < get_or tree.now at 0) × (get_or tree.now at 0 < 4) }
    ensures { Declares (texts_of tree.now) (stmt (texts_of tree.now) left tree.now at) result }
{
    // By the case byte: an enum with a conversion would say each case twice.
    match tree[at] {
        1 => register(tree, at, left, SymbolKind::Qubit),
        2 => register(tree, at, left, SymbolKind::Bit),
        _ => classical_decl(tree, at, left),
    }
}

// A Vec of names into the innermost scope. Beside `insert_params`: names and parameters differ in stride and kind, and one
// function that takes both as parameters is no plainer. By places, as all of the tree is read: over chunks a number would stand in
// a slice of its own.
#[tactic(auto, using(crate::proofs::Filling::names))]
fn insert_names(
    tree: &[u8],
    scratch: &mut [u8],
    depth: usize,
    at: usize,
    kind: SymbolKind,
    span: Span,
)
    requires { (65536 ≤ length scratch.old) × (0 < depth) × (depth ≤ 9) × (length (texts_of tree.now) ≤ 256) × IsOk (vec (name (texts_of tree.now)) tree.now at) }
    ensures { Becomes scratch.old scratch.new depth (into (scopes_of scratch.old depth) (map (named (kind_of kind) span) (value_or [] (vec (name (texts_of tree.now)) tree.now at)))) (gates_of scratch.old) (functions_of scratch.old) }
{
    let symbol = Symbol {
        kind,
        size: None,
        decl_span: span,
    };
    let mut k = at + 1;
    for _ in 0..tree[at] {
        let x = u16_at(tree, k);
        tables::insert(scratch, depth, x, symbol);
        k += 2;
    }
}

// The scope of a gate's body: its parameters, then its qubits.
pub fn enter_gate(
    tree: &[u8],
    scratch: &mut [u8],
    depth: usize,
    at: usize,
    qubits_at: usize,
    span: Span,
)
    requires { (65536 ≤ length scratch.old) × (depth < 9) × (length (texts_of tree.now) ≤ 256) × IsOk (vec (name (texts_of tree.now)) tree.now at) × IsOk (vec (name (texts_of tree.now)) tree.now qubits_at) }
    ensures { Becomes scratch.old scratch.new (suc depth) (gate_scope (value_or [] (vec (name (texts_of tree.now)) tree.now at)) (value_or [] (vec (name (texts_of tree.now)) tree.now qubits_at)) span ∷ scopes_of scratch.old depth) (gates_of scratch.old) (functions_of scratch.old) }
{
    tables::enter(scratch, depth);
    insert_names(tree, scratch, depth + 1, at, SymbolKind::GateParam, span);
    insert_names(
        tree,
        scratch,
        depth + 1,
        qubits_at,
        SymbolKind::GateQubit,
        span,
    );
}

// A Vec of parameters into the innermost scope; beside `insert_names`, as said there.
#[tactic(auto, using(crate::proofs::Filling::params))]
fn insert_params(tree: &[u8], scratch: &mut [u8], depth: usize, at: usize, span: Span)
    requires { (65536 ≤ length scratch.old) × (0 < depth) × (depth ≤ 9) × (length (texts_of tree.now) ≤ 256) × IsOk (vec (param (texts_of tree.now)) tree.now at) }
    ensures { Becomes scratch.old scratch.new depth (into (scopes_of scratch.old depth) (map (typed span) (value_or [] (vec (param (texts_of tree.now)) tree.now at)))) (gates_of scratch.old) (functions_of scratch.old) }
{
    let mut k = at + 1;
    for _ in 0..tree[at] {
        let ty = type_at(tree, k);
        let x = u16_at(tree, k + 1);
        let symbol = Symbol {
            kind: SymbolKind::Classical(ty),
            size: None,
            decl_span: span,
        };
        tables::insert(scratch, depth, x, symbol);
        k += 3;
    }
}

// The scope of a function's body: its parameters.
pub fn enter_function(tree: &[u8], scratch: &mut [u8], depth: usize, at: usize, span: Span)
    requires { (65536 ≤ length scratch.old) × (depth < 9) × (length (texts_of tree.now) ≤ 256) × IsOk (vec (param (texts_of tree.now)) tree.now at) }
    ensures { Becomes scratch.old scratch.new (suc depth) (function_scope (value_or [] (vec (param (texts_of tree.now)) tree.now at)) span ∷ scopes_of scratch.old depth) (gates_of scratch.old) (functions_of scratch.old) }
{
    tables::enter(scratch, depth);
    insert_params(tree, scratch, depth + 1, at, span);
}

// The scope of a `for` body: the loop variable.
pub fn enter_loop(scratch: &mut [u8], depth: usize, x: usize, ty: ClassicalType, span: Span)
    requires { (65536 ≤ length scratch.old) × (depth < 9) × (x < 256) }
    ensures { Becomes scratch.old scratch.new (suc depth) (loop_scope x ty span ∷ scopes_of scratch.old depth) (gates_of scratch.old) (functions_of scratch.old) }
{
    tables::enter(scratch, depth);
    let symbol = Symbol {
        kind: SymbolKind::Classical(ty),
        size: None,
        decl_span: span,
    };
    tables::insert(scratch, depth + 1, x, symbol);
}
