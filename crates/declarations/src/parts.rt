// The parts of an assignment and of a function definition, as their bytes say.
ghost use Rattle.std.specs.Prelude.{◌≡◌, ◌<◌, length, get_or};
ghost use Rattle.accepted.specs.Cases.{assign_op_of};
ghost use Rattle.declarations.specs.Checked.{FunctionAt};

use accepted::exprs::skip_expr;
use accepted::numbers::{span_at, u16_at};
use accepted::parts::skip_params;
use ast::{AssignOp, ClassicalType};
use context::{StmtAt, Typing};
use scopes::type_at;
use span::Span;

// A function definition: the places of its parameters, of its expression (`body`), and past the statement (`end`).
#[derive(Clone, Copy)]
pub struct Function {
    pub name: usize,
    pub params: usize,
    pub return_type: ClassicalType,
    pub body: usize,
    pub span: Span,
    pub end: usize,
}

// An assignment whose value is checked.
#[derive(Clone, Copy)]
pub struct Assignment {
    pub name: usize,
    pub op: AssignOp,
    pub value: Typing,
    pub span: Span,
}

// The operation of an assignment.
pub fn assign_op_at(tree: &[u8], at: usize) -> AssignOp
    requires { at < length tree.now }
    ensures { result ≡ assign_op_of (get_or tree.now at 0) }
{
    // An accepted byte, total: TryFrom would add an error that no accepted byte gives.
    match tree[at] {
        1 => AssignOp::AddAssign,
        2 => AssignOp::SubAssign,
        _ => AssignOp::Assign,
    }
}

#[tactic(auto, using(crate::proofs::Functions::functions))]
pub fn function_at(here: StmtAt<'_>) -> Function
    requires { get_or here.texts.tree.now here.at 0 ≡ 7 }
    ensures { FunctionAt here.entry.texts.tree.now here.entry.left here.entry.at result }
{
    let tree = here.texts.tree;
    let at = here.at;
    let k = skip_params(tree, at + 3);
    let m = skip_expr(tree, k + 1, 32);
    let name = u16_at(tree, at + 1);
    let return_type = type_at(tree, k);
    let span = span_at(tree, m);
    Function {
        name,
        params: at + 3,
        return_type,
        body: k + 1,
        span,
        end: m + 8,
    }
}
