// The plain enums of ast.rs, cases in the order of the source: a case's byte in the tree file is its place in this order.
#![tactic(auto)]

#[derive(Clone, Copy, Debug, PartialEq, Eq)]
pub enum ClassicalType {
    Int,
    UInt,
    Float,
    Angle,
    Bool,
}

#[derive(Clone, Copy, Debug, PartialEq, Eq)]
pub enum ClassicalQualifier {
    Const,
    Input,
    Output,
}

#[derive(Clone, Copy, Debug, PartialEq, Eq)]
pub enum AssignOp {
    Assign,
    AddAssign,
    SubAssign,
}

#[derive(Clone, Copy, Debug, PartialEq, Eq)]
pub enum BinOp {
    Add,
    Sub,
    Mul,
    Div,
    Pow,
}

#[derive(Clone, Copy, Debug, PartialEq, Eq)]
pub enum CompareOp {
    Eq,
    Ne,
    Lt,
    Le,
    Gt,
    Ge,
}

#[derive(Clone, Copy, Debug, PartialEq, Eq)]
pub enum ConstKind {
    Pi,
    Tau,
    Euler,
}
