// Tests of the values of an operand and of a symbol.
ghost use Rattle.std.specs.Prelude.{◌≡◌, ◌&&◌, ◌||◌};
ghost use Rattle.sema.specs.Messages.{a_qubit};
ghost use Rattle.sema.specs.Operands as sema;
ghost use Rattle.context.specs.Values.{number_of, ends_of, kind_of};
ghost use Rattle.lines.specs.Values.{expected_of};

use context::{GateOperand, SymbolKind};
use lines::Expected;

// Has the operand an index or a slice?
fn is_subscripted(op: GateOperand) -> bool
    ensures { result ≡ (sema.is_some (number_of op.index) || sema.is_some (ends_of op.slice)) }
{
    op.index.is_some() || op.slice.is_some()
}

#[tactic(auto, unfolding(sema::specs::Operands::is_gate_qubit))]
fn is_gate_qubit(kind: SymbolKind) -> bool
    ensures { result ≡ sema.is_gate_qubit (kind_of kind) }
{
    kind == SymbolKind::GateQubit
}

// A gate qubit is a single wire.
pub fn indexes_wire(op: GateOperand, kind: SymbolKind) -> bool
    ensures { result ≡ (sema.is_gate_qubit (kind_of kind) && (sema.is_some (number_of op.index) || sema.is_some (ends_of op.slice))) }
{
    is_gate_qubit(kind) && is_subscripted(op)
}

#[tactic(auto, unfolding(sema::specs::Operands::fits))]
fn is_qubit(kind: SymbolKind) -> bool
    ensures { result ≡ sema.fits a_qubit (kind_of kind) }
{
    matches!(kind, SymbolKind::Qubit | SymbolKind::GateQubit)
}

// What goes for a qubit, and for a bit.
pub fn fits(expected: Expected, kind: SymbolKind) -> bool
    ensures { result ≡ sema.fits (expected_of expected) (kind_of kind) }
{
    match expected {
        Expected::Qubit => is_qubit(kind),
        Expected::Bit => context::is_bit(kind),
    }
}
