// The wording's names of types, kinds and places.
ghost use Rattle.std.specs.Prelude.{◌++◌};
ghost use Rattle.text.specs.Text.{text};
ghost use Rattle.types.specs.Names as types;
ghost use Rattle.sema.specs.Messages.{expected_name, kind_name, context_name};
ghost use Rattle.context.specs.Values.{kind_of};
ghost use Rattle.lines.specs.Stored.{Shown};
ghost use Rattle.lines.specs.Values.{expected_of, place_of};

use super::{Expected, Place};
use ast::ClassicalType;
use context::SymbolKind;

// A type's name is the end of its constant's: without a heap nothing is joined.
pub fn type_name(ty: ClassicalType) -> &'static [u8]
    ensures { Shown result.now (types.name_of ty) 16 }
{
    &const_name(ty)[b"const ".len()..]
}

#[tactic(auto, unfolding(types::specs::Names::name_of))]
pub fn const_name(ty: ClassicalType) -> &'static [u8]
    ensures { Shown result.now (text "const " ++ types.name_of ty) 16 }
{
    match ty {
        ClassicalType::Int => b"const int",
        ClassicalType::UInt => b"const uint",
        ClassicalType::Float => b"const float",
        ClassicalType::Angle => b"const angle",
        ClassicalType::Bool => b"const bool",
    }
}

#[tactic(auto, unfolding(sema::specs::Messages::kind_name))]
pub fn kind_name(kind: SymbolKind) -> &'static [u8]
    ensures { Shown result.now (kind_name (kind_of kind)) 16 }
{
    match kind {
        SymbolKind::Qubit => b"qubit",
        SymbolKind::Bit => b"bit",
        SymbolKind::Classical(ty) => type_name(ty),
        SymbolKind::Const(ty) => const_name(ty),
        SymbolKind::GateParam => b"gate parameter",
        SymbolKind::GateQubit => b"gate qubit",
    }
}

#[tactic(auto, unfolding(sema::specs::Messages::expected_name))]
pub fn expected_name(expected: Expected) -> &'static [u8]
    ensures { Shown result.now (expected_name (expected_of expected)) 16 }
{
    match expected {
        Expected::Qubit => b"qubit",
        Expected::Bit => b"bit",
    }
}

#[tactic(auto, unfolding(sema::specs::Messages::context_name))]
pub fn place_name(place: Place) -> &'static [u8]
    ensures { Shown result.now (context_name (place_of place)) 32 }
{
    match place {
        Place::IfCondition => b"if condition",
        Place::WhileCondition => b"while condition",
        Place::RangeBound => b"for-loop range bound",
        Place::RangeStep => b"for-loop range step",
        Place::ControlArgument => b"control modifier argument",
    }
}
