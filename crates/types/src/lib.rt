// The rules on classical types.
#![tactic(auto)]

ghost use Rattle.std.specs.Prelude.{◌≡◌, ◌<◌};
ghost use Rattle.types.specs.Types.{number_of, assignable_to, numeric, rank_of, arithmetic_of};

use ast::ClassicalType;

// Row the expected type, column the actual one, both in the order int, uint, float, angle, bool.
const ASSIGNABLE: [[bool; 5]; 5] = [
    [true, false, false, false, false],
    [true, true, false, false, false],
    [true, true, true, false, false],
    [true, true, true, true, false],
    [false, false, false, false, true],
];

// The number of a type, as in a tree file. By `as`, since a match would say the order of the cases once more.
// A name of its own and no `From`: it says which number it is.
pub fn number(ty: ClassicalType) -> u8
    ensures { (result ≡ number_of ty) × (result < 5) }
{
    ty as u8
}

pub fn assignable(expected: ClassicalType, actual: ClassicalType) -> bool
    ensures { result ≡ assignable_to expected actual }
{
    let row = usize::from(number(expected));
    let column = usize::from(number(actual));
    ASSIGNABLE[row][column]
}

pub fn is_numeric(ty: ClassicalType) -> bool
    ensures { result ≡ numeric ty }
{
    match ty {
        ClassicalType::Int | ClassicalType::UInt | ClassicalType::Float | ClassicalType::Angle =>
            true,
        ClassicalType::Bool => false,
    }
}

fn rank(ty: ClassicalType) -> u8
    ensures { result ≡ rank_of ty }
{
    match ty {
        ClassicalType::UInt | ClassicalType::Bool => 0,
        ClassicalType::Int => 1,
        ClassicalType::Float => 2,
        ClassicalType::Angle => 3,
    }
}

#[tactic(auto, unfolding(crate::specs::Types::arithmetic_of))]
pub fn arithmetic_type(lhs: ClassicalType, rhs: ClassicalType) -> Option<ClassicalType>
    ensures { result ≡ arithmetic_of lhs rhs }
{
    if !is_numeric(lhs) || !is_numeric(rhs) {
        return None;
    }
    if rank(lhs) < rank(rhs) {
        Some(rhs)
    } else {
        Some(lhs)
    }
}
