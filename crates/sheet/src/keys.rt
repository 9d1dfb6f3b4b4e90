// What an operand says of keys.
ghost use Rattle.std.specs.Prelude.{◌≡◌};
ghost use Rattle.sema.specs.Marks.{in_slice, below_size};
ghost use Rattle.context.specs.Values.{number_of, ends_of};
ghost use Rattle.sheet.specs.Sheet.{reached};

use context::{GateOperand, Key};

// It is an index of the slice.
#[tactic(auto, unfolding(sema::specs::Marks::in_slice))]
pub(crate) fn is_within(index: Option<u64>, ends: (u64, u64)) -> bool
    ensures { result ≡ in_slice ends (number_of index) }
{
    let (a, b) = ends;
    index.is_some_and(|i| (a..=b).contains(&i))
}

// It is a name alone, or an index below the size.
#[tactic(auto, unfolding(sema::specs::Marks::below_size))]
pub(crate) fn is_below(key: Key, size: Option<u64>) -> bool
    ensures { result ≡ below_size (number_of size) (number_of key.index) }
{
    match key.index {
        Some(i) => size.is_some_and(|n| i < n),
        None => true,
    }
}

// Of the keys of its name an operand reaches its index, or those of its slice; where it is a name alone, `whole` says so.
#[tactic(auto, unfolding(crate::specs::Sheet::reached, sema::specs::Marks::is_index))]
pub(crate) fn is_reached(op: GateOperand, key: Key, whole: bool) -> bool
    ensures { result ≡ reached (ends_of op.slice) (number_of op.index) (number_of key.index) whole }
{
    match (op.slice, op.index) {
        (Some(ends), _) => is_within(key.index, ends),
        (None, Some(_)) => key.index == op.index,
        (None, None) => whole,
    }
}
