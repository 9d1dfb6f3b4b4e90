// Widths of operands, and whether two differ.
ghost use Rattle.std.specs.Prelude.{◌≡◌, List, ℕ};
ghost use Rattle.sema.specs.Operands.{slice_width, width_by};
ghost use Rattle.sema.specs.Stmts.{wide};
ghost use Rattle.context.specs.Values.{number_of, ends_of};
ghost use Rattle.operands.specs.Widths.{ahead, differ};

// Start > end, and a width beyond 2^64 - 1, have no width.
#[tactic(auto, unfolding(sema::specs::Operands::slice_width))]
fn slice_width(ends: (u64, u64)) -> Option<u64>
    ensures { number_of result ≡ slice_width ends }
{
    let (a, b) = ends;
    b.checked_sub(a)?.checked_add(1)
}

#[tactic(auto, unfolding(sema::specs::Operands::width_by))]
pub fn width_by(size: Option<u64>, slice: Option<(u64, u64)>, index: Option<u64>) -> Option<u64>
    ensures { number_of result ≡ width_by (number_of size) (ends_of slice) (number_of index) }
{
    if let Some(ends) = slice {
        return slice_width(ends);
    }
    if index.is_some() {
        return Some(1);
    }
    Some(size.unwrap_or(1))
}

// A width above 1.
#[tactic(auto, unfolding(sema::specs::Stmts::wide))]
pub fn above_one(width: Option<u64>) -> Option<u64>
    ensures { (ws : List ℕ) → ahead result ws ≡ wide (number_of width) ws }
{
    width.filter(|w| 1 < *w)
}

// Do a width that was met and one more differ?
pub fn differ(met: Option<u64>, width: Option<u64>) -> bool
    ensures { result ≡ differ met width }
{
    matches!((met, width), (Some(m), Some(w)) if w != m)
}
