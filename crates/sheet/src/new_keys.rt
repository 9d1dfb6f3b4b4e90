// Keys that are added to the index, as the walk meets measure statements.
ghost use Rattle.std.specs.Prelude.{◌≡◌, suc, ◌+◌, ◌-◌, ◌^◌, ◌≤◌, ◌<◌, None};
ghost use Rattle.std.proofs.Math.Option.{none};
ghost use Rattle.sema.specs.Constants.{or0};
ghost use Rattle.sema.specs.Marks.{key};
ghost use Rattle.sema.specs.Keys.{add_key, add_range, add_measured};
ghost use Rattle.context.specs.Values.{number_of, ends_of, key_of};
ghost use Rattle.context.specs.View.{keys_in};
ghost use Rattle.std.specs.List.{position};
ghost use Rattle.sheet.specs.Sheet.{Indexed, same, Grown};

use context::{GateOperand, Key};

// How many keys there may be.
const KEYS: usize = 256;

// The number of a key. Its index is compared first: most keys differ in it.
#[tactic(auto, using(crate::proofs::Adding::index_first))]
fn find(keys: &[Key], key: Key) -> Option<usize>
    ensures { result ≡ position (λ k. same k key) keys.now }
{
    keys.iter()
        .position(|k| k.index == key.index && k.name == key.name)
}

// A key more, if it is not there; None where there is no room, and the index is as it was.
// How many keys there are is state, and goes by value beside the index, which is lent.
#[tactic(auto, using(crate::proofs::Adding::added))]
fn add_key(index: &mut [Key], count: usize, key: Key) -> Option<usize>
    requires indexed { Indexed index.old count }
    ensures added { Grown index.new result (add_key (keys_in index.old count) (key_of key)) }
    ensures over { result ≡ None → index.new ≡ index.old }
{
    if find(&index[..count], key).is_some() {
        return Some(count);
    }
    if count == KEYS {
        return None;
    }
    index[count] = key;
    Some(count + 1)
}

// As add_key, where the key may stand at a number that is near.
#[tactic(auto, using(crate::proofs::Adding::added_near))]
fn add_near(index: &mut [Key], count: usize, near: usize, key: Key) -> Option<usize>
    requires indexed { Indexed index.old count }
    ensures added { Grown index.new result (add_key (keys_in index.old count) (key_of key)) }
    ensures over { result ≡ None → index.new ≡ index.old }
{
    if near < count && index[near] == key {
        return Some(count);
    }
    add_key(index, count, key)
}

// So many indices of a name, from i on; None where there is no room for all.
#[tactic(auto, using(crate::proofs::Adding::adding))]
fn add_range(index: &mut [Key], count: usize, x: usize, i: u64, n: u64) -> Option<usize>
    requires indexed { Indexed index.old count }
    requires bound { i + n ≤ 2 ^ 64 }
    ensures { Grown index.new result (add_range (keys_in index.old count) x i n) }
{
    let first = find(
        &index[..count],
        Key {
            name: x,
            index: Some(i),
        },
    )
    .unwrap_or(count);
    let mut c = count;
    for j in 0..n.min(257) {
        // j is below 257: TryFrom would add an error that no j gives.
        c = add_near(
            index,
            c,
            first + j as usize,
            Key {
                name: x,
                index: Some(i + j),
            },
        )?;
    }
    Some(c)
}

// Each index of a slice.
#[tactic(auto, using(crate::proofs::Measured::slices))]
fn add_slice(index: &mut [Key], count: usize, x: usize, ends: (u64, u64)) -> Option<usize>
    requires indexed { Indexed index.old count }
    ensures { Grown index.new result (add_range (keys_in index.old count) x ends.0 (suc ends.1 - ends.0)) }
{
    let (a, b) = ends;
    if b < a {
        return Some(count);
    }
    add_range(index, count, x, a, (b - a).min(257) + 1)
}

// The whole key, and each index below the size.
#[tactic(auto, using(crate::proofs::Measured::whole_over), unfolding(sema::specs::Keys::add_range, sema::specs::Keys::add_indices))]
fn add_whole(index: &mut [Key], count: usize, x: usize, size: Option<u64>) -> Option<usize>
    requires indexed { Indexed index.old count }
    ensures { Grown index.new result (add_range (add_key (keys_in index.old count) (key x none)) x 0 (or0 (number_of size))) }
{
    let c = add_key(
        index,
        count,
        Key {
            name: x,
            index: None,
        },
    )?;
    match size {
        Some(n) => add_range(index, c, x, 0, n),
        None => Some(c),
    }
}

// The keys that a measure of the operand sets, where its name shows a size; None where there is no room for all.
#[tactic(auto, unfolding(sema::specs::Keys::add_measured))]
pub fn add_measured(
    index: &mut [Key],
    count: usize,
    op: GateOperand,
    size: Option<u64>,
) -> Option<usize>
    requires indexed { Indexed index.old count }
    ensures { Grown index.new result (add_measured (keys_in index.old count) op.name (number_of size) (ends_of op.slice) (number_of op.index)) }
{
    match (op.slice, op.index) {
        (Some(ends), _) => add_slice(index, count, op.name, ends),
        (None, Some(_)) => add_key(
            index,
            count,
            Key {
                name: op.name,
                index: op.index,
            },
        ),
        (None, None) => add_whole(index, count, op.name, size),
    }
}
