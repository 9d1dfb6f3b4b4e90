// The mark sheet: for each key the place of the measure statement that marked it, or 0.
// The walk over a tree calls these functions with the keys that it has met; behind them the sheet is blank. Sheet and keys go apart:
// the sheet is an array of 256 places, lent to be written where marks are set; a struct would hold only the keys and their bound.
#![tactic(auto)]

mod keys;
pub mod new_keys;

ghost use Rattle.std.specs.Prelude.{◌≡◌, List, Bool, cond, ℕ, ◌≤◌, ◌<◌, length, Some, None};
ghost use Rattle.span.specs.declared.Span.{Span};
ghost use Rattle.sema.specs.Marks.{Key as MarkKey, no_marks, in_slice, apply, clear_measured, unite as uniteMarks};
ghost use Rattle.sema.specs.Keys.{same_key};
ghost use Rattle.context.specs.Values.{number_of, operand_of, key_of};
ghost use Rattle.context.specs.View.{keys_of, marks_of, measure_span, PlaceOk, Placed};
ghost use Rattle.sheet.specs.Sheet.{marked, lookup_in, nearer, offer, least_in, smallest_in, Distinct, Covers, measuring, stored, first};
ghost use Rattle.sheet.specs.Behind.{Blank};

use context::{GateOperand, Key};
use keys::{is_below, is_reached, is_within};

// A place, or another where it is none.
fn either(place: u16, other: u16) -> u16
    ensures { result ≡ first place other }
{
    if place == 0 { other } else { place }
}

// The place of a key where it has one and is the key sought, or else the place that was met before.
#[tactic(auto, using(crate::proofs::Looking::meeting, crate::proofs::Tests::same_decoded))]
fn met(own: Key, place: u16, key: Key, before: u16) -> u16
    ensures { result ≡ first (cond (same_key (key_of own) (key_of key)) place 0) before }
{
    if place != 0 && own == key {
        place
    } else {
        before
    }
}

// A place of the sheet. The sheet has 0 for none: one comparison serves many places at once.
fn marked(place: u16) -> Option<u16>
    ensures { result ≡ marked place }
{
    (place != 0).then_some(place)
}

// The place of the mark that covers a name, or an index of it. No two keys are equal, so one without a mark is not read.
pub fn lookup(sheet: &[u16; 256], keys: &[Key], x: usize, i: Option<u64>) -> Option<u16>
    requires few { length keys.now ≤ 256 }
    requires distinct { Distinct (keys_of keys.now) }
    ensures { result ≡ marked (lookup_in (keys_of keys.now) sheet.now x (number_of i)) }
{
    let key = Key { name: x, index: i };
    let name = Key {
        name: x,
        index: None,
    };
    let mut own = 0;
    let mut whole = 0;
    // As many places as keys: the loop has one end to test.
    for (met_key, place) in keys.iter().zip(&sheet[..keys.len()]) {
        own = met(*met_key, *place, key, own);
        whole = met(*met_key, *place, name, whole);
    }
    marked(either(own, whole))
}

#[tactic(auto, unfolding(crate::specs::Sheet::nearer, crate::specs::Sheet::smaller))]
fn nearer(best: Option<(u64, u16)>, i: u64, place: u16) -> Option<(u64, u16)>
    ensures { result ≡ nearer best (Some (i, place)) }
{
    match best {
        Some((j, _)) if j <= i => best,
        _ => Some((i, place)),
    }
}

// The smallest index so far, one more taken in where it is of the slice.
#[tactic(auto, using(crate::proofs::Loops::offering))]
fn offered(
    best: Option<(u64, u16)>,
    index: Option<u64>,
    place: u16,
    ends: (u64, u64),
) -> Option<(u64, u16)>
    requires { 0 < place }
    ensures { result ≡ nearer best (cond (in_slice ends (number_of index)) (offer (number_of index) place None) None) }
{
    match index {
        Some(i) if is_within(index, ends) => nearer(best, i, place),
        _ => best,
    }
}

// The smallest index of a slice whose own key is marked.
fn least(sheet: &[u16; 256], keys: &[Key], x: usize, ends: (u64, u64)) -> Option<(u64, u16)>
    requires { length keys.now ≤ 256 }
    ensures { result ≡ least_in x ends (keys_of keys.now) sheet.now }
{
    let mut best = None;
    // As many places as keys, as in `lookup`.
    for (key, place) in keys.iter().zip(&sheet[..keys.len()]) {
        if *place != 0 && key.name == x {
            best = offered(best, key.index, *place, ends);
        }
    }
    best
}

// The smallest index of a slice that a mark covers, and the mark's place.
#[tactic(auto, using(crate::proofs::Answers::least_covered))]
pub fn smallest(sheet: &[u16; 256], keys: &[Key], x: usize, ends: (u64, u64)) -> Option<(u64, u16)>
    requires few { length keys.now ≤ 256 }
    requires distinct { Distinct (keys_of keys.now) }
    ensures { result ≡ smallest_in (keys_of keys.now) sheet.now x ends }
{
    let (a, b) = ends;
    if b < a {
        None
    } else if lookup(sheet, keys, x, None).is_none() {
        least(sheet, keys, x, ends)
    } else {
        lookup(sheet, keys, x, Some(a)).map(|place| (a, place))
    }
}

// The place for each key that passes the test.
fn store<F: Fn(Key) -> bool>(sheet: &mut [u16; 256], keys: &[Key], place: u16, test: F)
    requires few { length keys.now ≤ 256 }
    requires callable { F.IsAlwaysCallable test }
    ensures { (t : MarkKey → Bool) → ((k : Key) (r : Bool) → F.post test k r → r ≡ t (key_of k)) → sheet.new ≡ stored t place (keys_of keys.now) sheet.old }
{
    // The place by its number: after a zip with iter_mut is over, a proof knows nothing of the places.
    for (k, key) in keys.iter().enumerate() {
        if test(*key) {
            sheet[k] = place;
        }
    }
}

// `mark_measured` by the measure statement at a place, where the operand's name shows a size. Its keys are in the index.
pub fn set(sheet: &mut [u16; 256], keys: &[Key], op: GateOperand, size: Option<u64>, place: u16)
    requires few { length keys.now ≤ 256 }
    requires place_nonzero { 0 < place }
    requires covers { Covers (keys_of keys.now) (measuring (number_of size) (operand_of op)) }
    ensures placed { (tree : List ℕ) → PlaceOk tree place → Placed tree sheet.old → Placed tree sheet.new }
    ensures marks { (tree : List ℕ) → marks_of tree (keys_of keys.now) sheet.new ≡ apply (measuring (number_of size) (operand_of op)) (measure_span tree place) (marks_of tree (keys_of keys.now) sheet.old) }
    ensures behind { (n : ℕ) → length keys.now ≤ n → Blank n sheet.old → Blank n sheet.new }
{
    let test = |key: Key| key.name == op.name && is_reached(op, key, is_below(key, size));
    store(sheet, keys, place, test);
}

// `clear_measured`.
pub fn clear(sheet: &mut [u16; 256], keys: &[Key], op: GateOperand)
    requires few { length keys.now ≤ 256 }
    ensures placed { (tree : List ℕ) → Placed tree sheet.old → Placed tree sheet.new }
    ensures marks { (tree : List ℕ) (sp : Span) → marks_of tree (keys_of keys.now) sheet.new ≡ apply (clear_measured (operand_of op)) sp (marks_of tree (keys_of keys.now) sheet.old) }
    ensures behind { (n : ℕ) → length keys.now ≤ n → Blank n sheet.old → Blank n sheet.new }
{
    let test = |key: Key| key.name == op.name && is_reached(op, key, true);
    store(sheet, keys, 0, test);
}

// Both exits of a branch, into b: the marks of a, and where it has none those of b.
pub fn unite(a: &[u16; 256], b: &mut [u16; 256])
    ensures placed { (tree : List ℕ) → Placed tree a.now → Placed tree b.old → Placed tree b.new }
    ensures marks { (tree : List ℕ) (ks : List MarkKey) → marks_of tree ks b.new ≡ uniteMarks (marks_of tree ks a.now) (marks_of tree ks b.old) }
    ensures behind { (n : ℕ) → Blank n a.now → Blank n b.old → Blank n b.new }
{
    // The other by its number: after a zip with iter_mut is over, a proof knows nothing of the places.
    for (i, place) in b.iter_mut().enumerate() {
        *place = either(a[i], *place);
    }
}

pub fn blank() -> [u16; 256]
    ensures placed { (tree : List ℕ) → Placed tree result }
    ensures marks { (tree : List ℕ) (ks : List MarkKey) → marks_of tree ks result ≡ no_marks }
    ensures behind { Blank 0 result }
{
    [0; 256]
}
