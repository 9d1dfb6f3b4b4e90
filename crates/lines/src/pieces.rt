// The pieces of lines, and their storing. A piece is a part of the tree or of the wording, returned and not formatted: no Display.
// The place is state: it goes by value beside the listing, which is lent. Bytes past the listing's end are counted and not stored;
// write! would end there with an error.
ghost use Rattle.std.specs.Prelude.{◌≤◌, ◌<◌, ◌+◌, ◌++◌, ◌∷◌, [], length};
ghost use Rattle.text.specs.Decimal.{decimal};
ghost use Rattle.tree.specs.Decode.{texts_of};
ghost use Rattle.sema.specs.Messages.{name_at};
ghost use Rattle.lines.specs.Stored.{Wrote, Said, Shown};
ghost use Rattle.lines.specs.Readable.{Readable};
ghost use Rattle.lines.specs.Texts.{Named, value_text, value_room};

use super::{Expected, words};
use ast::ClassicalType;
use context::{SymbolKind, Texts};
use itoa::Buffer;

// A value in a text.
#[derive(Clone, Copy)]
pub(crate) enum Value {
    // The text of the tree with a number.
    Name(usize),
    TypeName(ClassicalType),
    KindName(SymbolKind),
    ExpectedName(Expected),
    Number(u64),
    // The exact sum of two numbers.
    Sum(u64, u64),
}

// The text with a number, as a part of the tree. `Readable` asks for the place of one text, a Texts for those of all.
// The places as a slice, so that any number of them will do. Callers copy the reference to a variable: a field's is not lent as a slice.
#[tactic(auto, unfolding(sema::specs::Messages::name_at))]
pub fn name_of<'a>(tree: &'a [u8], places: &[usize], x: usize) -> &'a [u8]
    requires { Readable tree.now places.now x }
    ensures { Shown result.now (name_at (texts_of tree.now) x) 64 }
{
    let at = places[x];
    let size = usize::from(tree[at]);
    &tree[at + 1..at + 1 + size]
}

// Stores a piece from n on, as far as there is room.
// Byte by byte: copy_from_slice is compiled to memmove here, which nothing else in the archive for C needs.
pub(crate) fn copy(out: &mut [u8], n: usize, s: &[u8]) -> usize
    requires { n + length s.now < 18446744073709551616 }
    ensures { Wrote out.old n out.new result s.now }
{
    let start = n.min(out.len());
    let end = start + s.len().min(out.len() - start);
    let part = &mut out[start..end];
    for (i, place) in part.iter_mut().enumerate() {
        *place = s[i];
    }
    n + s.len()
}

// Stores one byte, where there is room: by `copy`, by which every byte of a line is stored.
pub(crate) fn put(out: &mut [u8], n: usize, b: u8) -> usize
    requires { n + 1 < 18446744073709551616 }
    ensures { Wrote out.old n out.new result (b ∷ []) }
{
    copy(out, n, &[b])
}

// A number in decimal, as its digits in a lent buffer.
pub(crate) fn number(v: u64, digits: &mut Buffer) -> &[u8]
    ensures { Shown result.now (decimal v) 20 }
{
    digits.format(v).as_bytes()
}

// Stores a number in decimal.
pub(crate) fn decimal(out: &mut [u8], n: usize, v: u64) -> usize
    requires { n < 4294967296 }
    ensures { Said out.old n out.new result (decimal v) 20 }
{
    let mut digits = Buffer::new();
    copy(out, n, number(v, &mut digits))
}

// Stores two numbers, a space between them and a byte behind.
pub(crate) fn numbers(out: &mut [u8], n: usize, first: u64, second: u64, after: u8) -> usize
    requires { n < 2147483648 }
    ensures { Said out.old n out.new result (decimal first ++ (32 ∷ (decimal second ++ (after ∷ [])))) 64 }
{
    let a = decimal(out, n, first);
    let b = put(out, a, b' ');
    let c = decimal(out, b, second);
    put(out, c, after)
}

// The next piece of a text: a part of the tree or of the wording. The digits of a number stand in neither, and are lent.
fn piece<'a: 'b, 'b>(texts: &Texts<'a>, value: Value, digits: &'b mut Buffer) -> &'b [u8]
    requires { Named (length (texts_of texts.now.tree.now)) value }
    ensures { Shown result.now (value_text (texts_of texts.now.tree.now) value) (value_room value) }
{
    let places = texts.places;
    match value {
        Value::Name(x) => name_of(texts.tree, places, x),
        Value::TypeName(ty) => words::type_name(ty),
        Value::KindName(kind) => words::kind_name(kind),
        Value::ExpectedName(expected) => words::expected_name(expected),
        Value::Number(v) => number(v, digits),
        Value::Sum(a, b) => digits.format(u128::from(a) + u128::from(b)).as_bytes(),
    }
}

// Stores words, and a value behind them.
pub(crate) fn say(texts: &Texts, out: &mut [u8], n: usize, words: &[u8], value: Value) -> usize
    requires few { (n < 2147483648) × (length words.now ≤ 128) }
    requires named { Named (length (texts_of texts.now.tree.now)) value }
    ensures { Said out.old n out.new result (words.now ++ value_text (texts_of texts.now.tree.now) value) (length words.now + value_room value) }
{
    let mut digits = Buffer::new();
    let a = copy(out, n, words);
    copy(out, a, piece(texts, value, &mut digits))
}
