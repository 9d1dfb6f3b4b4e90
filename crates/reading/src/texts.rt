// The texts of the file, and the numbers by which the tree names them.
#![tactic(auto, unfolding(crate::specs::Answers::forget, crate::specs::Section::text_count, crate::specs::Section::of_kind, crate::specs::Section::kind_read, tree::specs::Texts::text, tree::specs::Texts::among, tree::specs::Read::byte, tree::specs::Read::bytes, tree::specs::Read::within, tree::specs::Exprs::text_number, tree::specs::Texts::is_path, tree::specs::Ans::bind, tree::specs::Ans::here, tree::specs::Ans::check, tree::specs::Ans::done, tree::specs::Ans::refuse), using(crate::proofs::Steps::steps, crate::proofs::Named::named, crate::proofs::Tested::reads))]

ghost use Rattle.std.specs.Prelude.{◌≡◌, ◌≤◌, ◌<◌, ◌-◌, eqb, not, map, position, length, take, drop};
ghost use Rattle.std.specs.List.{list_any};
ghost use Rattle.text.specs.Text.{same};
ghost use Rattle.tree.specs.Texts.{between, every, allowed, among, is_name, is_float, is_path, text_at, past};
ghost use Rattle.tree.specs.Exprs.{text_number};
ghost use Rattle.tree.specs.Decode.{texts_of};
ghost use Rattle.reading.specs.Answers.{answer, forget};
ghost use Rattle.reading.specs.Section.{texts_from, past_texts, text_count, of_kind, has_text, kind_read, checksum, slot_of, Gathered};
ghost use Rattle.tree.specs.Ans.{ok};
ghost use Rattle.reading.specs.Sources.{in_file};

use crate::answers::{Read, refuse};
use crate::numbers::{read_byte, read_u16};
use crate::source::Source;
use crate::spelling::{self, Spelling};
use refusal::Refusal;

pub const TEXTS_LIMIT: usize = 256;

const TEXT_LIMIT: u8 = 64;

// A table of 2^10 slots says which checksums were met.
const SLOTS: usize = 1024;

// Of 32 bits it leaves the first ten.
const FIRST_BITS: u64 = 1 << 22;

const HALF: u64 = 1 << 32;

// The golden section of 2^32: it spreads near numbers.
const SPREAD: u64 = 2654435769;

// Every byte is looked at, so that many are at once.
fn all_allowed(x: &[u8]) -> bool
    ensures { result ≡ every (between 33 126) x.now }
{
    spelling::all_of(x, |b| b.is_ascii_graphic())
}

// The first byte that a text may not have.
fn not_allowed(x: &[u8]) -> Option<usize>
    ensures { result ≡ position (λ c. not (between 33 126 c)) x.now }
{
    x.iter().position(|b| !b.is_ascii_graphic())
}

// The bytes of a text, from `at` to `end`: the first that is not allowed is refused. It is sought byte by byte, so only where there is one.
fn read_allowed(s: &[u8], at: usize, end: usize) -> Read<()>
    requires { (at ≤ end) × (end ≤ length s.now) }
    ensures { answer result ≡ allowed (take (end - at) (drop at s.now)) at s.now end }
{
    let x = &s[at..end];
    if all_allowed(x) {
        return Read::At((), end);
    }
    match not_allowed(x) {
        None => Read::At((), end),
        Some(i) => refuse(Refusal::NotAllowed, at + i),
    }
}

// The place past the text whose length byte is at `at`.
fn past_text(s: &[u8], at: usize) -> usize
    requires { past s.now at ≤ length s.now }
    ensures { result ≡ past s.now at }
{
    at + 1 + usize::from(s[at])
}

fn text_at(s: &[u8], at: usize) -> &[u8]
    requires { past s.now at ≤ length s.now }
    ensures { result.now ≡ text_at s.now at }
{
    &s[at + 1..past_text(s, at)]
}

// Every byte is compared, so that many are at once: `==` would stop at the first that differs.
#[tactic(auto, using(crate::proofs::Repeated::same_texts))]
fn is_same(x: &[u8], y: &[u8]) -> bool
    ensures { result ≡ same x.now y.now }
{
    x.len() == y.len()
        && x.iter()
            .zip(y)
            .fold(true, |alike, (b, other)| alike & (*b == *other))
}

// Whether a text equals the one at `at`, given the checksums of both. Text and checksum go apart: in a struct that is copied, reading
// 250 texts of one checksum took a tenth more instructions.
#[tactic(auto, using(crate::proofs::Repeated::same_texts))]
fn is_text(s: &[u8], at: usize, other: u64, x: &[u8], sum: u64) -> bool
    requires at_in_bounds { past s.now at ≤ length s.now }
    requires other_value { other ≡ checksum (text_at s.now at) }
    requires sum_value { sum ≡ checksum x.now }
    ensures { result ≡ same x.now (text_at s.now at) }
{
    sum == other && is_same(x, text_at(s, at))
}

// The slot of a checksum: of a product's last 32 bits the first ten.
fn slot_of(sum: u64) -> usize
    ensures { (result ≡ slot_of sum) × (result < 1024) }
{
    let folded = (sum % HALF + sum / HALF) % HALF;
    // A number of ten bits in the end: TryFrom would add an error that no sum gives.
    (folded * SPREAD / FIRST_BITS) as usize % SLOTS
}

// Whether a checksum is among others. All are gone through, so that several are compared at once.
fn has_sum(sums: &[u64], sum: u64) -> bool
    ensures { result ≡ list_any (λ other. eqb other sum) sums.now }
{
    sums.iter()
        .fold(false, |found, other| found | (*other == sum))
}

// Whether a text equals one of the first, whose checksums are lent.
#[tactic(auto, unfolding(tree::specs::Texts::among), using(crate::proofs::Repeated::repeated))]
fn is_repeated(s: &[u8], x: &[u8], sum: u64, sums: &[u64]) -> bool
    requires sum_value { sum ≡ checksum x.now }
    requires sums_in_bounds { past_texts s.now (length sums.now) 2 ≤ length s.now }
    requires sums_value { sums.now ≡ map checksum (texts_from s.now (length sums.now) 2) }
    ensures { result ≡ among x.now (texts_from s.now (length sums.now) 2) }
{
    if !has_sum(sums, sum) {
        return false;
    }
    let mut k = 2;
    for other in sums {
        if is_text(s, k, *other, x, sum) {
            return true;
        }
        k = past_text(s, k);
    }
    false
}

// A text, of which the kind is told. Whether an earlier one is equal is not asked.
fn read_text(s: &[u8], at: usize) -> Read<Spelling>
    ensures { answer result ≡ kind_read s.now at }
{
    let a = read_byte(s, at);
    let Read::At(length, start) = a else {
        return a.map(|_| Spelling::Neither);
    };
    if length == 0 || TEXT_LIMIT < length {
        return refuse(Refusal::NotAllowed, at);
    }
    let end = start + usize::from(length);
    let Some(x) = s.get(start..end) else {
        return refuse(Refusal::WrongEnd, s.len());
    };
    let kind = spelling::kind(x);
    if kind == Spelling::Name {
        return Read::At(kind, end); // the bytes of a name are allowed
    }
    read_allowed(s, start, end).map(|()| kind)
}

// How many texts there are.
pub fn read_text_count(s: &[u8]) -> Read<u16>
    ensures { answer result ≡ text_count s.now 0 }
{
    read_u16(s, 0).check(|n| usize::from(n) <= TEXTS_LIMIT, Refusal::LargeCount, 0)
}

// The `n` texts from `first` on, behind their count. The kind of each is stored.
pub fn read_texts(s: &[u8], first: usize, n: usize, kinds: &mut [Spelling; TEXTS_LIMIT]) -> Read<()>
    requires { text_count s.now 0 ≡ ok n first }
    ensures { Gathered s.now kinds.new n result }
{
    // Beside the kinds, and not in one struct with them: no one asks for the checksums later, and `has_sum` compares several at once.
    let mut sums = [0u64; TEXTS_LIMIT];
    let mut met = [false; SLOTS];
    let mut k = first;
    // By number: it says how many checksums are lent, so an iterator over the kinds would have to count too.
    for i in 0..n {
        let a = read_text(s, k);
        let Read::At(kind, next) = a else {
            return a.into_place();
        };
        let x = &s[k + 1..next];
        let sum = spelling::checksum(x);
        let slot = slot_of(sum);
        if met[slot] && is_repeated(s, x, sum, &sums[..i]) {
            return refuse(Refusal::NotAllowed, k);
        }
        met[slot] = true;
        kinds[i] = kind;
        sums[i] = sum;
        k = next;
    }
    Read::At((), k)
}

// A text number: below the number of texts.
pub fn read_path(source: &Source, at: usize) -> Read<u16>
    ensures { answer result ≡ in_file (λ t. text_number t is_path) source.now at }
{
    read_u16(source.bytes, at).check(
        |n| usize::from(n) < source.kinds.len(),
        Refusal::NotAllowed,
        at,
    )
}

// Whether there is a text with the number, and of the kind.
fn is_of_kind(source: &Source, n: u16, kind: Spelling) -> bool
    ensures { result ≡ has_text (texts_of source.now.bytes.now) (of_kind kind) n }
{
    source.kinds.get(usize::from(n)) == Some(&kind)
}

// A text number whose text is of the kind.
fn read_spelled(source: &Source, at: usize, kind: Spelling) -> Read<u16>
    ensures { answer result ≡ in_file (λ t. text_number t (of_kind kind)) source.now at }
{
    let test = |n|
        ensures { result ≡ has_text (texts_of source.entry.now.bytes.now) (of_kind kind) n }
    { is_of_kind(source, n, kind) };
    read_u16(source.bytes, at).check(test, Refusal::NotAllowed, at)
}

pub fn read_name(source: &Source, at: usize) -> Read<u16>
    ensures { answer result ≡ in_file (λ t. text_number t is_name) source.now at }
{
    read_spelled(source, at, Spelling::Name)
}

pub fn read_float(source: &Source, at: usize) -> Read<u16>
    ensures { answer result ≡ in_file (λ t. text_number t is_float) source.now at }
{
    read_spelled(source, at, Spelling::Float)
}
