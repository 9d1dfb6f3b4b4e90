// The values that every part of the tree file is made of.
#![tactic(auto, unfolding(crate::specs::Answers::forget, tree::specs::Ans::bind, tree::specs::Ans::here, tree::specs::Ans::check, tree::specs::Ans::done, tree::specs::Ans::refuse, tree::specs::Read::within, tree::specs::Read::byte, tree::specs::Read::bytes, tree::specs::Read::number, tree::specs::Read::span, tree::specs::Read::case_byte, tree::specs::Read::count, tree::specs::Stmts::slice), using(crate::proofs::Steps::steps, crate::proofs::Held::skips, crate::proofs::Tested::reads))]

ghost use Rattle.std.specs.Prelude.{◌≡◌, ◌<◌};
ghost use Rattle.tree.specs.Ans.{bind};
ghost use Rattle.tree.specs.Read.{byte, bytes, u16, u64, span, case_byte, option, count};
ghost use Rattle.tree.specs.Stmts.{slice};
ghost use Rattle.reading.specs.Answers.{answer, forget};
ghost use Rattle.reading.specs.Spans.{span_of};

use crate::answers::{Read, refuse};
use crate::containers::read_option;
use refusal::Refusal;
use span::Span;

const VEC_LIMIT: u8 = 16;

// The bytes that a Bool or an Option begins with: 0 and 1.
pub const FLAGS: u8 = 2;

pub(crate) fn read_byte(s: &[u8], at: usize) -> Read<u8>
    ensures { answer result ≡ byte s.now at }
{
    match s.get(at) {
        Some(b) => Read::At(*b, at + 1),
        None => refuse(Refusal::WrongEnd, s.len()),
    }
}

// A byte below the number of cases.
pub fn read_case(s: &[u8], at: usize, cases: u8) -> Read<u8>
    ensures { answer result ≡ case_byte cases s.now at }
{
    read_byte(s, at).check(|b| b < cases, Refusal::NotAllowed, at)
}

// The count of a Vec.
pub fn read_count(s: &[u8], at: usize) -> Read<u8>
    ensures { answer result ≡ count s.now at }
{
    read_byte(s, at).check(|n| n <= VEC_LIMIT, Refusal::LargeCount, at)
}

// One comparison, and with a number that is the same for all places: it is worked out once.
fn read_bytes<const N: usize>(s: &[u8], at: usize) -> Read<[u8; N]>
    requires { 0 < N }
    ensures { answer result ≡ bytes N s.now at }
{
    if at < s.len().saturating_sub(N - 1)
        && let Some(first) = s[at..at + N].first_chunk()
    {
        return Read::At(*first, at + N);
    }
    refuse(Refusal::WrongEnd, s.len())
}

// A text number, or a count of texts or statements.
pub fn read_u16(s: &[u8], at: usize) -> Read<u16>
    ensures { answer result ≡ u16 s.now at }
{
    read_bytes(s, at).map(u16::from_be_bytes)
}

pub fn read_u64(s: &[u8], at: usize) -> Read<u64>
    ensures { answer result ≡ u64 s.now at }
{
    read_bytes(s, at).map(u64::from_be_bytes)
}

fn span_of(bytes: [u8; 8]) -> Span
    ensures { result ≡ span_of bytes }
{
    let [a, b, c, d, e, f, g, h] = bytes;
    Span {
        start: u32::from_be_bytes([a, b, c, d]),
        end: u32::from_be_bytes([e, f, g, h]),
    }
}

fn read_span(s: &[u8], at: usize) -> Read<Span>
    ensures { answer result ≡ span s.now at }
{
    read_bytes(s, at).map(span_of)
}

// A span that is only passed over. Compiled, its numbers are not worked out.
pub fn pass_span(s: &[u8], at: usize) -> Read<()>
    ensures { answer result ≡ forget (span s.now at) }
{
    read_span(s, at).into_place()
}

impl<T: Copy> Read<T> {
    // The span behind a value, passed over too: a case that holds one value is read so.
    pub fn then_span(self, s: &[u8]) -> Read<()>
        ensures { answer result ≡ bind (answer self) (λ value k. forget (span s.now k)) }
    {
        let Read::At(_, k) = self else {
            return self.into_place();
        };
        pass_span(s, k)
    }
}

pub fn read_optional_u64(s: &[u8], at: usize) -> Read<()>
    ensures { answer result ≡ forget (option u64 s.now at) }
{
    read_option(s, at, |k| read_u64(s, k).into_place())
}

fn read_slice(s: &[u8], at: usize) -> Read<()>
    ensures { answer result ≡ forget (slice s.now at) }
{
    let a = read_u64(s, at);
    let Read::At(_, k) = a else {
        return a.into_place();
    };
    read_u64(s, k).into_place()
}

pub fn read_optional_slice(s: &[u8], at: usize) -> Read<()>
    ensures { answer result ≡ forget (option slice s.now at) }
{
    read_option(s, at, |k| read_slice(s, k))
}
