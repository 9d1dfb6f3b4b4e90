// Bytes, numbers, big-endian, and spans.
ghost use Rattle.std.specs.Prelude.{◌≡◌, ◌+◌, ◌≤◌, ◌<◌, length, get_or, take, drop};
ghost use Rattle.context.specs.View.{number_at, span_at};

use span::Span;

pub(crate) fn byte_at(s: &[u8], at: usize) -> u8
    requires { at < length s.now }
    ensures { result ≡ get_or s.now at 0 }
{
    s[at]
}

fn bytes_at<const N: usize>(s: &[u8], at: usize) -> [u8; N]
    requires { at + N ≤ length s.now }
    ensures { result ≡ take N (drop at s.now) }
{
    *s[at..at + N].first_chunk().unwrap()
}

pub fn u16_at(s: &[u8], at: usize) -> usize
    requires { at + 2 ≤ length s.now }
    ensures { (result ≡ number_at 2 s.now at) × (result < 65536) }
{
    usize::from(u16::from_be_bytes(bytes_at(s, at)))
}

fn u32_at(s: &[u8], at: usize) -> u32
    requires { at + 4 ≤ length s.now }
    ensures { result ≡ number_at 4 s.now at }
{
    u32::from_be_bytes(bytes_at(s, at))
}

pub fn u64_at(s: &[u8], at: usize) -> u64
    requires { at + 8 ≤ length s.now }
    ensures { result ≡ number_at 8 s.now at }
{
    u64::from_be_bytes(bytes_at(s, at))
}

pub fn span_at(s: &[u8], at: usize) -> Span
    requires { at + 8 ≤ length s.now }
    ensures { result ≡ span_at s.now at }
{
    Span {
        start: u32_at(s, at),
        end: u32_at(s, at + 4),
    }
}
