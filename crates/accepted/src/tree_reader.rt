// A reader of a tree: the bytes and a place in them. Each function is thin over one that takes the bytes and the place.
// It has few thin functions: those over larger parts take the two as plain parameters, as the ones that it covers do.
ghost use Rattle.std.specs.Prelude.{◌≡◌, ◌+◌, ◌≤◌, ◌<◌, length, get_or};
ghost use Rattle.context.specs.View.{number_at, span_at};

use crate::numbers::{byte_at, span_at, u16_at, u64_at};
use span::Span;

#[derive(Clone, Copy)]
pub struct TreeReader<'a> {
    pub tree: &'a [u8],
    pub at: usize,
}

impl<'a> TreeReader<'a> {
    pub fn byte(self) -> u8
        requires { self.at < length self.tree.now }
        ensures { result ≡ get_or self.entry.tree.now self.entry.at 0 }
    {
        byte_at(self.tree, self.at)
    }

    // The number of a text.
    pub fn text(self) -> usize
        requires { self.at + 2 ≤ length self.tree.now }
        ensures { (result ≡ number_at 2 self.entry.tree.now self.entry.at) × (result < 65536) }
    {
        u16_at(self.tree, self.at)
    }

    pub fn number(self) -> u64
        requires { self.at + 8 ≤ length self.tree.now }
        ensures { result ≡ number_at 8 self.entry.tree.now self.entry.at }
    {
        u64_at(self.tree, self.at)
    }

    pub fn span(self) -> Span
        requires { self.at + 8 ≤ length self.tree.now }
        ensures { result ≡ span_at self.entry.tree.now self.entry.at }
    {
        span_at(self.tree, self.at)
    }

    // The reader so many bytes further on.
    pub fn skip(self, n: usize) -> Self
        requires { self.at + n ≤ length self.tree.now }
        ensures { (result.tree ≡ self.entry.tree) × (result.at ≡ self.entry.at + n) }
    {
        Self {
            tree: self.tree,
            at: self.at + n,
        }
    }
}
