// Parts of a lent text.
#![tactic(auto)]

ghost use Rattle.std.specs.Prelude.{◌≡◌};
ghost use Rattle.text.specs.Text.{part};

// The bytes from start up to end, as far as the text has them; none where end comes before start.
pub fn part(s: &[u8], start: usize, end: usize) -> &[u8]
    ensures { result.now ≡ part start end s.now }
{
    let end = end.min(s.len());
    &s[start.min(end)..end]
}
