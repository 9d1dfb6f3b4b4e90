// How names and float literals are spelled, and the checksums by which texts are told apart.
#![tactic(auto, unfolding(tree::specs::Texts::letter, tree::specs::Texts::digit, tree::specs::Texts::digits, tree::specs::Texts::fraction, tree::specs::Texts::is_name, tree::specs::Texts::is_float, crate::specs::Section::kind_of, crate::specs::Section::kind_by), using(crate::proofs::Spelled::spelled))]

ghost use Rattle.std.specs.Prelude.{◌≡◌, ℕ, ◌<◌, ◌^◌, Bool, not, position};
ghost use Rattle.tree.specs.Texts.{letter, digit, every, digits, fraction, is_name, is_float};
ghost use Rattle.reading.specs.Section.{kind_of, mix, checksum as sum_of};

// A float literal's spelling is no name's. `Neither` is a kind as the others, since two kinds are only compared: an Option would add
// `Some` to each.
#[derive(Clone, Copy, PartialEq, Eq)]
pub enum Spelling {
    Neither,
    Name,
    Float,
}

// A checksum is below 2^48.
const SUM_LIMIT: u64 = 1 << 48;

// With `|`, here and for a name's bytes, nothing is chosen byte by byte: many are tested at once.
fn is_letter(c: u8) -> bool
    ensures { result ≡ letter c }
{
    c.is_ascii_alphabetic() | (c == b'_')
}

// Whether every byte is allowed. Each is looked at, so that many are at once.
pub(crate) fn all_of<F: Fn(u8) -> bool>(x: &[u8], allowed: F) -> bool
    requires { F.IsAlwaysCallable allowed }
    ensures { (p : ℕ → Bool) → ((c : ℕ) (b : Bool) → F.post allowed c b → b ≡ p c) → result ≡ every p x.now }
{
    x.iter().fold(true, |good, c| good & allowed(*c))
}

fn is_digits(x: &[u8]) -> bool
    ensures { result ≡ digits x.now }
{
    !x.is_empty() && all_of(x, |c| c.is_ascii_digit())
}

fn is_name(x: &[u8]) -> bool
    ensures { result ≡ is_name x.now }
{
    match x {
        [first, ..] => is_letter(*first) && all_of(x, |c| is_letter(c) | c.is_ascii_digit()),
        [] => false,
    }
}

// The first byte that is no digit.
fn digits_end(x: &[u8]) -> Option<usize>
    ensures { result ≡ position (λ c. not (digit c)) x.now }
{
    x.iter().position(|c| !c.is_ascii_digit())
}

// More digits, a point, one or more digits.
fn is_fraction(x: &[u8]) -> bool
    ensures { result ≡ fraction x.now }
{
    match digits_end(x) {
        Some(i) => x[i] == b'.' && is_digits(&x[i + 1..]),
        None => false,
    }
}

fn is_float(x: &[u8]) -> bool
    ensures { result ≡ is_float x.now }
{
    match x {
        [first, rest @ ..] => first.is_ascii_digit() && is_fraction(rest),
        [] => false,
    }
}

pub(crate) fn kind(x: &[u8]) -> Spelling
    ensures { result ≡ kind_of x.now }
{
    if is_name(x) {
        Spelling::Name
    } else if is_float(x) {
        Spelling::Float
    } else {
        Spelling::Neither
    }
}

// A checksum with a number put in.
fn mixed(h: u64, w: u32) -> u64
    requires { h < 2 ^ 48 }
    ensures { result ≡ mix h w }
{
    (h * 157 + u64::from(w)) % SUM_LIMIT
}

// A checksum with two numbers put in, at once: 24649 is the square of 157.
fn mixed_twice(h: u64, v: u32, w: u32) -> u64
    requires { h < 2 ^ 48 }
    ensures { result ≡ mix (mix h v) w }
{
    (h * 24649 + u64::from(v) * 157 + u64::from(w)) % SUM_LIMIT
}

#[tactic(auto, using(crate::proofs::Sums::sums))]
pub(crate) fn checksum(x: &[u8]) -> u64
    ensures { result ≡ sum_of x.now }
{
    let mut h = 0;
    let mut rest = x;
    // `while let`: std's own way to take chunks from the front of a slice.
    while let Some(([a, b, c, d, e, f, g, i], tail)) = rest.split_first_chunk::<8>() {
        let v = u32::from_le_bytes([*a, *b, *c, *d]);
        let w = u32::from_le_bytes([*e, *f, *g, *i]);
        h = mixed_twice(h, v, w);
        rest = tail;
    }
    while let Some((four, tail)) = rest.split_first_chunk() {
        h = mixed(h, u32::from_le_bytes(*four));
        rest = tail;
    }
    for b in rest {
        h = mixed(h, u32::from(*b));
    }
    h
}
