// Whole numbers of 128 bits (i128 in the Rust): a sign, and a magnitude of two words.
#![tactic(auto)]

ghost use Rattle.std.specs.Prelude.{◌≡◌, not, ◌≤◌, ◌<◌, ◌+◌, ◌-◌, ◌*◌, ◌/◌, ◌%◌, ◌^◌, neg_ℤ, ◌+ℤ◌, ◌-ℤ◌, ◌*ℤ◌, false};
ghost use Rattle.std.specs.Result.{result_ok};
ghost use Rattle.int128.specs.Whole.{magnitude, magnitude_of, signed, value_of, int128, checked, divided, powered, positive, word_of};

#[derive(Clone, Copy)]
pub struct Int128 {
    pub neg: bool,
    pub words: Words,
}

// A magnitude below 2^128. The derived order is the order of the magnitudes.
#[derive(Clone, Copy, PartialEq, Eq, PartialOrd, Ord)]
pub struct Words {
    pub hi: u64,
    pub lo: u64,
}

#[derive(Clone, Copy)]
pub struct Division {
    pub quotient: Words,
    pub remainder: Words,
}

// An integer that is no u64.
#[derive(Clone, Copy, Debug, PartialEq, Eq)]
pub struct OutOfRange;

const ZERO: Words = Words { hi: 0, lo: 0 };

const HALF: u64 = 1 << 63;

// The magnitude of the least number.
const LEAST: Words = Words { hi: HALF, lo: 0 };

fn add_words(a: Words, b: Words) -> Option<Words>
    ensures { result ≡ magnitude_of (magnitude a + magnitude b) }
{
    let (lo, carry) = a.lo.carrying_add(b.lo, false);
    let hi = a.hi.checked_add(b.hi)?.checked_add(u64::from(carry))?;
    Some(Words { hi, lo })
}

fn sub_words(a: Words, b: Words) -> Words
    requires { magnitude b ≤ magnitude a }
    ensures { magnitude result ≡ magnitude a - magnitude b }
{
    let (lo, borrow) = a.lo.borrowing_sub(b.lo, false);
    Words {
        hi: a.hi - b.hi - u64::from(borrow),
        lo,
    }
}

#[tactic(auto, using(crate::proofs::Halves::timing))]
fn mul_word(a: Words, b: u64) -> Option<Words>
    ensures { result ≡ magnitude_of (magnitude a * b) }
{
    let (lo, carry) = a.lo.carrying_mul(b, 0);
    let (hi, over) = a.hi.carrying_mul(b, carry);
    (over == 0).then_some(Words { hi, lo })
}

#[tactic(auto, using(crate::proofs::Halves::high_times))]
fn mul_words(a: Words, b: Words) -> Option<Words>
    ensures { result ≡ magnitude_of (magnitude a * magnitude b) }
{
    if a.hi == 0 {
        mul_word(b, a.lo)
    } else if b.hi == 0 {
        mul_word(a, b.lo)
    } else {
        None
    }
}

// Twice a magnitude below 2^127.
fn double(w: Words) -> Words
    requires { w.hi < 9223372036854775808 }
    ensures { magnitude result ≡ 2 * magnitude w }
{
    Words {
        hi: w.hi * 2 + w.lo / HALF,
        lo: w.lo % HALF * 2,
    }
}

// The division by b, from that by twice b.
fn halved(d: Division, b: Words) -> Division
    requires { (0 < magnitude b) × (d.quotient.hi < 9223372036854775808) × (magnitude d.remainder < 2 * magnitude b) }
    ensures { (magnitude result.quotient ≡ 2 * magnitude d.quotient + magnitude d.remainder / magnitude b) × (magnitude result.remainder ≡ magnitude d.remainder % magnitude b) }
{
    let rest = d.remainder;
    let twice = double(d.quotient);
    if rest < b {
        return Division {
            quotient: twice,
            remainder: rest,
        };
    }
    Division {
        quotient: Words {
            hi: twice.hi,
            lo: twice.lo + 1,
        },
        remainder: sub_words(rest, b),
    }
}

// By doubling the divisor: at most 128 calls deep.
#[tactic(auto, using(crate::proofs::Quotients::twice))]
fn divide(a: Words, b: Words) -> Division
    requires { 0 < magnitude b }
    ensures { (magnitude result.quotient ≡ magnitude a / magnitude b) × (magnitude result.remainder ≡ magnitude a % magnitude b) }
{
    if a < b {
        return Division {
            quotient: ZERO,
            remainder: a,
        };
    }
    if HALF <= b.hi {
        return Division {
            quotient: Words { hi: 0, lo: 1 },
            remainder: sub_words(a, b),
        };
    }
    halved(divide(a, double(b)), b)
}

// The quotient; two plain words are divided as such.
fn div_words(a: Words, b: Words) -> Words
    requires { 0 < magnitude b }
    ensures { magnitude result ≡ magnitude a / magnitude b }
{
    if a.hi == 0 && b.hi == 0 {
        return Words {
            hi: 0,
            lo: a.lo / b.lo,
        };
    }
    divide(a, b).quotient
}

// By squaring: the exponent halves with each call, so at most 32 of them.
#[tactic(auto, using(crate::proofs::Power::powering))]
fn pow_words(base: Words, exponent: u32) -> Option<Words>
    ensures { result ≡ magnitude_of (magnitude base ^ exponent) }
{
    if exponent == 0 {
        return Some(Words { hi: 0, lo: 1 });
    }
    if exponent == 1 {
        return Some(base);
    }
    let square = mul_words(base, base)?;
    let even = pow_words(square, exponent / 2)?;
    if exponent % 2 == 0 {
        Some(even)
    } else {
        mul_words(even, base)
    }
}

// The signed magnitude, where it lies within the range.
fn fit(neg: bool, words: Words) -> Option<Int128>
    ensures { result ≡ checked (signed neg (magnitude words)) }
{
    if words.hi < HALF {
        let neg = neg && words != ZERO;
        return Some(Int128 { neg, words });
    }
    (neg && words == LEAST).then_some(Int128 { neg, words })
}

// The sum of magnitudes of different signs: the sign is that of the larger.
fn differ(neg: bool, a: Words, b: Words) -> Option<Int128>
    ensures { result ≡ checked (signed neg (magnitude a) +ℤ signed (not neg) (magnitude b)) }
{
    if a < b {
        fit(!neg, sub_words(b, a))
    } else {
        fit(neg, sub_words(a, b))
    }
}

impl From<u64> for Int128 {
    ghost from_gives = { λ value i. i ≡ int128 false value };

    fn from(value: u64) -> Self {
        Self {
            neg: false,
            words: Words { hi: 0, lo: value },
        }
    }
}

impl TryFrom<Int128> for u64 {
    type Error = OutOfRange;

    ghost try_from_gives = { λ i r. result_ok r ≡ word_of (value_of i) };

    #[tactic(auto, unfolding(crate::specs::Whole::word_of))]
    fn try_from(i: Int128) -> Result<u64, OutOfRange> {
        let Words { hi, lo } = i.words;
        if hi == 0 && (lo == 0 || !i.neg) {
            Ok(lo)
        } else {
            Err(OutOfRange)
        }
    }
}

impl Int128 {
    pub fn checked_neg(self) -> Option<Self>
        ensures { result ≡ checked (neg_ℤ (value_of self)) }
    {
        fit(!self.neg, self.words)
    }

    #[tactic(auto, using(crate::proofs::Signs::adding))]
    pub fn checked_add(self, other: Self) -> Option<Self>
        ensures { result ≡ checked (value_of self +ℤ value_of other) }
    {
        if self.neg != other.neg {
            return differ(self.neg, self.words, other.words);
        }
        fit(self.neg, add_words(self.words, other.words)?)
    }

    #[tactic(auto, using(crate::proofs::Signs::negated))]
    pub fn checked_sub(self, other: Self) -> Option<Self>
        ensures { result ≡ checked (value_of self -ℤ value_of other) }
    {
        self.checked_add(Self {
            neg: !other.neg,
            words: other.words,
        })
    }

    #[tactic(auto, using(crate::proofs::Signs::multiplying))]
    pub fn checked_mul(self, other: Self) -> Option<Self>
        ensures { result ≡ checked (value_of self *ℤ value_of other) }
    {
        let product = mul_words(self.words, other.words)?;
        fit(self.neg != other.neg, product)
    }

    #[tactic(auto, using(crate::proofs::Quotients::quotients))]
    pub fn checked_div(self, other: Self) -> Option<Self>
        ensures { result ≡ divided (value_of self) (value_of other) }
    {
        if other.words == ZERO {
            return None;
        }
        let quotient = div_words(self.words, other.words);
        fit(self.neg != other.neg, quotient)
    }

    // The exponent is from 0 to 2^32 - 1.
    pub fn checked_pow(self, exponent: Self) -> Option<Self>
        ensures { result ≡ powered (value_of self) (value_of exponent) }
    {
        let n = u64::try_from(exponent).ok()?;
        let n = u32::try_from(n).ok()?;
        let power = pow_words(self.words, n)?;
        fit(self.neg && n % 2 == 1, power)
    }

    #[tactic(auto, unfolding(crate::specs::Whole::positive))]
    pub fn is_positive(self) -> bool
        ensures { result ≡ positive (value_of self) }
    {
        !self.neg && self.words != ZERO
    }
}
