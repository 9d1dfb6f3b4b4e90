// Runs the edges of the 128-bit numbers and prints each result in decimal, or none.
#![tactic(auto)]

use int128::{Int128, Words};
use std::{fmt, io};

const MAX: Int128 = Int128 {
    neg: false,
    words: Words {
        hi: u64::MAX >> 1,
        lo: u64::MAX,
    },
};

const MIN: Int128 = Int128 {
    neg: true,
    words: Words { hi: 1 << 63, lo: 0 },
};

// A result, to be printed.
#[derive(Drop)]
struct Answer(Option<Int128>);

impl fmt::Display for Answer {
    fn fmt<W: fmt::Write>(&self, f: &mut fmt::Formatter<W>) -> fmt::Result {
        let Some(Int128 { neg, words }) = self.0 else {
            return f.write_str("none");
        };
        let sign = if neg { "-" } else { "" };
        let magnitude = u128::from(words.hi) << 64 | u128::from(words.lo);
        write!(f, "{sign}{magnitude}")
    }
}

type Row = (&'static str, Option<Int128>);

fn plus(n: u64) -> Int128 {
    Int128::from(n)
}

fn minus(n: u64) -> Int128 {
    Int128 {
        neg: true,
        words: Words { hi: 0, lo: n },
    }
}

fn words(hi: u64, lo: u64) -> Int128 {
    Int128 {
        neg: false,
        words: Words { hi, lo },
    }
}

fn print<R: Print>(rt: &R, rows: &[Row]) -> io::Result<()> {
    for (label, answer) in rows {
        let answer = Answer(*answer);
        println!(rt; "{label} = {answer}")?;
    }
    Ok(())
}

fn powers() -> [Row; 8] {
    let e127 = plus(127);
    let e32 = plus(4294967295);
    [
        ("(-2)**127", minus(2).checked_pow(e127)),
        ("2**127", plus(2).checked_pow(e127)),
        ("(-1)**(2^32 - 1)", minus(1).checked_pow(e32)),
        ("1**(2^32 - 1)", plus(1).checked_pow(e32)),
        ("2**(2^32 - 1)", plus(2).checked_pow(e32)),
        ("1**(2^32)", plus(1).checked_pow(plus(4294967296))),
        ("1**(-1)", plus(1).checked_pow(minus(1))),
        ("0**0", plus(0).checked_pow(plus(0))),
    ]
}

fn quotients() -> [Row; 5] {
    [
        ("-7/2", minus(7).checked_div(plus(2))),
        ("7/-2", plus(7).checked_div(minus(2))),
        ("7/0", plus(7).checked_div(plus(0))),
        ("-2^127 / -1", MIN.checked_div(minus(1))),
        ("(2^127 - 1) / (2^64 + 1)", MAX.checked_div(words(1, 1))),
    ]
}

fn products() -> [Row; 4] {
    let word = plus(u64::MAX);
    [
        ("2^63 * 2^64", plus(1 << 63).checked_mul(words(1, 0))),
        ("-2^63 * 2^64", minus(1 << 63).checked_mul(words(1, 0))),
        (
            "(2^64 - 1) * (2^63 - 1)",
            word.checked_mul(plus(u64::MAX >> 1)),
        ),
        ("(2^64 - 1) * (2^64 - 1)", word.checked_mul(word)),
    ]
}

fn at_top() -> [Row; 9] {
    [
        ("max + 0", MAX.checked_add(plus(0))),
        ("max + 1", MAX.checked_add(plus(1))),
        ("max - 1", MAX.checked_sub(plus(1))),
        ("max - -1", MAX.checked_sub(minus(1))),
        ("max * 1", MAX.checked_mul(plus(1))),
        ("max * -1", MAX.checked_mul(minus(1))),
        ("max / -1", MAX.checked_div(minus(1))),
        ("max ** 1", MAX.checked_pow(plus(1))),
        ("-max", MAX.checked_neg()),
    ]
}

fn at_bottom() -> [Row; 10] {
    [
        ("min + 0", MIN.checked_add(plus(0))),
        ("min + -1", MIN.checked_add(minus(1))),
        ("min - 1", MIN.checked_sub(plus(1))),
        ("min + max", MIN.checked_add(MAX)),
        ("min * 1", MIN.checked_mul(plus(1))),
        ("min * -1", MIN.checked_mul(minus(1))),
        ("min / 1", MIN.checked_div(plus(1))),
        ("min ** 1", MIN.checked_pow(plus(1))),
        ("min ** 2", MIN.checked_pow(plus(2))),
        ("-min", MIN.checked_neg()),
    ]
}

fn main(rt: HostRuntime) -> io::Result<()> {
    print(&rt, &powers())?;
    print(&rt, &quotients())?;
    print(&rt, &products())?;
    print(&rt, &at_top())?;
    print(&rt, &at_bottom())
}
