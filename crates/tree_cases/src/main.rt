// Validates the trees on standard input, each behind its length in four bytes, and prints a line for each.
#![tactic(auto)]

use refusal::Refused;
use std::io;
use std::io::Write;

fn print<W: Write>(out: &mut W, answer: Result<(), Refused>) -> io::Result<()> {
    match answer {
        Ok(()) => writeln!(out, "accepted"),
        Err(refused) => writeln!(out, "{refused}"),
    }
}

fn main(rt: HostRuntime) -> io::Result<()> {
    let mut space = [0u8; 65536];
    let mut out = rt.stdout();
    cases::each(
        &mut rt.stdin(),
        &mut space,
        |tree| print(&mut out, reader::validate(tree)),
    )
}
