// Lists the trees on standard input, each behind its length in four bytes, one after the other.
#![tactic(auto)]

use std::io;
use std::io::Write;

// Prints the checker's answer to one tree.
fn list<W: Write>(
    out: &mut W,
    tree: &[u8],
    scratch: &mut [u8],
    listing: &mut [u8],
) -> io::Result<()> {
    let answer = checker::check(tree, scratch, listing);
    output::print(out, answer, listing)
}

fn main(rt: HostRuntime) -> io::Result<()> {
    let mut space = [0u8; 65536];
    let mut scratch = [0u8; 65536];
    let mut listing = [0u8; 65536];
    let mut out = rt.stdout();
    cases::each(
        &mut rt.stdin(),
        &mut space,
        |tree| list(&mut out, tree, &mut scratch, &mut listing),
    )
}
