// Reads a tree on standard input and prints its listing, or refused, number and place.
#![tactic(auto)]

use std::io;

// One byte more than a tree may have is enough to be refused.
fn main(rt: HostRuntime) -> io::Result<()> {
    let mut space = [0u8; 16385];
    let mut scratch = [0u8; 65536];
    let mut listing = [0u8; 65536];
    let n = cases::read_full(&mut rt.stdin(), &mut space)?;
    let answer = checker::check(&space[..n], &mut scratch, &mut listing);
    output::print(&mut rt.stdout(), answer, &listing)
}
