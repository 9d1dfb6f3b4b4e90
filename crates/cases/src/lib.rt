// Reads the trees of a file of cases, each behind its length in four bytes.
#![tactic(auto)]

ghost use Rattle.std.specs.Prelude.{◌≡◌, ◌<◌, ◌≤◌, ℕ, List, Option, Ok, length, take, IfOk};
ghost use Rattle.std.specs.Fn.{CalledAt};
ghost use Rattle.std.specs.Io.KnownBytes.{Consumes, IsAtEnd};
ghost use Rattle.cases.specs.Case.{size_of, length_bytes, Taken, Given};

use std::io;
use std::io::Read;

// So many trees at most: the loop has a bound, since nothing says that an input ends.
const CASES: usize = 10000;

// Reads until the buffer is full or the input ends: how many bytes were read. (`read_exact` fails where the input ends.)
pub fn read_full<R: Read>(input: &mut R, buffer: &mut [u8]) -> io::Result<usize>
    ensures bound { IfOk result (λ n. n ≤ length buffer.new) }
    ensures bytes { IfOk result (λ n. Consumes (R.remaining input.old) (R.remaining input.new) (take n buffer.new)) }
    ensures end { IfOk result (λ n. n < length buffer.new → IsAtEnd (R.remaining input.new)) }
{
    let mut at = 0;
    while at < buffer.len() {
        let n = input.read(&mut buffer[at..])?;
        if n == 0 {
            break;
        }
        at += n;
    }
    Ok(at)
}

// A length in four bytes, the high one first.
fn size_in(bytes: [u8; 4]) -> usize
    ensures { length_bytes result ≡ bytes }
{
    // std has no From<u32> for usize.
    u32::from_be_bytes(bytes) as usize
}

// The next tree, at the beginning of the space: its length. None at the end, also where it has no room or is cut short.
pub fn next<R: Read>(input: &mut R, space: &mut [u8]) -> io::Result<Option<usize>>
    ensures size { IfOk result (λ c. size_of c ≤ length space.new) }
    ensures taken { IfOk result (Taken (R.remaining input.old) (R.remaining input.new) space.new) }
{
    let mut size = [0u8; 4];
    if read_full(input, &mut size)? < 4 {
        return Ok(None);
    }
    let n = size_in(size);
    if space.len() < n {
        return Ok(None);
    }
    if read_full(input, &mut space[..n])? < n {
        return Ok(None);
    }
    Ok(Some(n))
}

// Gives the trees, at most `CASES`, to the closure, one after the other.
pub fn each<R: Read, F: FnMut(&[u8]) -> io::Result<()>>(
    input: &mut R,
    space: &mut [u8],
    mut visit: F,
) -> io::Result<()>
    requires { F.IsAlwaysCallable visit }
    ensures { IfOk result (λ _. (rest : Option (List ℕ)) × (last : F) × Given (λ f tree g. CalledAt F.FnMut f tree (Ok tt) g) visit (R.remaining input.old) rest last) }
{
    for _ in 0..CASES {
        let Some(n) = next(input, space)? else {
            break;
        };
        visit(&space[..n])?;
    }
    Ok(())
}
