// Prints an answer of the checker: the listing, or refused, number and place.
#![tactic(auto)]

ghost use Rattle.std.specs.Prelude.{◌≡◌, ℕ, ◌≤◌, length, OnOk};
ghost use Rattle.std.specs.Io.KnownBytes.{Appends};
ghost use Rattle.answer.specs.Answer.{accepted};
ghost use Rattle.verdict.specs.Verdict.{answer_of};
ghost use Rattle.output.specs.Printed.{printed};

use std::io;
use std::io::Write;
use verdict::Answer;

// The listing stands at the beginning of its buffer.
pub fn print<W: Write>(out: &mut W, a: Answer, listing: &[u8]) -> io::Result<()>
    requires { (errors warnings size : ℕ) → answer_of a ≡ accepted errors warnings size → size ≤ length listing.now }
    ensures { OnOk result (Appends (W.contents out.old) (W.contents out.new) (printed (answer_of a) listing.now)) }
{
    match a {
        Ok(listed) => out.write_all(&listing[..listed.size]),
        Err(refused) => writeln!(out, "{refused}"),
    }
}
