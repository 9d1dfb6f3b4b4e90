// The answer to a program by what its first walk learnt, and the listing from lines that were kept.
#![tactic(auto)]

ghost use Rattle.std.specs.Prelude.{◌≡◌, true, ◌+◌, ◌≤◌, length};
ghost use Rattle.std.proofs.lemmas.List.Edits.{sets};
ghost use Rattle.ast.specs.Tree.{Program};
ghost use Rattle.sema.specs.Stmts.{analyze};
ghost use Rattle.answer.specs.Answer.{judge_diagnostics};
ghost use Rattle.verdict.specs.Verdict.{answer_of, is_accepted, head_of, Learnt, Listable};

use context::Sink;
use refusal::{Refusal, Refused};

// What an accepted tree has: how many errors and warnings, and the length of its listing.
#[derive(Clone, Copy)]
pub struct Listed {
    pub errors: usize,
    pub warnings: usize,
    pub size: usize,
}

pub type Answer = Result<Listed, Refused>;

// The length of the first line.
fn head_size(sink: Sink) -> usize
    requires { (sink.errors ≤ 256) × (sink.warnings ≤ 256) }
    ensures { (result ≡ length (head_of sink.errors sink.warnings)) × (result ≤ 1024) }
{
    lines::first_line(&mut [], sink.errors, sink.warnings)
}

// By the counts and the length of the lines, for a listing buffer of so many bytes.
pub fn judge(sink: Sink, room: usize) -> Answer
    ensures answers { (p : Program) → Learnt p sink → answer_of result ≡ judge_diagnostics room p (analyze p) }
    ensures fits { is_accepted (answer_of result) ≡ true → Listable sink room }
{
    // std has no From<u32> for usize.
    let n = sink.n as usize;
    let errors = usize::from(sink.errors);
    let warnings = usize::from(sink.warnings);
    let count = errors + warnings;
    if 256 < count {
        return Err(Refusal::ManyDiagnostics.at(0));
    }
    let size = head_size(sink) + n;
    if room < size {
        return Err(Refusal::LongListing.at(0));
    }
    Ok(Listed {
        errors,
        warnings,
        size,
    })
}

// The lines that a stage had room for, behind the first line.
pub fn write_staged(staged: &[u8], listing: &mut [u8], errors: u16, warnings: u16)
    requires { length (head_of errors warnings) + length staged.now ≤ length listing.old }
    ensures { listing.new ≡ sets (sets listing.old 0 (head_of errors warnings)) (length (head_of errors warnings)) staged.now }
{
    let after = lines::first_line(listing, errors, warnings);
    listing[after..after + staged.len()].copy_from_slice(staged);
}
