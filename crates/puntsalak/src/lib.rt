// The checker with its answer as four numbers, as C is given it: crates/puntsalak_c exports it.
#![tactic(auto)]

ghost use Rattle.std.specs.Prelude.{◌≡◌, ℕ, length};
ghost use Rattle.answer.specs.Answer.{accepted, answer as answerTo, listing_after, scratch_after};
ghost use Rattle.claims.specs.Claim.{Claim};
ghost use Rattle.verdict.specs.Verdict.{answer_of};
ghost use Rattle.puntsalak.specs.Four.{four_of};

use refusal::Refused;
use verdict::Answer;

// The four numbers of an answer. A function and no `From`: Result and array are both of another crate.
fn four(answer: Answer) -> [u64; 4]
    ensures { result ≡ four_of (answer_of answer) }
{
    match answer {
        Ok(listed) => [
            0,
            // std has no From<usize> for u64.
            listed.errors as u64,
            listed.warnings as u64,
            listed.size as u64,
        ],
        Err(Refused { refusal, place }) => [u64::from(u8::from(refusal)), place as u64, 0, 0],
    }
}

pub fn puntsalak_check(tree: &[u8], scratch: &mut [u8], listing: &mut [u8], answer: &mut [u64; 4])
    ensures answers { answer.new ≡ four_of (answerTo tree.now (length scratch.old) (length listing.old)) }
    ensures listed { listing.new ≡ listing_after tree.now listing.old (answerTo tree.now (length scratch.old) (length listing.old)) }
    ensures cleared { scratch.new ≡ scratch_after scratch.old }
    ensures billed { (errors warnings size : ℕ) → answerTo tree.now (length scratch.old) (length listing.old) ≡ accepted errors warnings size → Claim tree.now listing.new size }
{
    *answer = four(checker::check(tree, scratch, listing));
}
