// The checker for C: include/puntsalak.h.
#![tactic(auto)]

ghost use Rattle.std.specs.Prelude.{◌≡◌, ℕ, length};
ghost use Rattle.answer.specs.Answer.{accepted, answer as answerTo, listing_after, scratch_after};
ghost use Rattle.claims.specs.Claim.{Claim};
ghost use Rattle.puntsalak.specs.Four.{four_of};

#[unsafe(no_mangle)]
pub extern "C" fn puntsalak_check(
    tree: &[u8],
    scratch: &mut [u8],
    listing: &mut [u8],
    answer: &mut [u64; 4],
)
    ensures answers { answer.new ≡ four_of (answerTo tree.now (length scratch.old) (length listing.old)) }
    ensures listed { listing.new ≡ listing_after tree.now listing.old (answerTo tree.now (length scratch.old) (length listing.old)) }
    ensures cleared { scratch.new ≡ scratch_after scratch.old }
    ensures billed { (errors warnings size : ℕ) → answerTo tree.now (length scratch.old) (length listing.old) ≡ accepted errors warnings size → Claim tree.now listing.new size }
{
    puntsalak::puntsalak_check(tree, scratch, listing, answer)
}
