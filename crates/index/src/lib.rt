// The places of the texts of an accepted tree.
#![tactic(auto)]

ghost use Rattle.std.specs.Prelude.{◌≡◌, length};
ghost use Rattle.tree.specs.Ans.{IsOk, next_of};
ghost use Rattle.tree.specs.Texts.{texts};
ghost use Rattle.tree.specs.Decode.{decode};
ghost use Rattle.context.specs.View.{TextsAt};

use accepted::numbers::u16_at;

// The places of the texts' length bytes, and the place past the texts.
#[tactic(auto, using(crate::proofs::Places::count_in, crate::proofs::Places::few_placed, crate::proofs::Places::place_inside))]
pub fn place_texts(tree: &[u8], places: &mut [usize]) -> usize
    requires { IsOk (decode tree.now) × (length places.old ≡ 256) }
    ensures { (result ≡ next_of (texts tree.now 0)) × TextsAt tree.now places.new }
{
    let n = u16_at(tree, 0);
    let mut at = 2;
    for place in &mut places[..n] {
        *place = at;
        at += 1 + usize::from(tree[at]);
    }
    at
}
