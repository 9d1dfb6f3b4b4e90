// Options and Vecs of what a closure reads from a place on.
#![tactic(auto, unfolding(crate::specs::Answers::forget), using(crate::proofs::Held::options, crate::proofs::Held::vecs))]

ghost use Rattle.std.specs.Prelude.{◌≡◌};
ghost use Rattle.tree.specs.Ans.{Reader};
ghost use Rattle.tree.specs.Read.{option, vec};
ghost use Rattle.reading.specs.Answers.{answer, forget, Reads};

use crate::answers::Read;
use crate::numbers::{FLAGS, read_case, read_count};

pub fn read_option<F: Fn(usize) -> Read<()>>(s: &[u8], at: usize, read: F) -> Read<()>
    requires { F.IsAlwaysCallable read }
    ensures { (p : Reader (Unit {0})) → Reads (F.post read) p s.now → answer result ≡ forget (option p s.now at) }
{
    let a = read_case(s, at, FLAGS);
    let Read::At(b, k) = a else {
        return a.into_place();
    };
    if b == 0 {
        return Read::At((), k);
    }
    read(k)
}

pub fn read_vec<F: Fn(usize) -> Read<()>>(s: &[u8], at: usize, read: F) -> Read<()>
    requires { F.IsAlwaysCallable read }
    ensures { (p : Reader (Unit {0})) → Reads (F.post read) p s.now → answer result ≡ forget (vec p s.now at) }
{
    let a = read_count(s, at);
    let Read::At(n, first) = a else {
        return a.into_place();
    };
    let mut k = first;
    for _ in 0..n {
        let b = read(k);
        let Read::At(_, next) = b else {
            return b;
        };
        k = next;
    }
    Read::At((), k)
}
