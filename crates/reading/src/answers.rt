// What a read answers: the value and the place past it, or the refusal.
#![tactic(auto, unfolding(crate::specs::Answers::forget, crate::specs::Answers::tested, tree::specs::Ans::bind))]

ghost use Rattle.std.specs.Prelude.{◌≡◌, Bool};
ghost use Rattle.refusal.specs.Refusal.{number_of};
ghost use Rattle.tree.specs.Ans.{refused};
ghost use Rattle.reading.specs.Answers.{answer, forget, tested, Mapped};

use refusal::{Refusal, Refused};

// An enum and no Result: a read is taken apart by `let .. else` and its refusal passed up, or tested by `check`.
#[derive(Clone, Copy)]
pub enum Read<T> {
    At(T, usize),
    Refused(Refused),
}

pub fn refuse<T>(refusal: Refusal, place: usize) -> Read<T>
    ensures { answer result ≡ refused (number_of refusal) place }
{
    Read::Refused(Refused { refusal, place })
}

impl<T: Copy> Read<T> {
    pub fn map<U, F: FnOnce(T) -> U>(self, f: F) -> Read<U>
        requires { F.IsAlwaysCallable f }
        ensures { Mapped (F.post f) (answer self) (answer result) }
    {
        match self {
            Read::At(value, next) => Read::At(f(value), next),
            Read::Refused(refused) => Read::Refused(refused),
        }
    }

    // The value, if it passes the test. By `match`: of a read that is given back behind `let .. else` the borrow check knows too little.
    pub(crate) fn check<F: FnOnce(T) -> bool>(
        self,
        test: F,
        refusal: Refusal,
        place: usize,
    ) -> Read<T>
        requires { F.IsAlwaysCallable test }
        ensures { (p : T → Bool) → ((value : T) (b : Bool) → F.post test value b → b ≡ p value) → answer result ≡ tested p (number_of refusal) place (answer self) }
    {
        match self {
            Read::At(value, next) => {
                if test(value) {
                    Read::At(value, next)
                } else {
                    refuse(refusal, place)
                }
            }
            Read::Refused(refused) => Read::Refused(refused),
        }
    }

    // The place alone: a refusal is passed up so, and of a list or a tree there is nothing else to hold.
    pub fn into_place(self) -> Read<()>
        ensures { answer result ≡ forget (answer self) }
    {
        self.map(|_| ())
    }
}
