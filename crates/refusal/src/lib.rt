// Why a call is refused, and where.
#![tactic(auto)]

ghost use Rattle.std.specs.Prelude.{◌≡◌, Some};
ghost use Rattle.refusal.specs.Refusal.{number_of, text_of};

use std::fmt;

// The reasons in the order of their numbers, which begin at 1.
#[derive(Clone, Copy, Debug, PartialEq, Eq)]
pub enum Refusal {
    // The scratch is shorter than 65,536 bytes.
    ShortScratch,
    // The tree is over 16,384 bytes.
    LongTree,
    // The bytes end inside a value, or remain.
    WrongEnd,
    // A byte, a text's length or number, a spelling or an equal text is not allowed.
    NotAllowed,
    // Too many texts, or too large a count.
    LargeCount,
    // A statement or an expression is nested too deep.
    TooDeep,
    // The measure statements set too many keys.
    ManyKeys,
    // There are too many diagnostics.
    ManyDiagnostics,
    // The listing is longer than its buffer.
    LongListing,
}

// A refused call: the reason and the place.
#[derive(Clone, Copy, Debug, PartialEq, Eq)]
pub struct Refused {
    pub refusal: Refusal,
    pub place: usize,
}

impl Refusal {
    pub fn at(self, place: usize) -> Refused
        ensures { result ≡ record { refusal = self; place = place } }
    {
        Refused {
            refusal: self,
            place,
        }
    }
}

impl From<Refusal> for u8 {
    ghost from_gives = { λ refusal number. number ≡ number_of refusal };

    // By `as`, since a match would say the order of the reasons once more.
    fn from(refusal: Refusal) -> u8 {
        refusal as u8 + 1
    }
}

impl fmt::Display for Refused {
    ghost output = { λ refused. Some (text_of refused) };

    fn fmt<W: fmt::Write>(&self, f: &mut fmt::Formatter<W>) -> fmt::Result {
        write!(f, "refused {} {}", u8::from(self.refusal), self.place)
    }
}
