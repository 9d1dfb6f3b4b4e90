ghost use Rattle.std.specs.Prelude.{◌≡◌};
ghost use Rattle.reading.specs.Section.{kinds_of};

use crate::spelling::Spelling;

// The bytes of a file, with how each of its texts is spelled.
#[derive(Clone, Copy)]
pub struct Source<'a> {
    pub bytes: &'a [u8],
    pub kinds: &'a [Spelling],
    ghost kinds_known: { kinds.now ≡ kinds_of bytes.now },
}
