// Validates the bytes of a tree file: what the decoder answers, without the tree.
#![tactic(auto, using(reading::proofs::Steps::steps))]

mod bodies;

ghost use Rattle.std.specs.Prelude.{◌≡◌};
ghost use Rattle.tree.specs.Decode.{decode};
ghost use Rattle.reading.specs.Answers.{answer, forget};
ghost use Rattle.reader.specs.Answers.{told, refusal_of};

use reading::answers::{Read, refuse};
use reading::source::Source;
use reading::spelling::Spelling;
use reading::texts;
use refusal::{Refusal, Refused};

const FILE_LIMIT: usize = 16384;

const STMT_LEVELS: usize = 8;

pub fn validate(tree: &[u8]) -> Result<(), Refused>
    ensures { told result ≡ refusal_of (decode tree.now) }
{
    match read_file(tree) {
        Read::At(_, _) => Ok(()),
        Read::Refused(refused) => Err(refused),
    }
}

#[tactic(auto, unfolding(reading::specs::Answers::forget, tree::specs::Decode::decode, tree::specs::Decode::file, tree::specs::Decode::size, tree::specs::Decode::nothing_left, tree::specs::Ans::bind, tree::specs::Ans::here, tree::specs::Ans::check, tree::specs::Ans::done, tree::specs::Ans::refuse), using(reading::proofs::Steps::steps, crate::proofs::File::file_texts))]
fn read_file(s: &[u8]) -> Read<()>
    ensures { answer result ≡ forget (decode s.now) }
{
    if FILE_LIMIT < s.len() {
        return refuse(Refusal::LongTree, FILE_LIMIT);
    }
    let a = texts::read_text_count(s);
    let Read::At(count, first) = a else {
        return a.into_place();
    };
    let n = usize::from(count);
    // Fixed memory: room for all the kinds there may be.
    let mut kinds = [Spelling::Neither; texts::TEXTS_LIMIT];
    let b = texts::read_texts(s, first, n, &mut kinds);
    let Read::At(_, k) = b else {
        return b;
    };
    let source = Source {
        bytes: s,
        kinds: &kinds[..n],
    };
    let c = bodies::read_body(&source, k, STMT_LEVELS);
    let Read::At(_, end) = c else {
        return c;
    };
    if end < s.len() {
        return refuse(Refusal::WrongEnd, end);
    }
    c
}
