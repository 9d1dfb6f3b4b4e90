// The checking list of a tree.
#![tactic(auto)]

ghost use Rattle.std.specs.Prelude.{◌≡◌, ℕ, ◌+◌, ◌≤◌, length};
ghost use Rattle.tree.specs.Ans.{IsOk, next_of};
ghost use Rattle.tree.specs.Texts.{texts as read_texts};
ghost use Rattle.tree.specs.Decode.{decode};
ghost use Rattle.sema.specs.Limits.{key_limit};
ghost use Rattle.sema.specs.Keys.{keys as keys_of};
ghost use Rattle.answer.specs.Answer.{accepted, answer, judge_program, listing_after, scratch_after};
ghost use Rattle.claims.specs.Claim.{program_of, Claim};
ghost use Rattle.std.proofs.lemmas.List.Edits.{sets};
ghost use Rattle.verdict.specs.Verdict.{answer_of, Learnt, Listable};
ghost use Rattle.checker.specs.Check.{IsOk-prop, SameRest, program_listing, Judged, JudgedFile, Ran, Known, Told};

use context::{Index, Key, Places, Sink, State, Texts};
use refusal::{Refusal, Refused};
use verdict::Answer;

// Lines of so many bytes need one walk. An array of its own: the walk writes into a slice that is lent.
const STAGE: usize = 8192;

// A file that was accepted, and the place of its statements.
#[derive(Clone, Copy)]
struct File<'a> {
    texts: Texts<'a>,
    at: usize,
    ghost accepted: { IsOk (decode texts.tree.now) } by { IsOk-prop (decode texts.tree.now) },
    ghost begins: { at ≡ next_of (read_texts texts.tree.now 0) },
}

impl File<'_> {
    // One walk over the whole tree, behind n bytes of the listing; None where the keys are too many.
    fn run(self, scratch: &mut [u8], out: &mut [u8], n: usize) -> Option<Sink>
        requires { (65536 ≤ length scratch.old) × (n ≤ 1024) }
        ensures { Ran (program_of self.entry.texts.tree.now) n scratch.old out.old result scratch.new out.new }
    {
        tables::begin(scratch);
        let mut index: Index = [Key {
            name: 0,
            index: None,
        }; 256];
        let sink = Sink {
            // n is a place of the listing buffer: TryFrom would add an error that no place gives.
            n: n as u32,
            errors: 0,
            warnings: 0,
        };
        let marks = sheet::blank();
        let end = walk::analyze_stmts(
            self.texts,
            &mut index,
            scratch,
            out,
            8,
            State {
                at: self.at,
                sink,
                keys: 0,
                marks,
            },
        )?;
        Some(end.sink)
    }

    // The first walk: it learns whether the keys are too many, the counts and the length. Its lines are kept in the stage, as far as that
    // has room.
    fn learn(self, scratch: &mut [u8], stage: &mut [u8]) -> Result<Sink, Refused>
        requires { 65536 ≤ length scratch.old }
        ensures told { Told (program_of self.entry.texts.tree.now) result stage.new }
        ensures same { SameRest scratch.old scratch.new }
    {
        let first = self.run(scratch, stage, 0);
        first.ok_or(Refusal::ManyKeys.at(0))
    }

    // The second walk writes: the counts of the first are known, and the keys are few.
    fn write(self, scratch: &mut [u8], listing: &mut [u8], sink: Sink)
        requires room { 65536 ≤ length scratch.old }
        requires few { length (keys_of (program_of self.texts.tree.now)) ≤ key_limit }
        requires learnt { Learnt (program_of self.texts.tree.now) sink × (sink.errors + sink.warnings ≤ 256) }
        ensures listed { listing.new ≡ sets listing.old 0 (program_listing (program_of self.entry.texts.tree.now)) }
        ensures same { SameRest scratch.old scratch.new }
    {
        let head = lines::first_line(listing, sink.errors, sink.warnings);
        self.run(scratch, listing, head);
    }

    // The lines that the stage had room for, or those of a second walk.
    fn write_listing(self, scratch: &mut [u8], stage: &[u8], listing: &mut [u8], sink: Sink)
        requires room { 65536 ≤ length scratch.old }
        requires known { Known (program_of self.texts.tree.now) sink stage.now }
        requires listable { Listable sink (length listing.old) }
        ensures listed { listing.new ≡ sets listing.old 0 (program_listing (program_of self.entry.texts.tree.now)) }
        ensures same { SameRest scratch.old scratch.new }
    {
        // std has no From<u32> for usize.
        let n = sink.n as usize;
        if n <= stage.len() {
            verdict::write_staged(&stage[..n], listing, sink.errors, sink.warnings);
        } else {
            self.write(scratch, listing, sink);
        }
    }

    // The first walk learns whether the keys are too many, the counts and the length; the listing is written where they are accepted.
    fn list(self, scratch: &mut [u8], listing: &mut [u8]) -> Answer
        requires { 65536 ≤ length scratch.old }
        ensures { Judged (program_of self.entry.texts.tree.now) (judge_program (length listing.old) (program_of self.entry.texts.tree.now)) scratch.old listing.old result scratch.new listing.new }
    {
        let mut stage = [0u8; STAGE];
        let sink = self.learn(scratch, &mut stage)?;
        let listed = verdict::judge(sink, listing.len())?;
        self.write_listing(scratch, &stage, listing, sink);
        Ok(listed)
    }
}

// A file that was accepted: its texts placed, its listing.
fn check_program(tree: &[u8], scratch: &mut [u8], listing: &mut [u8]) -> Answer
    requires { IsOk (decode tree.now) × (65536 ≤ length scratch.old) }
    ensures { Judged (program_of tree.now) (judge_program (length listing.old) (program_of tree.now)) scratch.old listing.old result scratch.new listing.new }
{
    let mut places: Places = [0; 256];
    let at = index::place_texts(tree, &mut places);
    let texts = Texts {
        tree,
        places: &places,
    };
    File { texts, at }.list(scratch, listing)
}

// Any bytes: refused as the file is read, or judged as a program.
fn check_file(tree: &[u8], scratch: &mut [u8], listing: &mut [u8]) -> Answer
    requires { 65536 ≤ length scratch.old }
    ensures { JudgedFile tree.now scratch.old listing.old result scratch.new listing.new }
{
    reader::validate(tree)?;
    check_program(tree, scratch, listing)
}

// The checking list of a tree. Nothing is asked of the caller; what the buffers held plays no part.
pub fn check(tree: &[u8], scratch: &mut [u8], listing: &mut [u8]) -> Answer
    ensures answers { answer_of result ≡ answer tree.now (length scratch.old) (length listing.old) }
    ensures listed { listing.new ≡ listing_after tree.now listing.old (answer tree.now (length scratch.old) (length listing.old)) }
    ensures cleared { scratch.new ≡ scratch_after scratch.old }
    ensures billed { (errors warnings size : ℕ) → answer_of result ≡ accepted errors warnings size → Claim tree.now listing.new size }
{
    if scratch.len() < 65536 {
        return Err(Refusal::ShortScratch.at(0));
    }
    let answer = check_file(tree, scratch, listing);
    tables::clear(scratch); // whatever the answer
    answer
}
