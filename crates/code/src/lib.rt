// Codes: k data blocks, m check blocks, and any k of them give all of them back.
#![tactic(auto)]

ghost use Rattle.std.specs.Prelude.{◌≡◌, length, nat_lt};
ghost use Rattle.block.specs.Count.{count};
ghost use Rattle.code.specs.Word.{Coding, Limits, AnyKBlocksBelongToExactlyOneWord, Completes};
ghost use Rattle.code.specs.Making.{admitted};
ghost use Rattle.code.specs.Calls.{Checks, Rebuilds, marks_held};

use refusal::kind::Refusal;

// The numbers of blocks in a word.
#[derive(Clone, Copy, PartialEq, Eq, Debug)]
pub struct Sizes {
    // data blocks
    pub k: usize,
    // check blocks
    pub m: usize,
}

impl Sizes {
    // Whether a code may have these numbers of blocks.
    pub fn is_admitted(&self) -> bool
        ensures { result ≡ admitted self.now.k self.now.m }
    {
        (1..=12).contains(&self.k) && (1..=4).contains(&self.m)
    }
}

// A code of any make. What it means is the set of its words; no type is a code without the proofs of its laws.
pub trait Code {
    ghost coding: { Self → Coding };

    ghost limits: { (s : Self) → Limits (coding s) };

    // any k blocks, put at any k different block numbers, belong to exactly one word
    ghost determines: { (s : Self) → AnyKBlocksBelongToExactlyOneWord (coding s) };

    ghost completes: { (s : Self) → Completes (coding s) };

    fn sizes(&self) -> Sizes
        ensures k { result.k ≡ (coding self.now).k }
        ensures m { result.m ≡ (coding self.now).m };

    // Writes check e of k blocks of data.
    fn check(&self, e: usize, given: &[u8], out: &mut [u8]) -> Result<(), Refusal>
        ensures { Checks (coding self.now) e given.now out.old result out.new };

    // Writes the block of that number of the one word that has the k held blocks with the lowest numbers. The marks are bytes,
    // 0 for missing and any other for held: flags would ask more of callers.
    fn rebuild(
        &self,
        number: usize,
        marks: &[u8],
        blocks: &[u8],
        out: &mut [u8],
    ) -> Result<(), Refusal>
        ensures { Rebuilds (coding self.now) number marks.now blocks.now out.old result out.new };
}

// How many marks say that a block is held.
#[tactic(auto, using(crate::proofs::Marks::count_marks))]
pub fn count_held(marks: &[u8]) -> usize
    ensures { result ≡ count (marks_held marks.now) (length marks.now) }
{
    marks.iter().filter(|mark| **mark != 0).count()
}

// Whether the marks leave fewer than k blocks.
pub fn too_few(marks: &[u8], k: usize) -> bool
    ensures { result ≡ nat_lt (count (marks_held marks.now) (length marks.now)) k }
{
    count_held(marks) < k
}
