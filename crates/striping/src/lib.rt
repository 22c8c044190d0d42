// A file cut into stripes of k data blocks, each protected by a code, hurt, and brought back.
#![tactic(auto)]

ghost use Rattle.std.specs.Prelude.{◌≡◌, ℕ, ◌+◌, ◌*◌, ◌<◌, ◌≤◌, true, false, ◌++◌, length, is_ok, IfOk, if◌then◌else◌, None, Some, MatchResult, ◌≢◌, ◌⊎◌, slice_index};
ghost use Rattle.block.specs.Block.{Blocks};
ghost use Rattle.block.specs.Count.{count};
ghost use Rattle.code.specs.Word.{lowest};
ghost use Rattle.code.specs.Calls.{block_at, first, marked, marks_held};
ghost use Rattle.refusal.specs.Answer.{Does};
ghost use Rattle.striping.specs.Stripe.{Stores, Leaves, Repaired, Fails, protect_refusal, repair_refusal, survive_refusal};

use block::{BLOCK, load};
use code::{Code, too_few};
use refusal::kind::Refusal;
use std::alloc::{AllocError, Global};

pub mod failure;

use failure::Failure;

// Writes the checks behind the data of a stripe, which is then the word of the data.
fn add_checks<C: Code>(code: &C, stripe: &mut [u8])
    requires { length stripe.old ≡ ((C.Code.coding code.now).k + (C.Code.coding code.now).m) * 64 }
    ensures { Stores ((C.Code.coding code.now).k + (C.Code.coding code.now).m) stripe.new ((C.Code.coding code.now).whole (first (C.Code.coding code.now).k stripe.old)) }
{
    let sizes = code.sizes();
    let (given, checks) = stripe.split_at_mut(sizes.k * BLOCK);
    for e in 0..sizes.m {
        // By its place: of chunks that are handed out to be written nothing is known afterwards.
        let at = e * BLOCK;
        // Not refused: it is the number of a check, and the lengths are right.
        let _ = code.check(e, given, &mut checks[at..at + BLOCK]);
    }
}

// Puts zeros in place of every whole block whose mark says that it is missing.
pub fn forget(marks: &[u8], blocks: &mut [u8])
    ensures kept { (i : ℕ) → marks_held marks.now i ≡ true → block_at blocks.new i ≡ block_at blocks.old i }
    ensures gone { (i j : ℕ) → i < length marks.now → i * 64 + 64 ≤ length blocks.new → j < 64 → marks_held marks.now i ≡ false → slice_index (block_at blocks.new i) j ≡ 0 }
    ensures rest { (i : ℕ) → (length marks.now ≤ i) ⊎ (length blocks.new < i * 64 + 64) → block_at blocks.new i ≡ block_at blocks.old i }
{
    let whole = marks.len().min(blocks.len() / BLOCK);
    for (i, mark) in marks[..whole].iter().enumerate() {
        if *mark == 0 {
            // By its place: of chunks that are handed out to be written nothing is known afterwards.
            let at = i * BLOCK;
            blocks[at..at + BLOCK].fill(0);
        }
    }
}

// What a stripe of a code loses, where the code makes it good: a mark for each block, and enough of them held.
#[derive(Drop)]
struct Losses<'a, C: Code> {
    code: &'a C,
    marks: &'a [u8],
    ghost long: { length marks.now ≡ (C.Code.coding code.now).k + (C.Code.coding code.now).m },
    ghost enough: { (C.Code.coding code.now).k ≤ count (marks_held marks.now) (length marks.now) },
}

// The stripe is handed on apart: one room serves all stripes of a file.
impl<'a, C: Code> Losses<'a, C> {
    // Refused where the marks are not as many as the blocks, or leave too few of them.
    fn of(code: &'a C, marks: &'a [u8]) -> Result<Losses<'a, C>, Refusal>
        ensures { MatchResult result (λ l. (survive_refusal (C.Code.coding code.now) marks.now ≡ None) × ((l.code.now ≡ code.now) × (l.marks.now ≡ marks.now))) (λ f. survive_refusal (C.Code.coding code.now) marks.now ≡ Some f) }
    {
        let sizes = code.sizes();
        if marks.len() != sizes.k + sizes.m {
            return Err(Refusal::Length);
        }
        if too_few(marks, sizes.k) {
            return Err(Refusal::TooFewBlocks);
        }
        Ok(Losses { code, marks })
    }

    // Rebuilds one block of a stripe from those that the marks leave.
    fn restore(&self, i: usize, stripe: &mut [u8])
        requires { (i < length self.now.marks.now) × (length stripe.old ≡ length self.now.marks.now * 64) }
        ensures here { block_at stripe.new i ≡ (C.Code.coding self.now.code.now).whole (lowest (C.Code.coding self.now.code.now).k (marked self.now.marks.now stripe.old)) i }
        ensures others { (c : ℕ) → (c ≢ i) → block_at stripe.new c ≡ block_at stripe.old c }
    {
        // A block apart, since the stripe is read while it is written.
        let mut block = [0; BLOCK];
        // Not refused: there is such a block, enough are left, and the lengths are right.
        let _ = self.code.rebuild(i, self.marks, stripe, &mut block);
        // By its place: of chunks that are handed out to be written nothing is known afterwards.
        let at = i * BLOCK;
        stripe[at..at + BLOCK].copy_from_slice(&block);
    }

    // Rebuilds every block whose mark says that it is missing: what is left of a word becomes the word.
    fn restore_all(&self, stripe: &mut [u8])
        requires { length stripe.old ≡ length self.now.marks.now * 64 }
        ensures { (w : Blocks) → (C.Code.coding self.now.code.now).Word w → Leaves self.now.marks.now (length self.now.marks.now) stripe.old w → Stores (length self.now.marks.now) stripe.new w }
    {
        for (i, mark) in self.marks.iter().enumerate() {
            if *mark == 0 {
                self.restore(i, stripe);
            }
        }
    }

    // Carries one part of a file through the losses, and adds what came back to the result; `stripe` is room for a stripe.
    fn carry(&self, part: &[u8], stripe: &mut [u8], out: &mut Vec<u8>) -> Result<(), AllocError>
        requires long { length stripe.old ≡ length self.now.marks.now * 64 }
        requires part { length part.now ≤ (C.Code.coding self.now.code.now).k * 64 }
        ensures { out.new.items ≡ (if is_ok result then out.old.items ++ part.now else out.old.items) }
    {
        load(stripe, part);
        add_checks(self.code, stripe);
        forget(self.marks, stripe);
        self.restore_all(stripe);
        out.extend_from_slice(&stripe[..part.len()])
    }

    // Carries the whole file, stripe by stripe.
    fn carry_all(&self, heap: Global, file: &[u8]) -> Result<Vec<u8>, AllocError>
        ensures { IfOk result (λ v. v.items ≡ file.now) }
    {
        // A fixed buffer with room for the widest stripe, so that nothing but the result needs memory.
        let mut room = [0; 16 * BLOCK];
        let stripe = &mut room[..self.marks.len() * BLOCK];
        let mut out = Vec::new(heap);
        for part in file.chunks(self.code.sizes().k * BLOCK) {
            self.carry(part, stripe, &mut out)?;
        }
        Ok(out)
    }
}

// Lays k data blocks and their checks, the word of the data, into a stripe.
pub fn protect<C: Code>(code: &C, given: &[u8], stripe: &mut [u8]) -> Result<(), Refusal>
    ensures { Does (protect_refusal (C.Code.coding code.now) (length given.now) (length stripe.old)) stripe.old (λ is. Stores ((C.Code.coding code.now).k + (C.Code.coding code.now).m) is ((C.Code.coding code.now).whole (first (C.Code.coding code.now).k given.now))) result stripe.new }
{
    let sizes = code.sizes();
    if given.len() != sizes.k * BLOCK || stripe.len() != (sizes.k + sizes.m) * BLOCK {
        return Err(Refusal::Length);
    }
    load(stripe, given);
    add_checks(code, stripe);
    Ok(())
}

// Rebuilds the blocks of a stripe whose marks are 0.
pub fn repair<C: Code>(code: &C, marks: &[u8], stripe: &mut [u8]) -> Result<(), Refusal>
    ensures { Does (repair_refusal (C.Code.coding code.now) marks.now (length stripe.old)) stripe.old (λ is. Repaired (C.Code.coding code.now) marks.now stripe.old is) result stripe.new }
{
    let sizes = code.sizes();
    if stripe.len() != (sizes.k + sizes.m) * BLOCK {
        return Err(Refusal::Length);
    }
    let losses = Losses::of(code, marks)?;
    losses.restore_all(stripe);
    Ok(())
}

// What comes back of a file that is cut into stripes, protected by the code, and then loses in every stripe the blocks
// whose marks are 0: the file.
pub fn survive<C: Code>(
    heap: Global,
    code: &C,
    file: &[u8],
    marks: &[u8],
) -> Result<Vec<u8>, Failure>
    ensures { MatchResult result (λ v. (survive_refusal (C.Code.coding code.now) marks.now ≡ None) × (v.items ≡ file.now)) (λ f. Fails (C.Code.coding code.now) marks.now f) }
{
    let losses = Losses::of(code, marks)?;
    Ok(losses.carry_all(heap, file)?)
}
