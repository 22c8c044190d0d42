// Codes that work byte by byte: their checks and rebuilds, written once for all of them.
#![tactic(auto)]

ghost use Rattle.std.specs.Prelude.{◌≡◌, ℕ, ◌+◌, ◌*◌, ◌<◌, ◌≤◌, Bool, false, ◌&&◌, length, get_or, bit_xor, nat_lt, slice_index, slice_index_or};
ghost use Rattle.block.specs.Count.{count};
ghost use Rattle.field.specs.Field.{mul};
ghost use Rattle.field.specs.Sums.{summed};
ghost use Rattle.refusal.specs.Answer.{outcome};
ghost use Rattle.code.specs.Word.{Limits, lowest};
ghost use Rattle.code.specs.Calls.{Checks, Rebuilds, check_refusal, rebuild_refusal, first, marked, marks_held};
ghost use Rattle.bytewise.specs.Words.{Recipe, Works, coded, completed};

use block::BLOCK;
use code::{Sizes, too_few};
use field::product;
use refusal::kind::Refusal;

// The most blocks that a word has. Their flags stand in a fixed buffer, since a code allocates nothing.
const MOST: usize = 16;

// What a byte-wise code gives: its sizes, the coefficients of its checks, and the weights of a rebuild.
pub trait Bytewise {
    ghost recipe: { Self → Recipe };

    ghost limits: { (s : Self) → Limits (coded (recipe s)) };

    ghost works: { (s : Self) → Works (recipe s) };

    fn data(&self) -> usize
        ensures { result ≡ (recipe self.now).k };

    fn checks(&self) -> usize
        ensures { result ≡ (recipe self.now).m };

    // The coefficient of data d in check e.
    fn coefficient(&self, e: usize, d: usize) -> u8
        requires { (e < (recipe self.now).m) × (d < (recipe self.now).k) }
        ensures { result ≡ (recipe self.now).coefficient e d };

    // The weight of block i in the wanted block, where k blocks are chosen and i is one of them.
    fn weight(&self, chosen: &[bool], wanted: usize, i: usize) -> u8
        requires long { length chosen.now ≡ (recipe self.now).k + (recipe self.now).m }
        requires within { (wanted < (recipe self.now).k + (recipe self.now).m) × (i < (recipe self.now).k + (recipe self.now).m) }
        ensures { result ≡ (recipe self.now).weight (λ j. get_or chosen.now j false) wanted i };
}

// Adds a block, times a weight, to what a buffer holds: the one place where blocks are multiplied.
fn add_scaled(out: &mut [u8; BLOCK], block: &[u8], weight: u8)
    requires { length block.now ≡ 64 }
    ensures { (j : ℕ) → j < 64 → slice_index out.new j ≡ bit_xor (slice_index out.old j) (mul (slice_index block.now j) weight) }
{
    // The other byte by its place: of what is written through a zip of two slices nothing is known afterwards.
    for (j, byte) in out.iter_mut().enumerate() {
        *byte ^= product(block[j], weight);
    }
}

// Writes check e, the sum of the data, each times its coefficient.
fn sum_data<B: Bytewise>(code: &B, e: usize, given: &[u8], out: &mut [u8; BLOCK])
    requires number { e < (B.Bytewise.recipe code.now).m }
    requires long { length given.now ≡ (B.Bytewise.recipe code.now).k * 64 }
    ensures { out.new ≡ completed (B.Bytewise.recipe code.now) (first (B.Bytewise.recipe code.now).k given.now) ((B.Bytewise.recipe code.now).k + e) }
{
    out.fill(0);
    for (d, block) in given.chunks_exact(BLOCK).enumerate() {
        add_scaled(out, block, code.coefficient(e, d));
    }
}

// Flags at the k held blocks with the lowest numbers, and at no others.
fn choose(k: usize, marks: &[u8]) -> [bool; MOST]
    requires { length marks.now ≤ 16 }
    ensures { (i : ℕ) → slice_index_or result i false ≡ marks_held marks.now i && nat_lt (count (marks_held marks.now) i) k }
{
    let mut chosen = [false; MOST];
    for (i, _) in marks
        .iter()
        .enumerate()
        .filter(|(_, mark)| **mark != 0)
        .take(k)
    {
        // By its place: of what is written through a zip of two slices nothing is known afterwards.
        chosen[i] = true;
    }
    chosen
}

// Writes the sum of the chosen blocks, each times its weight in the wanted one.
fn sum_chosen<B: Bytewise>(
    code: &B,
    wanted: usize,
    chosen: &[bool],
    blocks: &[u8],
    out: &mut [u8; BLOCK],
)
    requires number { wanted < (B.Bytewise.recipe code.now).k + (B.Bytewise.recipe code.now).m }
    requires long { (length chosen.now ≡ (B.Bytewise.recipe code.now).k + (B.Bytewise.recipe code.now).m) × (length blocks.now ≡ ((B.Bytewise.recipe code.now).k + (B.Bytewise.recipe code.now).m) * 64) }
    ensures { (j : ℕ) → j < 64 → slice_index out.new j ≡ summed (λ i. get_or chosen.now i false) (λ i. mul (slice_index blocks.now (i * 64 + j)) ((B.Bytewise.recipe code.now).weight (λ i. get_or chosen.now i false) wanted i)) ((B.Bytewise.recipe code.now).k + (B.Bytewise.recipe code.now).m) }
{
    out.fill(0);
    for ((i, block), is_chosen) in blocks.chunks_exact(BLOCK).enumerate().zip(chosen) {
        if *is_chosen {
            add_scaled(out, block, code.weight(chosen, wanted, i));
        }
    }
}

// Refuses a check of data of the wrong length, or of no such number.
fn admit_check<B: Bytewise>(code: &B, e: usize, given: usize) -> Result<(), Refusal>
    ensures { result ≡ outcome (check_refusal (coded (B.Bytewise.recipe code.now)) e given 64) tt }
{
    if given != code.data() * BLOCK {
        return Err(Refusal::Length);
    }
    if e >= code.checks() {
        return Err(Refusal::BlockNumber);
    }
    Ok(())
}

// The check of a byte-wise code, for an implementation of `Code`.
pub fn check<B: Bytewise>(code: &B, e: usize, given: &[u8], out: &mut [u8]) -> Result<(), Refusal>
    ensures { Checks (coded (B.Bytewise.recipe code.now)) e given.now out.old result out.new }
{
    // Room of any other length than a block's is refused.
    let out: &mut [u8; BLOCK] = out.as_mut_array().ok_or(Refusal::Length)?;
    admit_check(code, e, given.len())?;
    sum_data(code, e, given, out);
    Ok(())
}

// Refuses a rebuild of marks or blocks of the wrong length, from too few blocks, or of no such number.
fn admit_rebuild<B: Bytewise>(
    code: &B,
    number: usize,
    marks: &[u8],
    given: usize,
) -> Result<(), Refusal>
    ensures { result ≡ outcome (rebuild_refusal (coded (B.Bytewise.recipe code.now)) number marks.now given 64) tt }
{
    let n = code.data() + code.checks();
    if marks.len() != n || given != n * BLOCK {
        return Err(Refusal::Length);
    }
    if too_few(marks, code.data()) {
        return Err(Refusal::TooFewBlocks);
    }
    if number >= n {
        return Err(Refusal::BlockNumber);
    }
    Ok(())
}

// Writes the wanted block from the k held ones with the lowest numbers.
fn restore<B: Bytewise>(code: &B, wanted: usize, marks: &[u8], blocks: &[u8], out: &mut [u8; BLOCK])
    requires number { wanted < (B.Bytewise.recipe code.now).k + (B.Bytewise.recipe code.now).m }
    requires long { (length marks.now ≡ (B.Bytewise.recipe code.now).k + (B.Bytewise.recipe code.now).m) × (length blocks.now ≡ ((B.Bytewise.recipe code.now).k + (B.Bytewise.recipe code.now).m) * 64) }
    ensures { out.new ≡ completed (B.Bytewise.recipe code.now) (lowest (B.Bytewise.recipe code.now).k (marked marks.now blocks.now)) wanted }
{
    let chosen = choose(code.data(), marks);
    sum_chosen(code, wanted, &chosen[..marks.len()], blocks, out);
}

// The rebuild of a byte-wise code, for an implementation of `Code`.
pub fn rebuild<B: Bytewise>(
    code: &B,
    number: usize,
    marks: &[u8],
    blocks: &[u8],
    out: &mut [u8],
) -> Result<(), Refusal>
    ensures { Rebuilds (coded (B.Bytewise.recipe code.now)) number marks.now blocks.now out.old result out.new }
{
    // Room of any other length than a block's is refused.
    let out: &mut [u8; BLOCK] = out.as_mut_array().ok_or(Refusal::Length)?;
    admit_rebuild(code, number, marks, blocks.len())?;
    restore(code, number, marks, blocks, out);
    Ok(())
}

// The sizes of a byte-wise code, for an implementation of `Code`.
pub fn sizes<B: Bytewise>(code: &B) -> Sizes
    ensures k { result.k ≡ (B.Bytewise.recipe code.now).k }
    ensures m { result.m ≡ (B.Bytewise.recipe code.now).m }
{
    Sizes {
        k: code.data(),
        m: code.checks(),
    }
}
