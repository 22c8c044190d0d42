// Known answers of the Cauchy code, a line of text for each.
//
//     W k m BLOCK..                   a word: k data blocks and m checks
//     R k m c MARKS BLOCK             block c of the last word, rebuilt from the blocks that are held
//     A k m c MARKS BLOCK.. RESULT    block c, rebuilt from any k + m blocks
ghost use Rattle.std.specs.Prelude.{◌≡◌, ◌*◌, length, IfOk, vec_len, decimal};
ghost use Rattle.stripe.specs.Hex.{Writes};

use crate::fault::{Fault, Mistake};
use crate::hex::read_block;
use block::BLOCK;
use code::Code;
use codes::cauchy::Cauchy;
use refusal::kind::Refusal;
use std::alloc::{AllocError, Global};
use std::fs;
use std::num::TryFromIntError;
use striping::forget;
use words::{BadNumber, number, words_of};

// Why a line is not compared.
#[derive(Clone, Copy)]
enum LineFault {
    // it has not the form of a line
    Malformed,
    // no memory was left
    Memory,
}

// So that `?` takes a want of memory.
impl From<AllocError> for LineFault {
    fn from(_e: AllocError) -> LineFault {
        LineFault::Memory
    }
}

// A word that is no number is a fault of the line.
impl From<BadNumber<'_>> for LineFault {
    fn from(_e: BadNumber<'_>) -> LineFault {
        LineFault::Malformed
    }
}

// So is a number that is too large.
impl From<TryFromIntError> for LineFault {
    fn from(_e: TryFromIntError) -> LineFault {
        LineFault::Malformed
    }
}

// So are sizes that are refused.
impl From<Refusal> for LineFault {
    fn from(_e: Refusal) -> LineFault {
        LineFault::Malformed
    }
}

// k + m blocks, one after the other, and the code that they are for.
#[derive(Drop)]
struct Word {
    code: Cauchy,
    blocks: Vec<u8>,
}

impl Word {
    // The blocks that the words write, which have to be as many as the code has.
    fn read(heap: Global, code: Cauchy, words: &[&str]) -> Result<Word, LineFault>
        ensures { IfOk result (λ w. vec_len w.blocks ≡ length words.now * 64) }
    {
        let sizes = code.sizes();
        if words.len() != sizes.k + sizes.m {
            return Err(LineFault::Malformed);
        }
        let mut blocks = Vec::new(heap);
        for word in words {
            let block = block_of(*word)?;
            blocks.extend_from_slice(&block)?;
        }
        Ok(Word { code, blocks })
    }

    // Whether every check block is the check of the data blocks.
    fn has_its_checks(&self) -> bool {
        let k = self.code.sizes().k;
        let blocks = self.blocks.as_slice();
        let Some((given, checks)) = blocks.split_at_checked(k * BLOCK) else {
            return false;
        };
        checks.chunks_exact(BLOCK).enumerate().all(|(e, check)| {
            let mut out = [0; BLOCK];
            self.code.check(e, given, &mut out).is_ok() && &out[..] == check
        })
    }

    // Whether the block of that number, rebuilt from the blocks whose marks are not 0, is the result.
    fn rebuilds(
        &self,
        heap: Global,
        number: usize,
        marks: &[u8],
        res: &[u8],
    ) -> Result<bool, AllocError> {
        let mut held = self.blocks.as_slice().to_vec(heap)?;
        forget(marks, held.as_mut_slice());
        let mut out = [0; BLOCK];
        let rebuilt = self.code.rebuild(number, marks, held.as_slice(), &mut out);
        Ok(rebuilt.is_ok() && &out[..] == res)
    }

    // Whether a rebuild gives what is said: the words are a block number, marks and the result.
    fn agrees_with(&self, heap: Global, words: &[&str]) -> Result<bool, LineFault> {
        let [wanted, marks, result] = words else {
            return Err(LineFault::Malformed);
        };
        let wanted = number(*wanted)?;
        let marks = marks_of(heap, *marks)?;
        let result = block_of(*result)?;
        Ok(self.rebuilds(heap, wanted, marks.as_slice(), &result)?)
    }
}

// The block that a word writes.
fn block_of(word: &str) -> Result<[u8; BLOCK], LineFault>
    ensures { IfOk result (λ b. (length b ≡ 64) × Writes word.now b) }
{
    read_block(word).ok_or(LineFault::Malformed)
}

// The mark that a word writes, a number below 256.
fn mark_of(word: &str) -> Result<u8, LineFault>
    ensures { IfOk result (λ m. word.now ≡ decimal m) }
{
    Ok(u8::try_from(number(word)?)?)
}

// The marks that a word writes, with commas between.
fn marks_of(heap: Global, word: &str) -> Result<Vec<u8>, LineFault> {
    word.split(',').map(|part| mark_of(part)).try_collect(heap)
}

// Whether what a line says of the code is so; `last` is the last word above it.
fn agrees(heap: Global, last: &mut Option<Word>, line: &str) -> Result<bool, LineFault> {
    if line.starts_with('W') {
        *last = None;
    }
    let words = words_of(heap, line)?;
    let [kind, k, m, rest @ ..] = words.as_slice() else {
        return Err(LineFault::Malformed);
    };
    let code = Cauchy::new(number(*k)?, number(*m)?)?;
    // A match and no closures: what is said of the code comes as text.
    match *kind {
        "W" => {
            let word = Word::read(heap, code, rest)?;
            let agrees = word.has_its_checks();
            *last = Some(word);
            Ok(agrees)
        }
        "R" => match last {
            Some(word) if word.code.sizes() == code.sizes() => word.agrees_with(heap, rest),
            _ => Err(LineFault::Malformed),
        },
        "A" => any_agrees(heap, code, rest),
        _ => Err(LineFault::Malformed),
    }
}

// Whether a rebuild of any blocks gives what is said, where the words are those of a line after its sizes.
fn any_agrees(heap: Global, code: Cauchy, words: &[&str]) -> Result<bool, LineFault> {
    let [number, marks, rest @ ..] = words else {
        return Err(LineFault::Malformed);
    };
    let Some((result, blocks)) = rest.split_last() else {
        return Err(LineFault::Malformed);
    };
    let word = Word::read(heap, code, blocks)?;
    word.agrees_with(heap, &[*number, *marks, *result])
}

// Compares every line of the file, and says which do not agree. No contract: it speaks of a file and of what is printed.
pub fn compare<'a>(rt: &HostRuntime, path: &'a str) -> Result<(), Mistake<'a>> {
    let text = fs::read_to_string(rt, path).map_err(|error| Mistake::CannotRead { path, error })?;
    let lines = text.as_str().lines().count();
    let mut last = None;
    // Counted in the loop, which says of each other line what is wrong with it.
    let mut agree: usize = 0;
    for (above, line) in text.as_str().lines().enumerate() {
        let number = above.saturating_add(1);
        match agrees(rt.alloc(), &mut last, line) {
            Ok(true) => agree = agree.saturating_add(1),
            Ok(false) => println!(rt; "line {number} does not agree")?,
            Err(LineFault::Malformed) => println!(rt; "line {number} is malformed")?,
            Err(LineFault::Memory) => return Err(Mistake::Memory),
        }
    }
    if agree != lines {
        return Err(Fault::Vectors { lines, agree }.into());
    }
    println!(rt; "vectors: {lines} lines, {agree} agree")?;
    Ok(())
}
