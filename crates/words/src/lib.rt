// Words of a line, and numbers as people write them.
#![tactic(auto)]

ghost use Rattle.std.specs.Prelude.{◌≡◌, ℕ, ◌^◌, ◌<◌, decimal, map, MatchOption, MatchResult, IfOk, ◌==◌, ◌≢◌};
ghost use Rattle.std.specs.List.{slice_split};

use std::alloc::{AllocError, Global};
use std::fmt;

pub mod counted;

// A word that should be a number.
#[derive(Clone, Copy)]
pub struct BadNumber<'a>(pub &'a str);

// What is wrong with it, for the reader.
impl fmt::Display for BadNumber<'_> {
    fn fmt<W: fmt::Write>(&self, f: &mut fmt::Formatter<W>) -> fmt::Result {
        let word = self.0;
        write!(f, "bad number '{word}'")
    }
}

// The words of a line, with a space between.
pub fn words_of<'a>(heap: Global, line: &'a str) -> Result<Vec<&'a str>, AllocError>
    ensures { IfOk result (λ v. map (λ w. w.now) v.items ≡ slice_split (λ b. b == 32) line.now) }
{
    line.split(' ').collect(heap)
}

// The number that a word writes: decimal digits, with no zero in front but for 0 itself.
pub fn read_number(word: &str) -> Option<usize>
    ensures { MatchOption result ((n : ℕ) → n < 2 ^ 64 → word.now ≢ decimal n) (λ n. word.now ≡ decimal n) }
{
    let digits = word.as_bytes();
    if digits.len() > 1 && digits[0] == b'0' {
        return None;
    }
    if digits.len() > 0 && digits[0] == b'+' {
        return None;
    }
    word.parse::<usize>().ok()
}

// The same, where a word that writes none is named.
pub fn number<'a>(word: &'a str) -> Result<usize, BadNumber<'a>>
    ensures { MatchResult result (λ n. word.now ≡ decimal n) (λ bad. (bad.0.now ≡ word.now) × ((n : ℕ) → n < 2 ^ 64 → word.now ≢ decimal n)) }
{
    read_number(word).ok_or(BadNumber(word))
}

#[cfg(test)]
mod tests {
    use super::*;
    use std::test::Fail;

    #[test]
    fn words_with_a_space_between(rt: HostRuntime) -> Result<(), Fail> {
        let words = words_of(rt.alloc(), "rs 4  file")?;
        assert_eq!(rt; words.len(), 4);
        for (i, word) in ["rs", "4", "", "file"].iter().enumerate() {
            assert_eq!(rt; words[i], *word);
        }
        Ok(())
    }
}
