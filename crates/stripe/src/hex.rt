// Blocks as text: two lower-case hex digits for each byte.
ghost use Rattle.std.specs.Prelude.{◌≡◌, ℕ, ◌<◌, List, length, MatchOption, ◌≢◌};
ghost use Rattle.block.specs.Block.{IsBlock};
ghost use Rattle.stripe.specs.Hex.{hex, Writes};

use block::BLOCK;

// The value of a hex digit.
fn digit(b: u8) -> Option<u8>
    ensures { MatchOption result ((d : ℕ) → d < 16 → b ≢ hex d) (λ d. (d < 16) × (b ≡ hex d)) }
{
    match b {
        b'0'..=b'9' => Some(b - b'0'),
        b'a'..=b'f' => Some(b - b'a' + 10),
        _ => None,
    }
}

// The block that a word writes.
pub fn read_block(word: &str) -> Option<[u8; BLOCK]>
    ensures { MatchOption result ((b : List ℕ) → IsBlock b → Writes word.now b → ⊥) (λ b. (length b ≡ 64) × Writes word.now b) }
{
    let digits = word.as_bytes();
    if digits.len() != 2 * BLOCK {
        return None;
    }
    let (pairs, _) = digits.as_chunks::<2>();
    let mut block = [0; BLOCK];
    // Each byte is written at its place: of what a zip of `iter_mut` writes nothing could be proved.
    for (j, [high, low]) in pairs.iter().enumerate() {
        block[j] = 16 * digit(*high)? + digit(*low)?;
    }
    Some(block)
}
