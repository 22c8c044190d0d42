// Blocks, the unit in which everything is kept.
#![tactic(auto)]

ghost use Rattle.std.specs.Prelude.{◌≡◌, ℕ, ◌<◌, length, slice_index};

// The bytes of a block.
pub const BLOCK: usize = 64;

// Fills a buffer with a part of a file, and zeros after it.
pub fn load(out: &mut [u8], part: &[u8])
    ensures { (j : ℕ) → j < length out.new → slice_index out.new j ≡ slice_index part.now j }
{
    let n = out.len().min(part.len());
    out[..n].copy_from_slice(&part[..n]);
    out[n..].fill(0);
}
