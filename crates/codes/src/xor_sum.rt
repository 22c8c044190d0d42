// Some data blocks, and one check, their XOR.
ghost use Rattle.std.specs.Prelude.{◌≤◌};

#[derive(Clone, Copy)]
pub struct XorSum {
    pub(crate) k: usize,
    ghost limits: { (1 ≤ k) × (k ≤ 12) },
}
