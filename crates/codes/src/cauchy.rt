// Some data blocks, and checks that are sums of the data times the inverses of a Cauchy matrix.
ghost use Rattle.std.specs.Prelude.{◌≤◌};

#[derive(Clone, Copy)]
pub struct Cauchy {
    pub(crate) k: usize,
    pub(crate) m: usize,
    ghost few: { (1 ≤ k) × (k ≤ 12) },
    ghost fewer: { (1 ≤ m) × (m ≤ 4) },
}
