// One data block, and checks that equal it.
ghost use Rattle.std.specs.Prelude.{◌≤◌};

#[derive(Clone, Copy)]
pub struct Copies {
    pub(crate) m: usize,
    ghost limits: { (1 ≤ m) × (m ≤ 4) },
}
