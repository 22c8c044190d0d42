// The sizes of a level, and the names of what lies in it.
ghost use Rattle.std.specs.Prelude.{◌≡◌, ℕ, ◌+◌, ◌*◌, ◌%◌, ◌≤◌};

// How a code's words lie on the nodes of a store: in groups of neighbouring nodes, with so many lanes.
#[derive(Clone, Copy)]
pub struct Layout {
    // nodes of the store
    pub nodes: usize,
    // nodes of a group
    pub group: usize,
    // stripes that begin at the same node
    pub lanes: usize,
    // data blocks and check blocks of a word
    pub k: usize,
    pub m: usize,
    ghost stock: { (2 ≤ nodes) × (nodes ≤ 64) },
    ghost few: { (1 ≤ k) × (k ≤ 12) },
    ghost checks: { (1 ≤ m) × (m ≤ 4) },
    ghost lane: { (1 ≤ lanes) × (lanes ≤ 64) },
    ghost room: { (k + m) * lanes ≤ 64 },
    ghost wide: { (k + m ≤ group) × (group ≤ nodes) },
    ghost groups: { nodes % group ≡ 0 },
}

// A stripe: the blocks of one word, each on another node of a group.
#[derive(Clone, Copy, PartialEq, Eq, Debug)]
pub struct Stripe {
    pub group: usize,
    // the member of the group that has block 0
    pub first: usize,
    pub lane: usize,
}

// A block by its stripe and its number there, data first, then checks.
#[derive(Clone, Copy, PartialEq, Eq, Debug)]
pub struct Member {
    pub stripe: Stripe,
    pub number: usize,
}

// A block by where it lies.
#[derive(Clone, Copy, PartialEq, Eq, Debug)]
pub struct Address {
    pub node: usize,
    pub place: usize,
}
