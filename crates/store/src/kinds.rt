// The sizes of a store and the states of its slots.

// A store has nodes, places on each node, and slots, each of which has a block at every node and place.
#[derive(Clone, Copy, PartialEq, Eq, Debug)]
pub struct Shape {
    pub nodes: usize,
    pub places: usize,
    pub slots: usize,
}

// What a slot is: empty, open (it is being filled), or sealed (it is complete, and protected against losses).
#[derive(Clone, Copy, PartialEq, Eq, Debug)]
pub enum State {
    Empty = 0,
    Open = 1,
    Sealed = 2,
}

// A number that stands for no state.
#[derive(Clone, Copy, PartialEq, Eq, Debug)]
pub struct UnknownState(pub u8);
