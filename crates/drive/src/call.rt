// The calls of a store, as words and as what they do.
use refusal::kind::Refusal;
use store::{Reading, Store};

// A call with its numbers; a put is of 64 equal bytes.
#[derive(Clone, Copy)]
pub enum Call {
    State {
        slot: usize,
    },
    Get {
        slot: usize,
        node: usize,
        place: usize,
    },
    Open {
        slot: usize,
    },
    Put {
        slot: usize,
        node: usize,
        place: usize,
        byte: u8,
    },
    Seal {
        slot: usize,
    },
    Lose {
        node: usize,
    },
    Clear {
        slot: usize,
    },
}

impl Call {
    // The call of that name with these numbers. No contract: the names are this program's own, and its stored run tests them.
    pub fn named(name: &str, numbers: &[usize]) -> Option<Call> {
        match (name, numbers) {
            ("state", [slot]) => Some(Call::State { slot: *slot }),
            ("get", [slot, node, place]) => Some(Call::Get {
                slot: *slot,
                node: *node,
                place: *place,
            }),
            ("open", [slot]) => Some(Call::Open { slot: *slot }),
            ("put", [slot, node, place, byte]) => Some(Call::Put {
                slot: *slot,
                node: *node,
                place: *place,
                byte: u8::try_from(*byte).ok()?,
            }),
            ("seal", [slot]) => Some(Call::Seal { slot: *slot }),
            ("lose", [node]) => Some(Call::Lose { node: *node }),
            ("clear", [slot]) => Some(Call::Clear { slot: *slot }),
            _ => None,
        }
    }

    // Whether the call is answered by bytes. No contract: it only chooses what is printed.
    pub fn reads(&self) -> bool {
        matches!(self, Call::State { .. } | Call::Get { .. })
    }

    // Makes the call. A block, or the number of a state, goes to the buffer, which is handed in so that it can be compared after a
    // refusal too. No contract: each call of a store has its own; that the right one is made, with its numbers in order, is only
    // tested, by the stored run.
    pub fn make<S: Store>(&self, store: &mut S, out: &mut [u8; 64]) -> Result<(), Refusal> {
        // A match and no closures: a call comes as text, and the same one is made on two stores.
        match *self {
            Call::State { slot } => {
                out[0] = store.state(slot)?.number();
                Ok(())
            }
            Call::Get { slot, node, place } => store.get(slot, node, place, out),
            Call::Open { slot } => store.open(slot),
            Call::Put {
                slot,
                node,
                place,
                byte,
            } => store.put(slot, node, place, &[byte; 64]),
            Call::Seal { slot } => store.seal(slot),
            Call::Lose { node } => store.lose(node),
            Call::Clear { slot } => store.clear(slot),
        }
    }
}
