// A stranger's bytes, once their length is known to be right: what they show, and the search for damage.
ghost use Rattle.std.specs.Prelude.{◌≡◌, ◌+◌, ◌*◌, ◌<◌, length};
ghost use Rattle.refusal.specs.Answer.{outcome};
ghost use Rattle.store.specs.Meaning.{Limits};
ghost use Rattle.image_format.specs.Image.{size, marks_of};
ghost use Rattle.image_reader.specs.Damage.{good_head, present, some_below, head_damage, node_damage, slot_damage, damage};

use crate::cell::Cell;
use image_format::state_at;
use refusal::kind::Refusal;
use store::kinds::{Shape, State};

// Bytes that have the length of an image of that shape.
#[derive(Clone, Copy)]
pub struct Laid<'a> {
    pub(crate) shape: Shape,
    pub(crate) bytes: &'a [u8],
    ghost limits: { Limits shape },
    ghost long: { length bytes.now ≡ size shape },
}

// Whether the eight bytes are a slot's head.
fn is_head(head: &[u8; 8]) -> bool
    ensures { result ≡ good_head head.now }
{
    let [state, 0, 0, 0, 0, 0, 0, 0] = head else {
        return false;
    };
    *state <= 2
}

impl<'a> Laid<'a> {
    // The state of a slot, by the first byte of its head.
    pub(crate) fn state(&self, slot: usize) -> State
        requires { slot < self.now.shape.slots }
        ensures { result ≡ marks_of self.now.shape self.now.bytes.now slot }
    {
        state_at(self.bytes, slot)
    }

    // The cell of these numbers.
    pub(crate) fn cell(&self, slot: usize, node: usize, place: usize) -> Cell<'a>
        requires { (slot < self.now.shape.slots) × (node < self.now.shape.nodes) × (place < self.now.shape.places) }
        ensures { (result.laid ≡ self.now) × (result.slot ≡ slot) × (result.node ≡ node) × (result.place ≡ place) }
    {
        let laid = *self;
        Cell {
            laid,
            slot,
            node,
            place,
        }
    }

    // Whether the node has a present cell in the slot.
    fn any_present(&self, slot: usize, node: usize) -> bool
        requires { (slot < self.now.shape.slots) × (node < self.now.shape.nodes) }
        ensures { result ≡ some_below (present self.now.shape self.now.bytes.now slot node) self.now.shape.places }
    {
        (0..self.shape.places).any(|place| self.cell(slot, node, place).block().is_some())
    }

    // Refuses a node that has a damaged record in the slot, for the lowest one.
    fn check_node(&self, slot: usize, node: usize) -> Result<(), Refusal>
        requires { (slot < self.now.shape.slots) × (node < self.now.shape.nodes) }
        ensures { result ≡ outcome (node_damage self.now.shape self.now.bytes.now slot node) tt }
    {
        let state = self.state(slot);
        let any = self.any_present(slot, node);
        for place in 0..self.shape.places {
            self.cell(slot, node, place).check(state, any)?;
        }
        Ok(())
    }

    // Refuses a slot that has a damaged record, for the lowest one.
    fn check_slot(&self, slot: usize) -> Result<(), Refusal>
        requires { slot < self.now.shape.slots }
        ensures { result ≡ outcome (slot_damage self.now.shape self.now.bytes.now slot) tt }
    {
        for node in 0..self.shape.nodes {
            self.check_node(slot, node)?;
        }
        Ok(())
    }

    // Refuses a damaged head, for the lowest one.
    fn check_heads(&self) -> Result<(), Refusal>
        ensures { result ≡ outcome (head_damage self.now.shape self.now.bytes.now) tt }
    {
        let (heads, _) = self.bytes[..8 * self.shape.slots].as_chunks::<8>();
        for (slot, head) in heads.iter().enumerate() {
            if !is_head(head) {
                let byte = 8 * slot;
                return Err(Refusal::Damaged { byte });
            }
        }
        Ok(())
    }

    // Refuses a damaged head or record, for the lowest head or else the lowest record.
    pub(crate) fn check(&self) -> Result<(), Refusal>
        ensures { result ≡ outcome (damage self.now.shape self.now.bytes.now) tt }
    {
        self.check_heads()?;
        for slot in 0..self.shape.slots {
            self.check_slot(slot)?;
        }
        Ok(())
    }
}
