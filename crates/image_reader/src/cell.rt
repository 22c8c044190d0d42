// A cell of an image, by slot, node and place.
ghost use Rattle.std.specs.Prelude.{◌≡◌, ◌+◌, ◌<◌, ◌≤◌, true, false, length, drop, is_some, IfSome, MatchOption, slice_index};
ghost use Rattle.refusal.specs.Answer.{outcome};
ghost use Rattle.grid.specs.Index.{index};
ghost use Rattle.image_format.specs.Image.{start, size, record_at, marks_of};
ghost use Rattle.image_reader.specs.Damage.{zeros, headed, present, some_below, bad_cell, record_damage};
ghost use Rattle.image_reader.specs.Reader.{block_part};

use crate::laid::Laid;
use image_format::start_of;
use refusal::kind::Refusal;
use store::kinds::State;

#[derive(Clone, Copy)]
pub(crate) struct Cell<'a> {
    pub(crate) laid: Laid<'a>,
    pub(crate) slot: usize,
    pub(crate) node: usize,
    pub(crate) place: usize,
    ghost inside: { (slot < laid.shape.slots) × (node < laid.shape.nodes) × (place < laid.shape.places) },
}

// Whether the bytes are all zeros.
fn are_zeros(bytes: &[u8]) -> bool
    ensures { result ≡ zeros bytes.now }
{
    bytes.iter().all(|byte| *byte == 0)
}

// The block of a record that begins as that of a present cell does.
fn block_in(cell: &[u8], at: [u8; 3]) -> Option<&[u8]>
    requires { length cell.now ≡ 72 }
    ensures { MatchOption result (headed (slice_index at 0) (slice_index at 1) (slice_index at 2) cell.now ≡ false) (λ b. (headed (slice_index at 0) (slice_index at 1) (slice_index at 2) cell.now ≡ true) × (b.now ≡ drop 8 cell.now) × (length b.now ≡ 64)) }
{
    let [1, slot, node, place, 0, 0, 0, 0, block @ ..] = cell else {
        return None;
    };
    ([*slot, *node, *place] == at).then_some(block)
}

impl<'a> Cell<'a> {
    // Where its record begins.
    pub(crate) fn start(&self) -> usize
        ensures at { let c = self.now in result ≡ start c.laid.shape (index c.laid.shape c.slot c.node c.place) }
        ensures within { result + 72 ≤ size self.now.laid.shape }
    {
        start_of(self.laid.shape, self.slot, self.node, self.place)
    }

    // Its record.
    fn record(&self) -> &'a [u8]
        ensures is { let c = self.now in result.now ≡ record_at c.laid.shape c.laid.bytes.now (index c.laid.shape c.slot c.node c.place) }
        ensures long { length result.now ≡ 72 }
    {
        let at = self.start();
        &self.laid.bytes[at..at + 72]
    }

    // Its block, where its record begins as that of a present one does.
    pub(crate) fn block(&self) -> Option<&'a [u8]>
        ensures there { let c = self.now in is_some result ≡ present c.laid.shape c.laid.bytes.now c.slot c.node c.place }
        ensures size { IfSome result (λ b. length b.now ≡ 64) }
        ensures part { let c = self.now in IfSome result (λ b. b.now ≡ block_part c.laid.shape c.laid.bytes.now c.slot c.node c.place) }
    {
        block_in(
            self.record(),
            [self.slot as u8, self.node as u8, self.place as u8],
        )
    }

    // Whether its record breaks the rules of a slot in that state, where its node has a present cell or none.
    fn is_bad(&self, state: State, any: bool) -> bool
        requires state { state ≡ marks_of self.now.laid.shape self.now.laid.bytes.now self.now.slot }
        requires any { let c = self.now in any ≡ some_below (present c.laid.shape c.laid.bytes.now c.slot c.node) c.laid.shape.places }
        ensures { let c = self.now in result ≡ bad_cell c.laid.shape c.laid.bytes.now c.slot c.node c.place }
    {
        if self.block().is_some() {
            return state == State::Empty;
        }
        !are_zeros(self.record()) || state == State::Sealed && any
    }

    // Refuses its record where it is bad in that way.
    pub(crate) fn check(&self, state: State, any: bool) -> Result<(), Refusal>
        requires state { state ≡ marks_of self.now.laid.shape self.now.laid.bytes.now self.now.slot }
        requires any { let c = self.now in any ≡ some_below (present c.laid.shape c.laid.bytes.now c.slot c.node) c.laid.shape.places }
        ensures { let c = self.now in result ≡ outcome (record_damage c.laid.shape c.laid.bytes.now c.slot c.node c.place) tt }
    {
        if self.is_bad(state, any) {
            let byte = self.start();
            return Err(Refusal::Damaged { byte });
        }
        Ok(())
    }
}
