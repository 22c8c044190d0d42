// Reading the blocks of a stripe, and rebuilding one of them.
ghost use Rattle.std.specs.Prelude.{◌≡◌, ◌+◌, ◌*◌, ◌<◌, ◌&&◌, length, if◌then◌else◌, nat_lt};
ghost use Rattle.store.specs.Calls.{cells_of};
ghost use Rattle.stripe_map.specs.Map.{Among};
ghost use Rattle.level.specs.Level.{held_of};
ghost use Rattle.level.specs.Stripes.{Gathered, RestoreAnswer, from_stripe, is_sealed};

use crate::Spread;
use block::BLOCK;
use code::Code;
use refusal::kind::Refusal;
use store::Reading;
use store::kinds::State;
use stripe_map::layout::Stripe;

// The most blocks that a stripe has.
const WIDEST: usize = 16;

impl<C: Code, S: Reading> Spread<C, S> {
    // Reads a block of a stripe, and tells whether there is one. A flag beside the block, which goes straight to its place in
    // the stripe: an Option would copy it once more.
    fn fetch(&self, slot: usize, stripe: Stripe, number: usize, out: &mut [u8]) -> bool
        requires stripe { Among self.now.layout stripe }
        requires number { number < self.now.layout.k + self.now.layout.m }
        requires size { length out.old ≡ BLOCK }
        ensures { ⟦<Spread<C, S> as Reading>⟧.sound self.now → slot < (S.Reading.meaning self.now.below).shape.slots → (if result then Some out.new else None) ≡ held_of self.now.layout (cells_of ((S.Reading.meaning self.now.below).slot slot)) stripe number }
    {
        let at = self.layout.locate(stripe, number).unwrap();
        self.below.get(slot, at.node, at.place, out).is_ok()
    }

    // Reads all blocks of a stripe, each with its mark.
    fn gather(&self, slot: usize, stripe: Stripe, marks: &mut [u8], blocks: &mut [u8])
        requires stripe { Among self.now.layout stripe }
        requires marks { length marks.old ≡ self.now.layout.k + self.now.layout.m }
        requires blocks { length blocks.old ≡ length marks.old * BLOCK }
        ensures { ⟦<Spread<C, S> as Reading>⟧.sound self.now → slot < (S.Reading.meaning self.now.below).shape.slots → Gathered self.now.layout (S.Reading.meaning self.now.below) slot stripe (self.now.layout.k + self.now.layout.m) marks.new blocks.new }
    {
        // Each block is cut out by hand: of what is written through a zip of two slices nothing is known afterwards.
        for (number, mark) in marks.iter_mut().enumerate() {
            let at = number * BLOCK;
            *mark = u8::from(self.fetch(slot, stripe, number, &mut blocks[at..at + BLOCK]));
        }
    }

    // Rebuilds a cell from its stripe.
    pub(crate) fn restore(
        &self,
        slot: usize,
        node: usize,
        place: usize,
        out: &mut [u8],
    ) -> Result<(), Refusal>
        requires node { node < self.now.layout.nodes }
        requires place { place < self.now.layout.k * self.now.layout.lanes }
        ensures { ⟦<Spread<C, S> as Reading>⟧.sound self.now → slot < (S.Reading.meaning self.now.below).shape.slots → length out.old ≡ BLOCK → RestoreAnswer (from_stripe self.now.layout (C.Code.coding self.now.code) (S.Reading.meaning self.now.below) slot node place) node place out.old result out.new }
    {
        // Arrays with room for the widest stripe, since a store allocates nothing. The code takes exact parts, marks as bytes.
        let mut marks = [0; WIDEST];
        let mut blocks = [0; WIDEST * BLOCK];
        let width = self.layout.width();
        let marks = &mut marks[..width];
        let blocks = &mut blocks[..width * BLOCK];
        let member = self.layout.trace(node, place).unwrap();
        self.gather(slot, member.stripe, marks, blocks);
        self.code
            .rebuild(member.number, marks, blocks, out)
            .map_err(|_| Refusal::Missing { node, place })
    }

    // Whether a slot is sealed.
    pub(crate) fn is_sealed(&self, slot: usize) -> bool
        ensures { ⟦<Spread<C, S> as Reading>⟧.sound self.now → result ≡ (nat_lt slot (S.Reading.meaning self.now.below).shape.slots && is_sealed ((S.Reading.meaning self.now.below).slot slot)) }
    {
        matches!(self.below.state(slot), Ok(State::Sealed))
    }
}
