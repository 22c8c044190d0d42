// Reading all data of an open slot, stripe after stripe.
ghost use Rattle.std.specs.Prelude.{◌≡◌, ◌+◌, ◌*◌, ◌<◌, ◌≤◌};
ghost use Rattle.store.specs.Calls.{cells_of};
ghost use Rattle.stripe_map.specs.Map.{Among};
ghost use Rattle.level.specs.Checks.{start_of, position_of, Collected, NodeEnds, AllEnd};

use crate::Spread;
use block::BLOCK;
use code::Code;
use refusal::kind::Refusal;
use store::Reading;
use stripe_map::layout::{Layout, Stripe};

// The most bytes of data that a level has: 64 nodes with 64 places. They are read into an array, since a store allocates nothing.
pub(crate) const ROOM: usize = 4096 * BLOCK;

// The number of a stripe's first block among all data.
pub(crate) fn start(layout: &Layout, stripe: Stripe) -> usize
    requires { Among layout.now stripe }
    ensures is { result ≡ start_of layout.now stripe }
    ensures within { result + layout.now.k ≤ layout.now.nodes * (layout.now.k * layout.now.lanes) }
{
    ((stripe.group * layout.group + stripe.first) * layout.lanes + stripe.lane) * layout.k
}

// The number of a cell's block there.
fn position(layout: &Layout, node: usize, place: usize) -> usize
    requires { (node < layout.now.nodes) × (place < layout.now.k * layout.now.lanes) }
    ensures is { result ≡ position_of layout.now node place }
    ensures within { result < layout.now.nodes * (layout.now.k * layout.now.lanes) }
{
    let member = layout.trace(node, place).unwrap();
    start(layout, member.stripe) + member.number
}

impl<C: Code, S: Reading> Spread<C, S> {
    // Reads the cells of a node, up to the first that is absent.
    fn collect_node(&self, slot: usize, node: usize, bytes: &mut [u8; ROOM]) -> Result<(), Refusal>
        requires { node < self.now.layout.nodes }
        ensures { ⟦<Spread<C, S> as Reading>⟧.sound self.now → slot < (S.Reading.meaning self.now.below).shape.slots → Collected self.now.layout (cells_of ((S.Reading.meaning self.now.below).slot slot)) node bytes.old → NodeEnds self.now.layout (S.Reading.meaning self.now.below) slot node result bytes.new }
    {
        for place in 0..self.layout.places() {
            let at = position(&self.layout, node, place) * BLOCK;
            self.below
                .get(slot, node, place, &mut bytes[at..at + BLOCK])
                .map_err(|_| Refusal::Incomplete { rank: node, place })?;
        }
        Ok(())
    }

    // Reads all the level's cells, up to the first that is absent.
    pub(crate) fn collect(&self, slot: usize, bytes: &mut [u8; ROOM]) -> Result<(), Refusal>
        ensures { ⟦<Spread<C, S> as Reading>⟧.sound self.now → slot < (S.Reading.meaning self.now.below).shape.slots → AllEnd self.now.layout (S.Reading.meaning self.now.below) slot result bytes.new }
    {
        for node in 0..self.layout.nodes {
            self.collect_node(slot, node, bytes)?;
        }
        Ok(())
    }
}
