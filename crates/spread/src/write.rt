// Writing the checks of an open slot.
ghost use Rattle.std.specs.Prelude.{◌≡◌, ◌+◌, ◌*◌, ◌<◌};
ghost use Rattle.store.specs.Meaning.{Cells};
ghost use Rattle.level.specs.Checks.{Collected, CheckPlace, check_at, OneCheck, NodeTo, NodesTo};
ghost use Rattle.spread.specs.Writing.{Writes};

use crate::Spread;
use crate::collect::{ROOM, start};
use block::BLOCK;
use code::Code;
use store::{Reading, Store};

impl<C: Code, S: Store> Spread<C, S> {
    // Computes the check that belongs to a cell, from all data.
    fn compute_check(&self, node: usize, place: usize, bytes: &[u8; ROOM], out: &mut [u8; BLOCK])
        requires { CheckPlace self.now.layout node place }
        ensures { ⟦<Spread<C, S> as Reading>⟧.sound self.now → (c : Cells) → Collected self.now.layout c self.now.layout.nodes bytes.now → out.new ≡ check_at self.now.layout (C.Code.coding self.now.code).whole c node place }
    {
        let layout = &self.layout;
        let member = layout.trace(node, place).unwrap();
        let from = start(layout, member.stripe) * BLOCK;
        let part = &bytes[from..from + layout.k * BLOCK];
        let _ = self.code.check(member.number - layout.k, part, out);
    }

    // Writes the check that belongs to a cell.
    fn write_check(&mut self, slot: usize, node: usize, place: usize, bytes: &[u8; ROOM])
        requires { CheckPlace self.old.layout node place }
        ensures { Writes C.Code.coding S.Reading.sound S.Reading.meaning (OneCheck self.old.layout node place) slot bytes.now self.old self.new }
    {
        let mut check = [0; BLOCK];
        self.compute_check(node, place, bytes, &mut check);
        let _ = self.below.put(slot, node, place, &check);
    }

    // Writes the checks of a node.
    fn write_node(&mut self, slot: usize, node: usize, bytes: &[u8; ROOM])
        requires { node < self.old.layout.nodes }
        ensures { Writes C.Code.coding S.Reading.sound S.Reading.meaning (NodeTo self.old.layout node ((self.old.layout.k + self.old.layout.m) * self.old.layout.lanes)) slot bytes.now self.old self.new }
    {
        let end = self.layout.width() * self.layout.lanes;
        for place in self.layout.places()..end {
            self.write_check(slot, node, place, bytes);
        }
    }

    // Writes the checks of every node.
    pub(crate) fn write_checks(&mut self, slot: usize, bytes: &[u8; ROOM])
        ensures { Writes C.Code.coding S.Reading.sound S.Reading.meaning (NodesTo self.old.layout self.old.layout.nodes) slot bytes.now self.old self.new }
    {
        for node in 0..self.layout.nodes {
            self.write_node(slot, node, bytes);
        }
    }
}
