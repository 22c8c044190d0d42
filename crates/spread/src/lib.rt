// A level: a code laid over a store, which is again a store.
#![tactic(auto)]

ghost use Rattle.std.specs.Prelude.{◌≡◌, ◌*◌, ◌<◌, None, OnErr, nat_le};
ghost use Rattle.refusal.specs.Answer.{refuse, outcome};
ghost use Rattle.refusal.specs.declared.kind.Refusal.TheVariants.{Node, Place};
ghost use Rattle.store.specs.Calls.{GetAnswer, SealAnswer};
ghost use Rattle.level.specs.Level.{level, Laid};
ghost use Rattle.level.specs.Promise.{LevelPromise};
ghost use Rattle.level.proofs.Words.{at_layout};
ghost use Rattle.level.proofs.Lawful.{level_lawful};

mod collect;
pub mod lay;
mod read;
mod write;

use code::Code;
use collect::ROOM;
use refusal::kind::Refusal;
use store::kinds::{Shape, State};
use store::{Reading, Store};
use stripe_map::layout::Layout;

// One code and one store, each of any make. Nobody but the level changes the store beneath.
// That the parts fit is no fact of the type but what `sound` says, since a level may be read over what another one wrote.
#[derive(Drop)]
pub struct Spread<C, S> {
    layout: Layout,
    code: C,
    below: S,
}

// A slot, a node and a place are handed on apart, as every call of a store takes them. It is the same with the fact that the
// slot is one of the store's: it stands with each call that takes a slot.
impl<C: Code, S: Reading> Spread<C, S> {
    // The level's sizes. Of them, of the code and of the store beneath holds what a level promises.
    pub fn layout(&self) -> Layout
        ensures same { result ≡ self.now.layout }
        ensures promise { S.Reading.sound self.now.below → Laid self.now.layout (C.Code.coding self.now.code) (S.Reading.meaning self.now.below) → LevelPromise result (C.Code.coding self.now.code).Word (S.Reading.meaning self.now.below) (level self.now.layout (C.Code.coding self.now.code).whole (S.Reading.meaning self.now.below)) }
    {
        self.layout
    }

    // Refuses a node or a place that the level has not, though the store beneath may have it.
    fn refuse_beyond(&self, node: usize, place: usize) -> Result<(), Refusal>
        ensures { result ≡ outcome (refuse (nat_le self.now.layout.nodes node) Node (refuse (nat_le (self.now.layout.k * self.now.layout.lanes) place) Place None)) tt }
    {
        if node >= self.layout.nodes {
            return Err(Refusal::Node);
        }
        if place >= self.layout.places() {
            return Err(Refusal::Place);
        }
        Ok(())
    }

    // Gets one of the level's cells: what the store beneath answers, or in a sealed slot what the stripe gives.
    fn get_cell(
        &self,
        slot: usize,
        node: usize,
        place: usize,
        out: &mut [u8],
    ) -> Result<(), Refusal>
        requires node { node < self.now.layout.nodes }
        requires place { place < self.now.layout.k * self.now.layout.lanes }
        ensures { ⟦<Spread<C, S> as Reading>⟧.sound self.now → GetAnswer (⟦<Spread<C, S> as Reading>⟧.meaning self.now) slot node place out.old result out.new }
    {
        match self.below.get(slot, node, place, out) {
            Err(Refusal::Missing { .. }) if self.is_sealed(slot) => {
                self.restore(slot, node, place, out)
            }
            answer => answer,
        }
    }
}

impl<C: Drop, S> Spread<C, S> {
    // The store beneath, where the level is no longer wanted.
    pub fn into_below(self) -> S
        ensures { result ≡ self.below }
    {
        let Spread {
            layout: _,
            code: _,
            below,
        } = self;
        below
    }
}

impl<C: Code, S: Reading> Reading for Spread<C, S> {
    ghost sound = { λ x. S.Reading.sound x.below × Laid x.layout (C.Code.coding x.code) (S.Reading.meaning x.below) };

    ghost meaning = { λ x. level x.layout (C.Code.coding x.code).whole (S.Reading.meaning x.below) };

    ghost lawful = { λ x h. level_lawful x.layout (S.Reading.meaning x.below) (S.Reading.lawful x.below h.0) h.1.matches.fits (C.Code.coding x.code) (at_layout x.layout (C.Code.coding x.code) (S.Reading.meaning x.below).shape h.1.matches (C.Code.completes x.code) (C.Code.determines x.code)) };

    fn shape(&self) -> Shape {
        Shape {
            places: self.layout.places(),
            ..self.below.shape()
        }
    }

    fn state(&self, slot: usize) -> Result<State, Refusal> {
        self.below.state(slot)
    }

    fn get(&self, slot: usize, node: usize, place: usize, out: &mut [u8]) -> Result<(), Refusal> {
        self.refuse_beyond(node, place)?;
        self.get_cell(slot, node, place, out)
    }
}

impl<C: Code, S: Store> Store for Spread<C, S> {
    fn open(&mut self, slot: usize) -> Result<(), Refusal> {
        self.below.open(slot)
    }

    fn put(&mut self, slot: usize, node: usize, place: usize, block: &[u8]) -> Result<(), Refusal> {
        self.refuse_beyond(node, place)?;
        self.below.put(slot, node, place, block)
    }

    // Writes every check, then seals beneath. Refused, it has written nothing.
    fn seal(&mut self, slot: usize) -> Result<(), Refusal>
        ensures sound { ⟦<Spread<C, S> as Reading>⟧.sound self.old → ⟦<Spread<C, S> as Reading>⟧.sound self.new }
        ensures means { ⟦<Spread<C, S> as Reading>⟧.sound self.old → SealAnswer (⟦<Spread<C, S> as Reading>⟧.meaning self.old) slot result (⟦<Spread<C, S> as Reading>⟧.meaning self.new) }
        ensures untouched { S.Reading.sound self.old.below → Laid self.old.layout (C.Code.coding self.old.code) (S.Reading.meaning self.old.below) → OnErr result (self.new.below ≡ self.old.below) }
    {
        if self.below.state(slot)? != State::Open {
            return Err(Refusal::SlotNotOpen);
        }
        let mut bytes = [0; ROOM];
        self.collect(slot, &mut bytes)?;
        self.write_checks(slot, &bytes);
        self.below.seal(slot)
    }

    fn lose(&mut self, node: usize) -> Result<(), Refusal> {
        self.below.lose(node)
    }

    fn clear(&mut self, slot: usize) -> Result<(), Refusal> {
        self.below.clear(slot)
    }
}
