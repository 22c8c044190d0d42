// One piece of a file on a level: it is written, nodes are lost, and it is read again.
//
// Rank r has the r-th part of the piece, block after block in the order of the places.
ghost use Rattle.std.specs.Prelude.{◌≡◌, ℕ, ◌/◌, ◌≤◌, true, length, IfOk, fold, OnOk};
ghost use Rattle.store.specs.Calls.{get_refusal, losing};
ghost use Rattle.stripe.specs.Seen.{rank_size, fate_of, Fates, CameBack};

use crate::fault::{Fault, Mistake};
use crate::level_report::{Fate, Rank};
use block::BLOCK;
use codes::any::AnyCode;
use refusal::kind::Refusal;
use spread::lay::lay;
use std::alloc::AllocError;
use store::{Reading, Store, read_rank};
use stripe_map::layout::Layout;

// The slot that the piece is put into.
const SLOT: usize = 0;

// The bytes of a rank in a piece.
pub fn rank_bytes(layout: &Layout) -> usize
    ensures is { result ≡ rank_size layout.now }
    ensures some { 1 ≤ result }
    ensures most { result ≤ 4096 }
{
    layout.places() * BLOCK
}

// Writes a piece into the slot, so many bytes to a rank, and seals it. What it leaves is only tested: what comes back is compared
// with the piece.
fn fill<S: Store>(store: &mut S, width: usize, piece: &[u8]) -> Result<(), Refusal>
    requires { 1 ≤ width }
    ensures { S.Reading.sound store.old → S.Reading.sound store.new }
{
    store.open(SLOT)?;
    for (rank, bytes) in piece.chunks(width).enumerate() {
        for (place, block) in bytes.chunks(BLOCK).enumerate() {
            store.put(SLOT, rank, place, block)?;
        }
    }
    store.seal(SLOT)
}

// Loses the nodes, one after the other.
fn lose_all<S: Store>(store: &mut S, nodes: &[usize]) -> Result<(), Refusal>
    ensures sound { S.Reading.sound store.old → S.Reading.sound store.new }
    ensures means { S.Reading.sound store.old → OnOk result (S.Reading.meaning store.new ≡ fold losing (S.Reading.meaning store.old) nodes.now) }
{
    for node in nodes {
        store.lose(*node)?;
    }
    Ok(())
}

// A node of a level that was written and may then have been lost. That the level is sound is a premise of what is said and no fact
// of the type, since a piece is carried on a store of any make, of which nothing is asked.
#[derive(Drop)]
struct Node<'a, R: Reading> {
    level: &'a R,
    number: usize,
    lost: bool,
}

impl<R: Reading> Node<'_, R> {
    // What became of the cell at a place.
    fn fate(&self, place: usize) -> Fate
        ensures { R.Reading.sound self.now.level.now → result ≡ fate_of (get_refusal (R.Reading.meaning self.now.level.now) 0 self.now.number place 64) self.now.lost }
    {
        let mut block = [0; BLOCK];
        match self.level.get(SLOT, self.number, place, &mut block) {
            Ok(()) if self.lost => Fate::Rebuilt,
            Ok(()) => Fate::Direct,
            Err(_) => Fate::Gap,
        }
    }

    // What became of each of its cells, by place, in a list that has the room of the piece before.
    fn fates(&self, places: usize, cells: &mut Vec<Fate>) -> Result<(), AllocError>
        ensures { R.Reading.sound self.now.level.now → OnOk result (Fates (R.Reading.meaning self.now.level.now) self.now.number self.now.lost places cells.new.items) }
    {
        cells.clear();
        cells.extend((0..places).map(|place| self.fate(place)))
    }

    // Whether the bytes that were written as its rank came back; other bytes are a mistake.
    fn comes_back<'m>(&self, written: &[u8]) -> Result<bool, Mistake<'m>>
        ensures { R.Reading.sound self.now.level.now → IfOk result (CameBack (R.Reading.meaning self.now.level.now) self.now.number written.now) }
    {
        // A fixed buffer with room for the most that a rank has of a piece, so that comparing needs no memory.
        let mut room = [0; 4096];
        if written.len() > room.len() {
            return Err(Refusal::Length.into());
        }
        let bytes = &mut room[..written.len()];
        match read_rank(self.level, SLOT, self.number, bytes) {
            Ok(()) if &bytes[..] == written => Ok(true),
            Ok(()) => Err(Fault::OtherBytes.into()),
            Err(Refusal::Missing { .. }) => Ok(false),
            Err(refusal) => Err(refusal.into()),
        }
    }

    // Looks at its cells, and whether what was written came back.
    fn look<'m>(&self, written: &[u8], rank: &mut Rank) -> Result<(), Mistake<'m>>
        ensures cells { R.Reading.sound self.now.level.now → OnOk result (Fates (R.Reading.meaning self.now.level.now) self.now.number self.now.lost (length written.now / 64) rank.new.cells.items) }
        ensures back { R.Reading.sound self.now.level.now → OnOk result (rank.new.back ≡ true → (rank.old.back ≡ true) × CameBack (R.Reading.meaning self.now.level.now) self.now.number written.now true) }
    {
        self.fates(written.len() / BLOCK, &mut rank.cells)?;
        rank.back &= self.comes_back(written)?;
        Ok(())
    }
}

// The losses of a level's nodes, and what the level is laid by.
#[derive(Clone, Copy)]
pub struct Trial<'a> {
    pub layout: Layout,
    pub code: AnyCode,
    // the numbers of the nodes
    pub lost: &'a [usize],
}

impl Trial<'_> {
    // Carries a piece through the losses, on a level over the store, and looks at every rank. No contract: what is seen of a rank
    // is said by `look`; that every rank is looked at is only tested.
    pub fn carry<'m, S: Store + Drop>(
        &self,
        below: S,
        piece: &[u8],
        ranks: &mut Vec<Rank>,
    ) -> Result<(), Mistake<'m>> {
        let width = rank_bytes(&self.layout);
        let mut level = lay(self.layout, self.code, below);
        fill(&mut level, width, piece)?;
        lose_all(&mut level, self.lost)?;
        for (number, (rank, written)) in ranks.iter_mut().zip(piece.chunks(width)).enumerate() {
            let node = Node {
                level: &level,
                number,
                lost: rank.lost,
            };
            node.look(written, rank)?;
        }
        Ok(())
    }
}
