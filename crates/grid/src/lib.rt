// Stores without protection, whatever they are laid out in: a state for each slot and a block or nothing for each cell.
#![tactic(auto)]

ghost use Rattle.std.specs.Prelude.{◌≡◌, ℕ, ◌+◌, ◌*◌, ◌<◌, length, Some, None, Err, MatchOption, ok_or, OnOk, OnErr};
ghost use Rattle.refusal.specs.Answer.{outcome};
ghost use Rattle.refusal.specs.declared.kind.Refusal.TheVariants.{SlotEmpty, Missing};
ghost use Rattle.store.specs.declared.kinds.State.TheVariants.{Empty, Open, Sealed};
ghost use Rattle.store.specs.Meaning.{Limits};
ghost use Rattle.store.specs.Calls.{beyond_shape, absent_at, incomplete, StateAnswer, GetAnswer, OpenAnswer, PutAnswer, SealAnswer, LoseAnswer, ClearAnswer};
ghost use Rattle.grid.specs.Index.{index, total, table_refusal};
ghost use Rattle.grid.specs.Grid.{Grid, Sound, means, marked, written, dropped, dropped_in, cleared};

use block::BLOCK;
use refusal::kind::Refusal;
use store::kinds::{Shape, State};

// What shows a grid: the sizes, the states of the slots and the blocks of the cells. The three numbers of a cell stay apart, as
// in the calls of a store: a struct of them would be made at each call only to be taken apart.
pub trait BareReading {
    ghost grid: { Self → Grid };

    // Every value's grid is sound.
    ghost sound: { (b : Self) → Sound (grid b) };

    fn sizes(&self) -> Shape
        ensures { result ≡ (grid self.now).shape };

    fn state_of(&self, slot: usize) -> State
        requires { slot < (grid self.now).shape.slots }
        ensures { result ≡ (grid self.now).state slot };

    // The block of a cell, or nothing where it is absent.
    fn block_at(&self, slot: usize, node: usize, place: usize) -> Option<&[u8]>
        requires { (slot < (grid self.now).shape.slots) × (node < (grid self.now).shape.nodes) × (place < (grid self.now).shape.places) }
        ensures { MatchOption result ((grid self.now).cell slot node place ≡ None) (λ b. (grid self.now).cell slot node place ≡ Some b.now) };
}

// What can also be changed: a mark, a cell, the cells of a node in one slot, or a whole slot.
pub trait BareStore: BareReading {
    // Nothing of what the node's cells held in the slot is left.
    ghost wiped: { Self → ℕ → ℕ → Type 0 };

    // Marks an empty slot as open.
    fn begin(&mut self, slot: usize)
        requires inside { slot < (Self.BareReading.grid self.old).shape.slots }
        requires empty { (Self.BareReading.grid self.old).state slot ≡ Empty }
        ensures { Self.BareReading.grid self.new ≡ marked (Self.BareReading.grid self.old) slot Open };

    // Puts a block into a cell of an open slot.
    fn write(&mut self, slot: usize, node: usize, place: usize, block: &[u8])
        requires inside { (slot < (Self.BareReading.grid self.old).shape.slots) × (node < (Self.BareReading.grid self.old).shape.nodes) × (place < (Self.BareReading.grid self.old).shape.places) }
        requires size { length block.now ≡ 64 }
        requires opened { (Self.BareReading.grid self.old).state slot ≡ Open }
        ensures { Self.BareReading.grid self.new ≡ written (Self.BareReading.grid self.old) slot node place block.now };

    // Marks an open slot that has every cell as sealed.
    fn close(&mut self, slot: usize)
        requires inside { slot < (Self.BareReading.grid self.old).shape.slots }
        requires opened { (Self.BareReading.grid self.old).state slot ≡ Open }
        requires full { incomplete (Self.BareReading.grid self.old).shape ((Self.BareReading.grid self.old).cell slot) ≡ None }
        ensures { Self.BareReading.grid self.new ≡ marked (Self.BareReading.grid self.old) slot Sealed };

    // Drops the cells of a node in one slot, and wipes them.
    fn wipe(&mut self, slot: usize, node: usize)
        requires { (slot < (Self.BareReading.grid self.old).shape.slots) × (node < (Self.BareReading.grid self.old).shape.nodes) }
        ensures drops { Self.BareReading.grid self.new ≡ dropped_in (Self.BareReading.grid self.old) slot node }
        ensures wiped { wiped self.new slot node }
        ensures kept { (s n : ℕ) → s < (Self.BareReading.grid self.old).shape.slots → n < (Self.BareReading.grid self.old).shape.nodes → wiped self.old s n → wiped self.new s n };

    // Marks a slot as empty, and drops and wipes its cells.
    fn vacate(&mut self, slot: usize)
        requires { slot < (Self.BareReading.grid self.old).shape.slots }
        ensures { Self.BareReading.grid self.new ≡ cleared (Self.BareReading.grid self.old) slot };
}

// Where a cell lies in a row of all cells: by slot, then node, then place.
pub fn index_of(shape: Shape, slot: usize, node: usize, place: usize) -> usize
    requires limits { Limits shape }
    requires inside { (slot < shape.slots) × (node < shape.nodes) × (place < shape.places) }
    ensures is { result ≡ index shape slot node place }
    ensures below { result < total shape }
{
    (slot * shape.nodes + node) * shape.places + place
}

// Whether the sizes are within their limits, and a table of that length has just so much for each slot and each cell.
pub fn check_table(shape: Shape, of_slot: u8, of_cell: u8, len: usize) -> Result<(), Refusal>
    ensures { result ≡ outcome (table_refusal shape (of_slot * shape.slots + of_cell * total shape) len) tt }
{
    if !shape.is_admitted() {
        return Err(Refusal::Sizes);
    }
    let cells = shape.slots * shape.nodes * shape.places;
    if len != usize::from(of_slot) * shape.slots + usize::from(of_cell) * cells {
        return Err(Refusal::Sizes);
    }
    Ok(())
}

// Whether there is such a cell: the node is looked at first, then the place and the slot.
pub fn within<B: BareReading>(
    store: &B,
    slot: usize,
    node: usize,
    place: usize,
) -> Result<(), Refusal>
    ensures answer { result ≡ outcome (beyond_shape (means (B.grid store.now)) slot node place None) tt }
    ensures inside { OnOk result ((slot < (B.grid store.now).shape.slots) × (node < (B.grid store.now).shape.nodes) × (place < (B.grid store.now).shape.places)) }
{
    let shape = store.sizes();
    if node >= shape.nodes {
        return Err(Refusal::Node);
    }
    if place >= shape.places {
        return Err(Refusal::Place);
    }
    if slot >= shape.slots {
        return Err(Refusal::Slot);
    }
    Ok(())
}

// The state of a slot.
pub fn state<B: BareReading>(store: &B, slot: usize) -> Result<State, Refusal>
    ensures answer { StateAnswer (means (B.grid store.now)) slot result }
    ensures inside { OnOk result (slot < (B.grid store.now).shape.slots) }
{
    if slot >= store.sizes().slots {
        return Err(Refusal::Slot);
    }
    Ok(store.state_of(slot))
}

// The block of a cell, refused where its slot is empty or the cell has none.
pub fn present<'a>(
    state: State,
    block: Option<&'a [u8]>,
    node: usize,
    place: usize,
) -> Result<&'a [u8], Refusal>
    ensures empty { state ≡ Empty → result ≡ Err SlotEmpty }
    ensures used { (state ≡ Empty → ⊥) → result ≡ ok_or block.entry (Missing node place) }
{
    match state {
        State::Empty => Err(Refusal::SlotEmpty),
        _ => block.ok_or(Refusal::Missing { node, place }),
    }
}

// Writes the block of a cell to a buffer of 64 bytes.
pub fn get<B: BareReading>(
    store: &B,
    slot: usize,
    node: usize,
    place: usize,
    out: &mut [u8],
) -> Result<(), Refusal>
    ensures { GetAnswer (means (B.grid store.now)) slot node place out.old result out.new }
{
    within(store, slot, node, place)?;
    if out.len() != BLOCK {
        return Err(Refusal::Length);
    }
    let state = store.state_of(slot);
    let block = store.block_at(slot, node, place);
    // By way of a block of its own, which overlaps neither: so the copy is not made byte by byte.
    let mut copy = [0; BLOCK];
    copy.copy_from_slice(present(state, block, node, place)?);
    out.copy_from_slice(&copy);
    Ok(())
}

// Refuses a node that has an absent cell in the slot, for the first one.
fn node_complete<B: BareReading>(store: &B, slot: usize, node: usize) -> Result<(), Refusal>
    requires { (slot < (B.grid store.now).shape.slots) × (node < (B.grid store.now).shape.nodes) }
    ensures { result ≡ outcome (absent_at (B.grid store.now).shape ((B.grid store.now).cell slot) node) tt }
{
    for place in 0..store.sizes().places {
        if store.block_at(slot, node, place).is_none() {
            return Err(Refusal::Incomplete { rank: node, place });
        }
    }
    Ok(())
}

// Refuses a slot that has an absent cell, for the first one by node, then place.
fn complete<B: BareReading>(store: &B, slot: usize) -> Result<(), Refusal>
    requires { slot < (B.grid store.now).shape.slots }
    ensures { result ≡ outcome (incomplete (B.grid store.now).shape ((B.grid store.now).cell slot)) tt }
{
    for node in 0..store.sizes().nodes {
        node_complete(store, slot, node)?;
    }
    Ok(())
}

// Makes an empty slot open, with no cell.
pub fn open<B: BareStore>(store: &mut B, slot: usize) -> Result<(), Refusal>
    ensures means { OpenAnswer (means (B.grid store.old)) slot result (means (B.grid store.new)) }
    ensures untouched { OnErr result (store.new ≡ store.old) }
{
    let State::Empty = state(store, slot)? else {
        return Err(Refusal::SlotNotEmpty);
    };
    store.begin(slot);
    Ok(())
}

// Sets a cell of an open slot, also over an earlier block.
pub fn put<B: BareStore>(
    store: &mut B,
    slot: usize,
    node: usize,
    place: usize,
    block: &[u8],
) -> Result<(), Refusal>
    ensures means { PutAnswer (means (B.grid store.old)) slot node place block.now result (means (B.grid store.new)) }
    ensures untouched { OnErr result (store.new ≡ store.old) }
{
    within(store, slot, node, place)?;
    if block.len() != BLOCK {
        return Err(Refusal::Length);
    }
    let State::Open = store.state_of(slot) else {
        return Err(Refusal::SlotNotOpen);
    };
    store.write(slot, node, place, block);
    Ok(())
}

// Makes an open slot that has every cell sealed.
pub fn seal<B: BareStore>(store: &mut B, slot: usize) -> Result<(), Refusal>
    ensures means { SealAnswer (means (B.grid store.old)) slot result (means (B.grid store.new)) }
    ensures untouched { OnErr result (store.new ≡ store.old) }
{
    let State::Open = state(store, slot)? else {
        return Err(Refusal::SlotNotOpen);
    };
    complete(store, slot)?;
    store.close(slot);
    Ok(())
}

// Drops the cells of a node in every slot, and wipes them.
fn forget<B: BareStore>(store: &mut B, node: usize)
    requires { node < (B.grid store.old).shape.nodes }
    ensures drops { B.grid store.new ≡ dropped (B.grid store.old) node }
    ensures wiped { (s : ℕ) → s < (B.grid store.old).shape.slots → B.wiped store.new s node }
{
    for slot in 0..store.sizes().slots {
        store.wipe(slot, node);
    }
}

// Loses a node in every slot.
pub fn lose<B: BareStore>(store: &mut B, node: usize) -> Result<(), Refusal>
    ensures means { LoseAnswer (means (B.grid store.old)) node result (means (B.grid store.new)) }
    ensures untouched { OnErr result (store.new ≡ store.old) }
    ensures wiped { OnOk result ((s : ℕ) → s < (B.grid store.new).shape.slots → B.wiped store.new s node) }
{
    if node >= store.sizes().nodes {
        return Err(Refusal::Node);
    }
    forget(store, node);
    Ok(())
}

// Makes a slot empty, whatever it was.
pub fn clear<B: BareStore>(store: &mut B, slot: usize) -> Result<(), Refusal>
    ensures means { ClearAnswer (means (B.grid store.old)) slot result (means (B.grid store.new)) }
    ensures untouched { OnErr result (store.new ≡ store.old) }
{
    state(store, slot)?;
    store.vacate(slot);
    Ok(())
}
