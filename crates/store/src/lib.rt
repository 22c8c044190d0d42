// Stores by what they mean: a reading interface, a store above it, and what can be done with either.
#![tactic(auto)]

ghost use Rattle.std.specs.Prelude.{◌≡◌, ℕ, ◌+◌, ◌*◌, ◌<◌, ◌≤◌, length, OnErr};
ghost use Rattle.store.specs.Meaning.{Meaning, Lawful, within_limits};
ghost use Rattle.store.specs.Calls.{StateAnswer, GetAnswer, OpenAnswer, PutAnswer, SealAnswer, LoseAnswer, ClearAnswer, state_number, StateOf};
ghost use Rattle.store.specs.Rank.{RankAnswer, Reads, Ends};

pub mod kinds;

use block::BLOCK;
use kinds::{Shape, State, UnknownState};
use refusal::kind::Refusal;

impl Shape {
    // Whether the sizes are within the limits of a store.
    pub fn is_admitted(&self) -> bool
        ensures { result ≡ within_limits self.now }
    {
        (2..=64).contains(&self.nodes)
            && (1..=64).contains(&self.places)
            && (2..=8).contains(&self.slots)
    }
}

impl State {
    // The number by which callers know the state.
    pub fn number(&self) -> u8
        ensures { result ≡ state_number self.now }
    {
        *self as u8
    }
}

// The state that a number stands for.
impl TryFrom<u8> for State {
    type Error = UnknownState;

    ghost try_from_gives = { StateOf };

    fn try_from(number: u8) -> Result<State, UnknownState> {
        match number {
            0 => Ok(State::Empty),
            1 => Ok(State::Open),
            2 => Ok(State::Sealed),
            _ => Err(UnknownState(number)),
        }
    }
}

// What can be read: the shape, the states of the slots, and their blocks.
pub trait Reading {
    // The value is as its maker and its calls left it.
    ghost sound: { Self → Type 0 };

    // What it means: shape, cover rule and slots.
    ghost meaning: { Self → Meaning };

    // The laws of a sound value's meaning.
    ghost lawful: { (s : Self) → sound s → Lawful (meaning s) };

    fn shape(&self) -> Shape
        ensures { sound self.now → result ≡ (meaning self.now).shape };

    fn state(&self, slot: usize) -> Result<State, Refusal>
        ensures { sound self.now → StateAnswer (meaning self.now) slot result };

    // Writes the block of a cell to a buffer of 64 bytes.
    fn get(&self, slot: usize, node: usize, place: usize, out: &mut [u8]) -> Result<(), Refusal>
        ensures { sound self.now → GetAnswer (meaning self.now) slot node place out.old result out.new };
}

// What can also be changed.
pub trait Store: Reading {
    // Makes an empty slot open, with no cell.
    fn open(&mut self, slot: usize) -> Result<(), Refusal>
        ensures sound { Self.Reading.sound self.old → Self.Reading.sound self.new }
        ensures means { Self.Reading.sound self.old → OpenAnswer (Self.Reading.meaning self.old) slot result (Self.Reading.meaning self.new) };

    // Sets a cell of an open slot, also over an earlier block.
    fn put(&mut self, slot: usize, node: usize, place: usize, block: &[u8]) -> Result<(), Refusal>
        ensures sound { Self.Reading.sound self.old → Self.Reading.sound self.new }
        ensures means { Self.Reading.sound self.old → PutAnswer (Self.Reading.meaning self.old) slot node place block.now result (Self.Reading.meaning self.new) };

    // Makes an open slot that has every cell sealed.
    fn seal(&mut self, slot: usize) -> Result<(), Refusal>
        ensures sound { Self.Reading.sound self.old → Self.Reading.sound self.new }
        ensures means { Self.Reading.sound self.old → SealAnswer (Self.Reading.meaning self.old) slot result (Self.Reading.meaning self.new) };

    // Loses a node in every slot.
    fn lose(&mut self, node: usize) -> Result<(), Refusal>
        ensures sound { Self.Reading.sound self.old → Self.Reading.sound self.new }
        ensures means { Self.Reading.sound self.old → LoseAnswer (Self.Reading.meaning self.old) node result (Self.Reading.meaning self.new) };

    // Makes a slot empty, whatever it was.
    fn clear(&mut self, slot: usize) -> Result<(), Refusal>
        ensures sound { Self.Reading.sound self.old → Self.Reading.sound self.new }
        ensures means { Self.Reading.sound self.old → ClearAnswer (Self.Reading.meaning self.old) slot result (Self.Reading.meaning self.new) };
}

// Reads the blocks of a node, place by place, up to the first that the source does not give.
fn gather<R: Reading>(source: &R, slot: usize, node: usize, out: &mut [u8]) -> Result<(), Refusal>
    ensures { R.Reading.sound source.now → Reads (R.Reading.meaning source.now) slot node (length out.old) → Ends (R.Reading.meaning source.now) slot node result out.new }
{
    // Cut by ranges: no contract tells what a buffer holds that was written through `chunks_exact_mut`.
    for place in 0..out.len() / BLOCK {
        let at = BLOCK * place;
        // This form is the one that docs/DECISIONS.md names for this place.
        let answer = source.get(slot, node, place, &mut out[at..at + BLOCK]);
        let Ok(()) = answer else {
            return answer;
        };
    }
    Ok(())
}

// The same by way of another buffer, so that a refusal leaves the file alone.
fn gather_by<R: Reading>(
    source: &R,
    slot: usize,
    node: usize,
    scratch: &mut [u8],
    file: &mut [u8],
) -> Result<(), Refusal>
    requires { length file.old ≤ length scratch.old }
    ensures kept { OnErr result (file.new ≡ file.old) }
    ensures ends { R.Reading.sound source.now → Reads (R.Reading.meaning source.now) slot node (length file.old) → Ends (R.Reading.meaning source.now) slot node result file.new }
{
    let part = &mut scratch[0..file.len()];
    gather(source, slot, node, part)?;
    file.copy_from_slice(part);
    Ok(())
}

// Reads a rank's file, the blocks of its node one after the other, from anything that can be read.
pub fn read_rank<R: Reading>(
    source: &R,
    slot: usize,
    rank: usize,
    file: &mut [u8],
) -> Result<(), Refusal>
    ensures kept { OnErr result (file.new ≡ file.old) }
    ensures answers { R.Reading.sound source.now → RankAnswer (R.Reading.meaning source.now) slot rank file.old result file.new }
{
    let shape = source.shape();
    if rank >= shape.nodes {
        return Err(Refusal::Node);
    }
    if slot >= shape.slots {
        return Err(Refusal::Slot);
    }
    if shape.places > 64 || file.len() != BLOCK * shape.places {
        return Err(Refusal::Length);
    }
    // A fixed buffer with room for the longest file, since reading allocates nothing.
    let mut scratch = [0; 4096];
    gather_by(source, slot, rank, &mut scratch, file)
}
