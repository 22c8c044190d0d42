// A bare store over a table of cells handed in by its maker.
#![tactic(auto)]

ghost use Rattle.std.specs.Prelude.{◌≡◌, ℕ, ◌≤◌, ◌&&◌, length, if◌then◌else◌, None, OnErr, OnOk, nat_le, nat_lt};
ghost use Rattle.std.proofs.Props.{props};
ghost use Rattle.refusal.specs.Answer.{outcome};
ghost use Rattle.store.specs.Meaning.{vacant, bare};
ghost use Rattle.store.specs.Calls.{OpenAnswer, PutAnswer, SealAnswer, LoseAnswer, ClearAnswer};
ghost use Rattle.grid.specs.Grid.{means};
ghost use Rattle.grid.specs.Index.{total, table_refusal};
ghost use Rattle.grid.proofs.Grid.{lawful};
ghost use Rattle.bank.specs.Table.{blank, at, SoundTable};

pub mod cell;

use block::BLOCK;
use cell::{BLANK, Cell};
use grid::{BareReading, BareStore, check_table, index_of};
use refusal::kind::Refusal;
use store::kinds::{Shape, State};
use store::{Reading, Store};

// The sizes, the state of each slot, and the cells by slot, node and place.
#[derive(Drop)]
pub struct Bank<'a> {
    shape: Shape,
    // As many as a shape has slots at most, since a bank allocates nothing.
    states: [State; 8],
    cells: &'a mut [Cell],
    ghost sound: { SoundTable shape states cells.now } by { Prim.hlevel props },
}

// Wipes the cells from one number to before another.
fn wipe_cells(cells: &mut [Cell], from: usize, to: usize)
    requires { (from ≤ to) × (to ≤ length cells.old) }
    ensures { (k : ℕ) → at cells.new k ≡ (if nat_le from k && nat_lt k to then blank else at cells.old k) }
{
    cells[from..to].fill(BLANK);
}

impl<'a> Bank<'a> {
    ghost use Rattle.bank.specs.Bank.{grid_of, SoundBank};

    // Whether a bank of that shape can be made over the table: it has to be within the limits, with a cell for each block.
    pub fn check(shape: Shape, cells: &[Cell]) -> Result<(), Refusal>
        ensures { result ≡ outcome (table_refusal shape (total shape) (length cells.now)) tt }
    {
        check_table(shape, 0, 1, cells.len())
    }

    // A bank with every slot empty, over a table that passed the check.
    pub fn new(shape: Shape, cells: &'a mut [Cell]) -> Bank<'a>
        requires { table_refusal shape (total shape) (length cells.old) ≡ None }
        ensures sound { SoundBank result }
        ensures means { means (grid_of result) ≡ vacant shape bare }
    {
        cells.fill(BLANK);
        Bank {
            shape,
            states: [State::Empty; 8],
            cells,
        }
    }
}

impl<'a> BareReading for Bank<'a> {
    ghost use Rattle.bank.specs.Bank.{grid_of};

    ghost grid = { grid_of };

    ghost sound = { λ b. b.sound.grid };

    fn sizes(&self) -> Shape {
        self.shape
    }

    fn state_of(&self, slot: usize) -> State {
        self.states[slot]
    }

    fn block_at(&self, slot: usize, node: usize, place: usize) -> Option<&[u8]> {
        let cells = &*self.cells;
        let cell = &cells[index_of(self.shape, slot, node, place)];
        if cell.present {
            Some(&cell.block)
        } else {
            None
        }
    }
}

impl<'a> BareStore for Bank<'a> {
    ghost use Rattle.bank.specs.Bank.{WipedIn};

    ghost wiped = { WipedIn };

    fn begin(&mut self, slot: usize) {
        self.states[slot] = State::Open;
    }

    fn write(&mut self, slot: usize, node: usize, place: usize, block: &[u8]) {
        let i = index_of(self.shape, slot, node, place);
        let mut cell = Cell {
            present: true,
            block: [0; BLOCK],
        };
        cell.block.copy_from_slice(block);
        self.cells[i] = cell;
    }

    fn close(&mut self, slot: usize) {
        self.states[slot] = State::Sealed;
    }

    fn wipe(&mut self, slot: usize, node: usize) {
        let from = index_of(self.shape, slot, node, 0);
        wipe_cells(self.cells, from, from + self.shape.places);
    }

    fn vacate(&mut self, slot: usize) {
        let from = index_of(self.shape, slot, 0, 0);
        let cells = self.shape.nodes * self.shape.places;
        wipe_cells(self.cells, from, from + cells);
        self.states[slot] = State::Empty;
    }
}

// Handed on call by call: no impl for every bare store at once is allowed, since the trait is of a lower crate.
impl<'a> Reading for Bank<'a> {
    ghost use Rattle.bank.specs.Bank.{grid_of, SoundBank};

    ghost sound = { SoundBank };

    ghost meaning = { λ b. means (grid_of b) };

    ghost lawful = { λ b h. lawful (grid_of b) h.grid };

    fn shape(&self) -> Shape {
        self.sizes()
    }

    fn state(&self, slot: usize) -> Result<State, Refusal> {
        grid::state(self, slot)
    }

    fn get(&self, slot: usize, node: usize, place: usize, out: &mut [u8]) -> Result<(), Refusal> {
        grid::get(self, slot, node, place, out)
    }
}

// Handed on call by call: no impl for every bare store at once is allowed, since the trait is of a lower crate.
impl<'a> Store for Bank<'a> {
    ghost use Rattle.bank.specs.Bank.{grid_of, SoundBank, Untouched, Wiped};

    fn open(&mut self, slot: usize) -> Result<(), Refusal>
        ensures sound { SoundBank self.new }
        ensures means { OpenAnswer (means (grid_of self.old)) slot result (means (grid_of self.new)) }
        ensures untouched { OnErr result (Untouched self.old self.new) }
    {
        grid::open(self, slot)
    }

    fn put(&mut self, slot: usize, node: usize, place: usize, block: &[u8]) -> Result<(), Refusal>
        ensures sound { SoundBank self.new }
        ensures means { PutAnswer (means (grid_of self.old)) slot node place block.now result (means (grid_of self.new)) }
        ensures untouched { OnErr result (Untouched self.old self.new) }
    {
        grid::put(self, slot, node, place, block)
    }

    fn seal(&mut self, slot: usize) -> Result<(), Refusal>
        ensures sound { SoundBank self.new }
        ensures means { SealAnswer (means (grid_of self.old)) slot result (means (grid_of self.new)) }
        ensures untouched { OnErr result (Untouched self.old self.new) }
    {
        grid::seal(self, slot)
    }

    fn lose(&mut self, node: usize) -> Result<(), Refusal>
        ensures sound { SoundBank self.new }
        ensures means { LoseAnswer (means (grid_of self.old)) node result (means (grid_of self.new)) }
        ensures untouched { OnErr result (Untouched self.old self.new) }
        ensures wiped { OnOk result (Wiped self.new node) }
    {
        grid::lose(self, node)
    }

    fn clear(&mut self, slot: usize) -> Result<(), Refusal>
        ensures sound { SoundBank self.new }
        ensures means { ClearAnswer (means (grid_of self.old)) slot result (means (grid_of self.new)) }
        ensures untouched { OnErr result (Untouched self.old self.new) }
    {
        grid::clear(self, slot)
    }
}
