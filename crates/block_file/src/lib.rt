// A bare store in one byte image lent by its maker.
#![tactic(auto)]

ghost use Rattle.std.specs.Prelude.{◌≡◌, ℕ, ◌*◌, ◌<◌, List, length, None, OnErr, OnOk};
ghost use Rattle.refusal.specs.Answer.{outcome};
ghost use Rattle.store.specs.Meaning.{vacant, bare};
ghost use Rattle.store.specs.Calls.{OpenAnswer, PutAnswer, SealAnswer, LoseAnswer, ClearAnswer};
ghost use Rattle.grid.specs.Grid.{means};
ghost use Rattle.grid.specs.Index.{table_refusal};
ghost use Rattle.grid.proofs.Grid.{lawful};
ghost use Rattle.image_format.specs.Image.{Over, Wiped, size, head_of, SoundImage};
ghost use Rattle.store.specs.declared.kinds.State.TheVariants.{Empty};
ghost use Rattle.image_format.proofs.Prop.{sound_prop};

use grid::{BareReading, BareStore};
use image_format::{
    block_of, head_bytes, present_record, start_of, state_at, wipe_bytes, write_bytes,
};
use refusal::kind::Refusal;
use store::kinds::{Shape, State};
use store::{Reading, Store};

// The sizes, and an image that is as the format has it for them, at all times.
#[derive(Drop)]
pub struct BlockFile<'a> {
    shape: Shape,
    image: &'a mut [u8],
    pub ghost laid: { SoundImage shape image.now } by { sound_prop shape image.now },
}

// Writes the head of an empty slot, then wipes its records, which lie from one byte to before another. Apart from the methods, since
// between the two the image is not sound.
fn empty_bytes(image: &mut [u8], slot: usize, from: usize, to: usize)
    requires { slot < 8 }
    ensures { (zs : List ℕ) × (length zs ≡ length image.old) × Over image.old zs (8 * slot) (head_of Empty) × Wiped zs image.new from to }
{
    write_bytes(image, 8 * slot, &head_bytes(State::Empty));
    wipe_bytes(image, from, to);
}

impl<'a> BlockFile<'a> {
    ghost use Rattle.block_file.specs.File.{grid_of, SoundFile};

    // Whether the sizes are within their limits and the image has the length that they need.
    pub fn check(shape: Shape, image: &[u8]) -> Result<(), Refusal>
        ensures { result ≡ outcome (table_refusal shape (size shape) (length image.now)) tt }
    {
        grid::check_table(shape, 8, 72, image.len())
    }

    // A block file with every slot empty, over an image that passed the check, whatever it held.
    pub fn new(shape: Shape, image: &'a mut [u8]) -> BlockFile<'a>
        requires { table_refusal shape (size shape) (length image.old) ≡ None }
        ensures sound { SoundFile result }
        ensures means { means (grid_of result) ≡ vacant shape bare }
    {
        image.fill(0);
        BlockFile { shape, image }
    }

    // The image as it is now, for who writes it elsewhere or reads it.
    pub fn image(&self) -> &[u8]
        ensures { result.now ≡ self.now.image.now }
    {
        &self.image[..]
    }
}

impl<'a> BareReading for BlockFile<'a> {
    ghost use Rattle.block_file.specs.File.{grid_of};

    ghost grid = { grid_of };

    ghost sound = { λ f. f.laid.grid };

    fn sizes(&self) -> Shape {
        self.shape
    }

    fn state_of(&self, slot: usize) -> State {
        state_at(self.image, slot)
    }

    fn block_at(&self, slot: usize, node: usize, place: usize) -> Option<&[u8]> {
        let at = start_of(self.shape, slot, node, place);
        block_of(&self.image[at..at + 72])
    }
}

impl<'a> BareStore for BlockFile<'a> {
    ghost use Rattle.block_file.specs.File.{WipedIn};

    ghost wiped = { WipedIn };

    fn begin(&mut self, slot: usize) {
        write_bytes(self.image, 8 * slot, &head_bytes(State::Open));
    }

    fn write(&mut self, slot: usize, node: usize, place: usize, block: &[u8]) {
        let at = start_of(self.shape, slot, node, place);
        let bytes = present_record(slot as u8, node as u8, place as u8, block);
        write_bytes(self.image, at, &bytes);
    }

    fn close(&mut self, slot: usize) {
        write_bytes(self.image, 8 * slot, &head_bytes(State::Sealed));
    }

    fn wipe(&mut self, slot: usize, node: usize) {
        let from = start_of(self.shape, slot, node, 0);
        wipe_bytes(self.image, from, from + 72 * self.shape.places);
    }

    fn vacate(&mut self, slot: usize) {
        let from = start_of(self.shape, slot, 0, 0);
        let bytes = 72 * (self.shape.nodes * self.shape.places);
        empty_bytes(self.image, slot, from, from + bytes);
    }
}

// Handed on call by call: no impl for every bare store at once is allowed, since the trait is of a lower crate.
impl<'a> Reading for BlockFile<'a> {
    ghost use Rattle.block_file.specs.File.{grid_of, SoundFile};

    ghost sound = { SoundFile };

    ghost meaning = { λ f. means (grid_of f) };

    ghost lawful = { λ f k. lawful (grid_of f) k.grid };

    fn shape(&self) -> Shape {
        self.sizes()
    }

    fn state(&self, slot: usize) -> Result<State, Refusal> {
        grid::state(self, slot)
    }

    fn get(&self, slot: usize, node: usize, place: usize, out: &mut [u8]) -> Result<(), Refusal> {
        grid::get(self, slot, node, place, out)
    }
}

// Handed on call by call: no impl for every bare store at once is allowed, since the trait is of a lower crate.
impl<'a> Store for BlockFile<'a> {
    ghost use Rattle.block_file.specs.File.{grid_of, SoundFile, WipedNode};

    fn open(&mut self, slot: usize) -> Result<(), Refusal>
        ensures sound { SoundFile self.new }
        ensures means { OpenAnswer (means (grid_of self.old)) slot result (means (grid_of self.new)) }
        ensures untouched { OnErr result (self.new.image.now ≡ self.old.image.now) }
    {
        grid::open(self, slot)
    }

    fn put(&mut self, slot: usize, node: usize, place: usize, block: &[u8]) -> Result<(), Refusal>
        ensures sound { SoundFile self.new }
        ensures means { PutAnswer (means (grid_of self.old)) slot node place block.now result (means (grid_of self.new)) }
        ensures untouched { OnErr result (self.new.image.now ≡ self.old.image.now) }
    {
        grid::put(self, slot, node, place, block)
    }

    fn seal(&mut self, slot: usize) -> Result<(), Refusal>
        ensures sound { SoundFile self.new }
        ensures means { SealAnswer (means (grid_of self.old)) slot result (means (grid_of self.new)) }
        ensures untouched { OnErr result (self.new.image.now ≡ self.old.image.now) }
    {
        grid::seal(self, slot)
    }

    fn lose(&mut self, node: usize) -> Result<(), Refusal>
        ensures sound { SoundFile self.new }
        ensures means { LoseAnswer (means (grid_of self.old)) node result (means (grid_of self.new)) }
        ensures untouched { OnErr result (self.new.image.now ≡ self.old.image.now) }
        ensures wiped { OnOk result (WipedNode self.new node) }
    {
        grid::lose(self, node)
    }

    fn clear(&mut self, slot: usize) -> Result<(), Refusal>
        ensures sound { SoundFile self.new }
        ensures means { ClearAnswer (means (grid_of self.old)) slot result (means (grid_of self.new)) }
        ensures untouched { OnErr result (self.new.image.now ≡ self.old.image.now) }
    {
        grid::clear(self, slot)
    }
}
