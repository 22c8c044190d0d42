// A stranger's image, checked and then read.
#![tactic(auto)]

ghost use Rattle.std.specs.Prelude.{◌≡◌, ◌<◌, length, IfOk, IfSome, MatchOption, Some, None, Ok, OnOk};
ghost use Rattle.refusal.specs.Answer.{outcome};
ghost use Rattle.block_file.specs.File.{shape_of as file_shape, grid_of as file_grid};
ghost use Rattle.image_format.specs.Image.{SoundImage};
ghost use Rattle.image_reader.specs.Example.{ImageExample};
ghost use Rattle.image_reader.specs.Reader.{shape_of, image_of, grid_of, SoundReader, Hands, block_part};
ghost use Rattle.grid.specs.Grid.{means};
ghost use Rattle.grid.proofs.Grid.{lawful};
ghost use Rattle.image_reader.specs.Damage.{image_refusal};

mod cell;
pub mod laid;
pub mod reader;

use block_file::BlockFile;
use grid::BareReading;
use laid::Laid;
use reader::ImageReader;
use refusal::kind::Refusal;
use store::Reading;
use store::kinds::{Shape, State};

impl<'a> ImageReader<'a> {
    // Whether the bytes are an image of that shape: its sizes first, then the lowest head or record that is damaged.
    pub fn check(shape: Shape, image: &[u8]) -> Result<(), Refusal>
        ensures answer { result ≡ outcome (image_refusal shape image.now) tt }
        ensures passed { OnOk result (SoundImage shape image.now) }
        ensures passes { SoundImage shape image.now → result ≡ Ok tt }
    {
        BlockFile::check(shape, image)?;
        let laid = Laid {
            shape,
            bytes: image,
        };
        laid.check()
    }

    // A reader of an image that passed the check. The worked image stands here too.
    pub fn new(shape: Shape, image: &'a [u8]) -> ImageReader<'a>
        requires passed { image_refusal shape image.now ≡ None }
        requires sound { SoundImage shape image.now }
        ensures sound { SoundReader result }
        ensures shape { shape_of result ≡ shape }
        ensures image { image_of result ≡ image.now }
        ensures example { ImageExample }
    {
        let bytes = image;
        ImageReader {
            laid: Laid { shape, bytes },
        }
    }

    // A reader of a block file's image as it is now. The image passes the check, and the reader shows what the block file wrote.
    pub fn of(file: &'a BlockFile) -> ImageReader<'a>
        ensures passes { image_refusal (file_shape file.now) file.now.image.now ≡ None }
        ensures sound { SoundReader result }
        ensures image { image_of result ≡ file.now.image.now }
        ensures shows { means (grid_of result) ≡ means (file_grid file.now) }
    {
        ImageReader::new(file.shape(), file.image())
    }

    // The block of a cell, or nothing where it is absent.
    fn find(&self, slot: usize, node: usize, place: usize) -> Option<&'a [u8]>
        requires { (slot < (shape_of self.now).slots) × (node < (shape_of self.now).nodes) × (place < (shape_of self.now).places) }
        ensures cell { MatchOption result ((grid_of self.now).cell slot node place ≡ None) (λ b. (grid_of self.now).cell slot node place ≡ Some b.now) }
        ensures size { IfSome result (λ b. length b.now ≡ 64) }
        ensures part { IfSome result (λ b. b.now ≡ block_part (shape_of self.now) (image_of self.now) slot node place) }
    {
        self.laid.cell(slot, node, place).block()
    }

    // The block of a cell, as that part of the image.
    pub fn block(&self, slot: usize, node: usize, place: usize) -> Result<&'a [u8], Refusal>
        ensures answer { Hands (means (grid_of self.now)) slot node place result }
        ensures size { IfOk result (λ b. length b.now ≡ 64) }
        ensures part { IfOk result (λ b. b.now ≡ block_part (shape_of self.now) (image_of self.now) slot node place) }
    {
        grid::within(self, slot, node, place)?;
        let state = self.state_of(slot);
        let block = self.find(slot, node, place);
        grid::present(state, block, node, place)
    }
}

impl<'a> BareReading for ImageReader<'a> {
    ghost grid = { grid_of };

    ghost sound = { λ r. r.sound.grid };

    fn sizes(&self) -> Shape {
        self.laid.shape
    }

    fn state_of(&self, slot: usize) -> State {
        self.laid.state(slot)
    }

    fn block_at(&self, slot: usize, node: usize, place: usize) -> Option<&[u8]> {
        self.find(slot, node, place)
    }
}

// Handed on call by call: no impl for every bare store at once is allowed, since the trait is of a lower crate.
impl<'a> Reading for ImageReader<'a> {
    ghost sound = { SoundReader };

    ghost meaning = { λ r. means (grid_of r) };

    ghost lawful = { λ r k. lawful (grid_of r) k.grid };

    fn shape(&self) -> Shape {
        self.sizes()
    }

    fn state(&self, slot: usize) -> Result<State, Refusal> {
        grid::state(self, slot)
    }

    fn get(&self, slot: usize, node: usize, place: usize, out: &mut [u8]) -> Result<(), Refusal> {
        grid::get(self, slot, node, place, out)
    }
}

#[cfg(test)]
mod tests {
    use super::*;
    use std::process::Abort;

    const SHAPE: Shape = Shape {
        nodes: 2,
        places: 1,
        slots: 2,
    };

    // What the check says of the worked image with another byte: its block may change, and so may a state where the slot's
    // cells fit the new one.
    fn said(at: usize, byte: u8) -> Result<(), Refusal> {
        match (at, byte) {
            (0, 1) | (8, 1..=2) | (24..=87, _) => Ok(()),
            // a present cell in an empty slot
            (0, 0) => Err(Refusal::Damaged { byte: 16 }),
            (0..=15, _) => Err(Refusal::Damaged { byte: at / 8 * 8 }),
            _ => Err(Refusal::Damaged {
                byte: 16 + (at - 16) / 72 * 72,
            }),
        }
    }

    // The worked image.
    fn worked() -> [u8; 304] {
        let mut image = [0; 304];
        image[0] = 2;
        image[16] = 1;
        image[24..88].fill(7);
        image
    }

    // Checks the worked image with every other byte at a place.
    fn other_bytes(rt: &impl Abort, at: usize)
        requires { at < 304 }
    {
        for more in 0..255u8 {
            let mut image = worked();
            let byte = image[at].wrapping_add(more).wrapping_add(1);
            image[at] = byte;
            assert_eq!(rt; ImageReader::check(SHAPE, &image), said(at, byte));
        }
    }

    #[test]
    fn every_other_byte(rt: HostRuntime) {
        assert_eq!(rt; ImageReader::check(SHAPE, &worked()), Ok(()));
        for at in 0..304 {
            other_bytes(&rt, at);
        }
    }
}
