// Shows what a checkpoint image holds.
//
//     image N P S FILE     the file, as an image of N nodes, P places and S slots
//     image -              reads such words from standard input, a command to a line
#![tactic(auto)]

mod command;
mod crc;
mod report;

ghost use Rattle.std.specs.Prelude.{◌≡◌, Some, None, Err, OnOk};
ghost use Rattle.refusal.specs.declared.kind.Refusal.{Refusal};
ghost use Rattle.image_reader.specs.Damage.{image_refusal};
ghost use Rattle.console.specs.declared.mistake.Mistake.TheVariants.{BadFile};

use command::{Command, Mistake};
use console::Program;
use image_reader::reader::ImageReader;
use refusal::kind::Refusal;
use std::{fs, io};
use store::kinds::Shape;

// Prints what the bytes hold as an image of that shape, which is checked first.
fn look<'a>(rt: &HostRuntime, shape: Shape, path: &'a str, image: &[u8]) -> Result<(), Mistake<'a>>
    ensures shown { OnOk result (image_refusal shape image.now ≡ None) }
    ensures refused { (f : Refusal) → image_refusal shape image.now ≡ Some f → result ≡ Err (BadFile path.entry f) }
{
    ImageReader::check(shape, image).map_err(|fault| Mistake::BadFile { path, fault })?;
    let reader = ImageReader::new(shape, image);
    report::print(rt, path, &reader)?;
    Ok(())
}

// The program.
struct Image;

impl Program for Image {
    type Fault = Refusal;

    fn obey<'a>(&self, rt: &HostRuntime, words: &[&'a str]) -> Result<(), Mistake<'a>> {
        let Command { shape, path } = command::parse(words)?;
        let file = fs::read(rt, path).map_err(|error| Mistake::CannotRead { path, error })?;
        look(rt, shape, path, file.as_slice())
    }
}

fn main(rt: HostRuntime) -> io::Result<()> {
    console::run(&rt, &Image)
}
