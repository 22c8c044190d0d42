// The worked image, laid by the calls that make it, with the worked values of all layers.
#![tactic(auto)]

ghost use Rattle.std.specs.Prelude.{◌≡◌, length, Ok, OnErr, OnOk};
ghost use Rattle.refusal.specs.Answer.{outcome};
ghost use Rattle.store.specs.Meaning.{vacant, bare};
ghost use Rattle.grid.specs.Grid.{means};
ghost use Rattle.grid.specs.Index.{table_refusal};
ghost use Rattle.image_format.specs.Image.{size};
ghost use Rattle.block_file.specs.File.{grid_of};
ghost use Rattle.image_reader.specs.Example.{small, hurt, expected};
ghost use Rattle.worked.specs.Worked.{WorkedValues};

use block_file::BlockFile;
use refusal::kind::Refusal;
use store::Store;
use store::kinds::Shape;

// Makes the calls of the worked image on an empty block file of its shape.
fn fill(file: &mut BlockFile) -> Result<(), Refusal>
    requires { means (grid_of file.old) ≡ vacant small bare }
    ensures answer { result ≡ Ok tt }
    ensures means { means (grid_of file.new) ≡ hurt }
{
    file.open(0)?;
    file.put(0, 0, 0, &[7; 64])?;
    file.put(0, 1, 0, &[9; 64])?;
    file.seal(0)?;
    file.lose(1)
}

// Lays the worked image into 304 bytes: makes it by calls on a block file, over bytes of its own, and copies it. All worked values stand here.
pub fn lay_worked_image(image: &mut [u8]) -> Result<(), Refusal>
    ensures answer { result ≡ outcome (table_refusal small (size small) (length image.old)) tt }
    ensures laid { OnOk result (image.new ≡ expected) }
    ensures untouched { OnErr result (image.new ≡ image.old) }
    ensures worked { WorkedValues }
{
    let shape = Shape {
        nodes: 2,
        places: 1,
        slots: 2,
    };
    BlockFile::check(shape, image)?;
    let mut bytes = [0; 304];
    let mut file = BlockFile::new(shape, &mut bytes);
    fill(&mut file)?;
    image.copy_from_slice(file.image());
    Ok(())
}
