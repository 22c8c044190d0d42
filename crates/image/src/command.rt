// Commands: what the words of a line ask for.
ghost use Rattle.std.specs.Prelude.{◌≡◌, IfOk, decimal};

use console::mistake;
use refusal::kind::Refusal;
use store::kinds::Shape;
use words::number;

// What can be wrong with a command; the fault of a file is why it is no image of the shape.
pub type Mistake<'a> = mistake::Mistake<'a, Refusal>;

// The form of a command, for who left out a word.
const FORM: &str = "N P S FILE";

// A file to look into, as an image of that shape.
#[derive(Clone, Copy)]
pub struct Command<'a> {
    pub shape: Shape,
    pub path: &'a str,
}

// The shape that three words write: nodes, places and slots.
fn shape_of<'a>(nodes: &'a str, places: &'a str, slots: &'a str) -> Result<Shape, Mistake<'a>>
    ensures { IfOk result (λ h. (nodes.now ≡ decimal h.nodes) × (places.now ≡ decimal h.places) × (slots.now ≡ decimal h.slots)) }
{
    Ok(Shape {
        nodes: number(nodes)?,
        places: number(places)?,
        slots: number(slots)?,
    })
}

// The command that the words make. No contract: that the numbers are those of the words is `shape_of`'s; which word is which is
// only tested.
pub fn parse<'a>(words: &[&'a str]) -> Result<Command<'a>, Mistake<'a>> {
    match words {
        [nodes, places, slots, path] => {
            let shape = shape_of(*nodes, *places, *slots)?;
            Ok(Command { shape, path: *path })
        }
        [_, _, _, _, extra, ..] => Err(Mistake::ExtraWord(*extra)),
        _ => Err(Mistake::MissingWord(FORM)),
    }
}
