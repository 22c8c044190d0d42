// What this program finds wrong with a command, beyond what any program may find.
ghost use Rattle.std.specs.Prelude.{◌≡◌};
ghost use Rattle.console.specs.declared.mistake.Mistake.TheVariants.{Fault as OfFault};
ghost use Rattle.stripe.specs.declared.fault.Fault.TheVariants.{Refused};

use console::mistake;
use refusal::kind::Refusal;
use std::fmt;

#[derive(Clone, Copy)]
pub enum Fault {
    // refused by the code, the level or the store beneath
    Refused(Refusal),
    // what came back is not the file
    OtherBytes,
    // so many lines of vectors, of which not all agree
    Vectors { lines: usize, agree: usize },
}

// What can be wrong with a command.
pub type Mistake<'a> = mistake::Mistake<'a, Fault>;

// The one line.
impl fmt::Display for Fault {
    fn fmt<W: fmt::Write>(&self, f: &mut fmt::Formatter<W>) -> fmt::Result {
        match self {
            Fault::Refused(refusal) => write!(f, "{refusal}"),
            Fault::OtherBytes => write!(f, "NOT the same bytes"),
            Fault::Vectors { lines, agree } => write!(f, "vectors: {lines} lines, {agree} agree"),
        }
    }
}

// So that `?` takes a fault.
impl<'a> From<Fault> for Mistake<'a> {
    ghost from_gives = { λ fault m. m ≡ OfFault fault };

    fn from(fault: Fault) -> Mistake<'a> {
        Mistake::Fault(fault)
    }
}

// So that `?` takes a refusal of a code.
impl From<Refusal> for Fault {
    ghost from_gives = { λ refusal f. f ≡ Refused refusal };

    fn from(refusal: Refusal) -> Fault {
        Fault::Refused(refusal)
    }
}
