// What can be wrong with a command: one line for the reader.
ghost use Rattle.std.specs.Prelude.{◌≡◌};
ghost use Rattle.console.specs.declared.mistake.Mistake.TheVariants.{BadNumber as NoNumber, Fault, Memory, CannotPrint};

use refusal::kind::Refusal;
use std::alloc::{AllocError, AllocFailed};
use std::{fmt, io};
use words::BadNumber;

// What any program may find, and the faults that only one does.
#[derive(Clone, Copy)]
pub enum Mistake<'a, F> {
    // a word that names none of the things that are known
    Unknown {
        thing: &'static str,
        word: &'a str,
        known: &'static str,
    },
    // fewer words than the form has, which is given
    MissingWord(&'static str),
    // more words than the form has
    ExtraWord(&'a str),
    // a word that should be a number
    BadNumber(BadNumber<'a>),
    // the file of that name
    CannotRead {
        path: &'a str,
        error: io::Error,
    },
    // the file of that name has a fault
    BadFile {
        path: &'a str,
        fault: F,
    },
    // a fault of the program's own
    Fault(F),
    // no memory was left
    Memory,
    // standard output took no more
    CannotPrint(io::Error),
}

// The one line.
impl<F: fmt::Display> fmt::Display for Mistake<'_, F> {
    fn fmt<W: fmt::Write>(&self, f: &mut fmt::Formatter<W>) -> fmt::Result {
        match self {
            Mistake::Unknown { thing, word, known } => {
                write!(f, "unknown {thing} '{word}': {known}")
            }
            Mistake::MissingWord(form) => write!(f, "missing word: {form}"),
            Mistake::ExtraWord(word) => write!(f, "extra word '{word}'"),
            Mistake::BadNumber(word) => write!(f, "{word}"),
            Mistake::CannotRead { path, error } => write!(f, "cannot read {path}: {error}"),
            Mistake::BadFile { path, fault } => write!(f, "{path}: {fault}"),
            Mistake::Fault(fault) => write!(f, "{fault}"),
            Mistake::Memory => write!(f, "out of memory"),
            Mistake::CannotPrint(error) => write!(f, "cannot print: {error}"),
        }
    }
}

// So that `?` takes a refusal, where it is a fault.
impl<'a, F: From<Refusal>> From<Refusal> for Mistake<'a, F> {
    ghost from_gives = { λ refusal m. (f : F) × F.from_gives refusal f × (m ≡ Fault f) };

    fn from(refusal: Refusal) -> Mistake<'a, F> {
        Mistake::Fault(refusal.into())
    }
}

// So that `?` takes a word that is no number.
impl<'a, F> From<BadNumber<'a>> for Mistake<'a, F> {
    ghost from_gives = { λ bad m. m ≡ NoNumber bad };

    fn from(bad: BadNumber<'a>) -> Mistake<'a, F> {
        Mistake::BadNumber(bad)
    }
}

// So that `?` takes a want of memory.
impl<'a, F> From<AllocError> for Mistake<'a, F> {
    ghost from_gives = { λ _ m. m ≡ Memory };

    fn from(_e: AllocError) -> Mistake<'a, F> {
        Mistake::Memory
    }
}

// The same from a push.
impl<'a, F, T: Drop> From<AllocFailed<T>> for Mistake<'a, F> {
    ghost from_gives = { λ _ m. m ≡ Memory };

    fn from(_e: AllocFailed<T>) -> Mistake<'a, F> {
        Mistake::Memory
    }
}

// So that `?` takes a failed print.
impl<'a, F> From<io::Error> for Mistake<'a, F> {
    ghost from_gives = { λ error m. m ≡ CannotPrint error };

    fn from(error: io::Error) -> Mistake<'a, F> {
        Mistake::CannotPrint(error)
    }
}
