// Why a file could not be carried through a loss.
ghost use Rattle.std.specs.Prelude.{◌≡◌};
ghost use Rattle.striping.specs.declared.failure.Failure.TheVariants.{Refused, Memory};

use refusal::kind::Refusal;
use std::alloc::AllocError;

#[derive(Clone, Copy, PartialEq, Debug)]
pub enum Failure {
    // refused by the store's table
    Refused(Refusal),
    // no memory for the result
    Memory,
}

impl From<Refusal> for Failure {
    ghost from_gives = { λ refusal f. f ≡ Refused refusal };

    fn from(refusal: Refusal) -> Failure {
        Failure::Refused(refusal)
    }
}

impl From<AllocError> for Failure {
    ghost from_gives = { λ _ f. f ≡ Memory };

    fn from(_e: AllocError) -> Failure {
        Failure::Memory
    }
}
