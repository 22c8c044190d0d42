// Copies as a code.
ghost use Rattle.std.specs.Prelude.{◌≡◌};
ghost use Rattle.code.specs.Making.{admitted, Makes};
ghost use Rattle.bytewise.specs.Words.{coded};
ghost use Rattle.std.proofs.Common.{lit≤};
ghost use Rattle.bytewise.proofs.Law.{completes, determines};
ghost use Rattle.recipes.proofs.Recipes.{copy_works, limited};
ghost use Rattle.recipes.specs.Recipes.{copy_recipe};

use crate::copies::Copies;
use bytewise::Bytewise;
use code::{Code, Sizes};
use refusal::kind::Refusal;

impl Copies {
    // One data block and m copies of it.
    pub fn new(m: usize) -> Result<Copies, Refusal>
        ensures { Makes (admitted 1 m) (λ c. c.m ≡ m) result }
    {
        let sizes = Sizes { k: 1, m };
        if !sizes.is_admitted() {
            return Err(Refusal::Sizes);
        }
        Ok(Copies { m })
    }
}

impl Bytewise for Copies {
    ghost recipe = { λ s. copy_recipe s.m };

    ghost limits = { λ s. limited (copy_recipe s.m) (lit≤ tt, lit≤ tt) s.limits };

    ghost works = { λ s. copy_works s.m };

    fn data(&self) -> usize {
        1
    }

    fn checks(&self) -> usize {
        self.m
    }

    fn coefficient(&self, e: usize, d: usize) -> u8 {
        1
    }

    fn weight(&self, chosen: &[bool], wanted: usize, i: usize) -> u8 {
        1
    }
}

// Handed on call by call, as for each of the three codes: no impl for all byte-wise codes at once is allowed, since the trait
// is of a lower crate, which knows no bytes.
impl Code for Copies {
    ghost coding = { λ s. coded (⟦<Copies as Bytewise>⟧.recipe s) };

    ghost limits = { ⟦<Copies as Bytewise>⟧.limits };

    ghost determines = { λ s. determines (⟦<Copies as Bytewise>⟧.recipe s) (⟦<Copies as Bytewise>⟧.works s).recovers };

    ghost completes = { λ s. completes (⟦<Copies as Bytewise>⟧.recipe s) (⟦<Copies as Bytewise>⟧.works s).recovers };

    fn sizes(&self) -> Sizes {
        bytewise::sizes(self)
    }

    fn check(&self, e: usize, given: &[u8], out: &mut [u8]) -> Result<(), Refusal> {
        bytewise::check(self, e, given, out)
    }

    fn rebuild(
        &self,
        number: usize,
        marks: &[u8],
        blocks: &[u8],
        out: &mut [u8],
    ) -> Result<(), Refusal> {
        bytewise::rebuild(self, number, marks, blocks, out)
    }
}
