// The XOR sum as a code.
ghost use Rattle.std.specs.Prelude.{◌≡◌};
ghost use Rattle.code.specs.Making.{admitted, Makes};
ghost use Rattle.bytewise.specs.Words.{coded};
ghost use Rattle.std.proofs.Common.{lit≤};
ghost use Rattle.bytewise.proofs.Law.{completes, determines};
ghost use Rattle.recipes.proofs.Recipes.{sum_works, limited};
ghost use Rattle.recipes.specs.Recipes.{sum_recipe};

use crate::xor_sum::XorSum;
use bytewise::Bytewise;
use code::{Code, Sizes};
use refusal::kind::Refusal;

impl XorSum {
    // k data blocks and their XOR.
    pub fn new(k: usize) -> Result<XorSum, Refusal>
        ensures { Makes (admitted k 1) (λ c. c.k ≡ k) result }
    {
        let sizes = Sizes { k, m: 1 };
        if !sizes.is_admitted() {
            return Err(Refusal::Sizes);
        }
        Ok(XorSum { k })
    }
}

impl Bytewise for XorSum {
    ghost recipe = { λ s. sum_recipe s.k };

    ghost limits = { λ s. limited (sum_recipe s.k) s.limits (lit≤ tt, lit≤ tt) };

    ghost works = { λ s. sum_works s.k };

    fn data(&self) -> usize {
        self.k
    }

    fn checks(&self) -> usize {
        1
    }

    fn coefficient(&self, e: usize, d: usize) -> u8 {
        1
    }

    fn weight(&self, chosen: &[bool], wanted: usize, i: usize) -> u8 {
        if chosen[wanted] && wanted != i { 0 } else { 1 }
    }
}

// Handed on call by call, as for each of the three codes: no impl for all byte-wise codes at once is allowed, since the trait
// is of a lower crate, which knows no bytes.
impl Code for XorSum {
    ghost coding = { λ s. coded (⟦<XorSum as Bytewise>⟧.recipe s) };

    ghost limits = { ⟦<XorSum as Bytewise>⟧.limits };

    ghost determines = { λ s. determines (⟦<XorSum as Bytewise>⟧.recipe s) (⟦<XorSum as Bytewise>⟧.works s).recovers };

    ghost completes = { λ s. completes (⟦<XorSum as Bytewise>⟧.recipe s) (⟦<XorSum as Bytewise>⟧.works s).recovers };

    fn sizes(&self) -> Sizes {
        bytewise::sizes(self)
    }

    fn check(&self, e: usize, given: &[u8], out: &mut [u8]) -> Result<(), Refusal> {
        bytewise::check(self, e, given, out)
    }

    fn rebuild(
        &self,
        number: usize,
        marks: &[u8],
        blocks: &[u8],
        out: &mut [u8],
    ) -> Result<(), Refusal> {
        bytewise::rebuild(self, number, marks, blocks, out)
    }
}
