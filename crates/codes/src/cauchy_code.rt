// The Cauchy code.
ghost use Rattle.std.specs.Prelude.{◌≡◌, ◌+◌, ◌<◌, ◌≤◌, false, length, slice_index_or};
ghost use Rattle.recovery.specs.Rules.{every};
ghost use Rattle.recovery.specs.Weights.{point, gaps};
ghost use Rattle.code.specs.Making.{admitted, Makes};
ghost use Rattle.bytewise.specs.Words.{coded};
ghost use Rattle.codes.specs.Examples.{FieldAndCauchyExamples};
ghost use Rattle.bytewise.proofs.Law.{completes, determines};
ghost use Rattle.recipes.proofs.Recipes.{cauchy_works, limited};
ghost use Rattle.recipes.specs.Recipes.{cauchy_recipe};

use crate::cauchy::Cauchy;
use bytewise::Bytewise;
use code::{Code, Sizes};
use field::{inverse, product};
use refusal::kind::Refusal;

// Every data block, as chosen blocks: a fixed buffer of the most there can be, since a code allocates nothing.
const EVERY: [bool; 12] = [true; 12];

impl Cauchy {
    // k data blocks and m checks. The worked values of field and code stand here too.
    #[tactic(auto, using(crate::proofs::Examples::examples))]
    pub fn new(k: usize, m: usize) -> Result<Cauchy, Refusal>
        ensures makes { Makes (admitted k m) (λ c. (c.k ≡ k) × (c.m ≡ m)) result }
        ensures examples { FieldAndCauchyExamples }
    {
        let sizes = Sizes { k, m };
        if !sizes.is_admitted() {
            return Err(Refusal::Sizes);
        }
        Ok(Cauchy { k, m })
    }

    // The point of a block: 16 + d for data d, and e for check e.
    fn point(&self, c: usize) -> u8
        requires { c < self.now.k + self.now.m }
        ensures { result ≡ point self.now.k c }
    {
        if c < self.k {
            16 + c as u8
        } else {
            (c - self.k) as u8
        }
    }

    // The product of the differences between the point of block x and those of the chosen blocks, without block i.
    fn gaps(&self, chosen: &[bool], x: usize, i: usize) -> u8
        requires { (length chosen.now ≤ self.now.k + self.now.m) × (x < self.now.k + self.now.m) }
        ensures { result ≡ gaps self.now.k (length chosen.now) (λ j. slice_index_or chosen.now j false) x i }
    {
        let at = self.point(x);
        let mut all = 1;
        for (j, is_chosen) in chosen.iter().enumerate() {
            if *is_chosen && j != i {
                all = product(all, at ^ self.point(j));
            }
        }
        all
    }

    // The same for all the data, without block x itself.
    fn scale(&self, x: usize) -> u8
        requires { x < self.now.k + self.now.m }
        ensures { result ≡ gaps self.now.k self.now.k every x x }
    {
        self.gaps(&EVERY[..self.k], x, x)
    }
}

impl Bytewise for Cauchy {
    ghost recipe = { λ s. cauchy_recipe s.k s.m };

    ghost limits = { λ s. limited (cauchy_recipe s.k s.m) s.few s.fewer };

    ghost works = { λ s. cauchy_works s.k s.m s.few.1 s.fewer.1 };

    fn data(&self) -> usize {
        self.k
    }

    fn checks(&self) -> usize {
        self.m
    }

    #[tactic(auto, using(field::proofs::Inverses::inverse_or_zero))]
    fn coefficient(&self, e: usize, d: usize) -> u8 {
        inverse(e as u8 ^ (16 + d as u8)).unwrap_or(0)
    }

    fn weight(&self, chosen: &[bool], wanted: usize, i: usize) -> u8 {
        let over = product(self.scale(i), self.gaps(chosen, wanted, i));
        let under = product(self.scale(wanted), self.gaps(chosen, i, i));
        product(over, inverse(under).unwrap_or(0))
    }
}

// Handed on call by call, as for each of the three codes: no impl for all byte-wise codes at once is allowed, since the trait
// is of a lower crate, which knows no bytes.
impl Code for Cauchy {
    ghost coding = { λ s. coded (⟦<Cauchy as Bytewise>⟧.recipe s) };

    ghost limits = { ⟦<Cauchy as Bytewise>⟧.limits };

    ghost determines = { λ s. determines (⟦<Cauchy as Bytewise>⟧.recipe s) (⟦<Cauchy as Bytewise>⟧.works s).recovers };

    ghost completes = { λ s. completes (⟦<Cauchy as Bytewise>⟧.recipe s) (⟦<Cauchy as Bytewise>⟧.works s).recovers };

    fn sizes(&self) -> Sizes {
        bytewise::sizes(self)
    }

    fn check(&self, e: usize, given: &[u8], out: &mut [u8]) -> Result<(), Refusal> {
        bytewise::check(self, e, given, out)
    }

    fn rebuild(
        &self,
        number: usize,
        marks: &[u8],
        blocks: &[u8],
        out: &mut [u8],
    ) -> Result<(), Refusal> {
        bytewise::rebuild(self, number, marks, blocks, out)
    }
}
