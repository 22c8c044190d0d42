// A code of any kind as a code: what it means and does is what the code in it means and does.
ghost use Rattle.std.specs.Prelude.{◌≡◌};
ghost use Rattle.codes.specs.Kinds.{any_recipe, any_coding};
ghost use Rattle.codes.specs.KindLaws.{any_limits, any_works};
ghost use Rattle.bytewise.proofs.Law.{completes, determines};
ghost use Rattle.codes.specs.declared.any.AnyCode.TheVariants.{Copies as OfCopies, XorSum as OfXorSum, Cauchy as OfCauchy};

use crate::any::AnyCode;
use crate::cauchy::Cauchy;
use crate::copies::Copies;
use crate::xor_sum::XorSum;
use code::{Code, Sizes};
use refusal::kind::Refusal;

impl From<Copies> for AnyCode {
    ghost from_gives = { λ c r. r ≡ OfCopies c };

    fn from(code: Copies) -> AnyCode {
        AnyCode::Copies(code)
    }
}

impl From<XorSum> for AnyCode {
    ghost from_gives = { λ c r. r ≡ OfXorSum c };

    fn from(code: XorSum) -> AnyCode {
        AnyCode::XorSum(code)
    }
}

impl From<Cauchy> for AnyCode {
    ghost from_gives = { λ c r. r ≡ OfCauchy c };

    fn from(code: Cauchy) -> AnyCode {
        AnyCode::Cauchy(code)
    }
}

// An enum and matches, since the kind is known only at run time and a `dyn` value may not be handed out.
impl Code for AnyCode {
    ghost coding = { any_coding };

    ghost limits = { any_limits };

    ghost determines = { λ s. determines (any_recipe s) (any_works s).recovers };

    ghost completes = { λ s. completes (any_recipe s) (any_works s).recovers };

    fn sizes(&self) -> Sizes {
        match self {
            AnyCode::Copies(code) => code.sizes(),
            AnyCode::XorSum(code) => code.sizes(),
            AnyCode::Cauchy(code) => code.sizes(),
        }
    }

    fn check(&self, e: usize, given: &[u8], out: &mut [u8]) -> Result<(), Refusal> {
        match self {
            AnyCode::Copies(code) => code.check(e, given, out),
            AnyCode::XorSum(code) => code.check(e, given, out),
            AnyCode::Cauchy(code) => code.check(e, given, out),
        }
    }

    fn rebuild(
        &self,
        number: usize,
        marks: &[u8],
        blocks: &[u8],
        out: &mut [u8],
    ) -> Result<(), Refusal> {
        match self {
            AnyCode::Copies(code) => code.rebuild(number, marks, blocks, out),
            AnyCode::XorSum(code) => code.rebuild(number, marks, blocks, out),
            AnyCode::Cauchy(code) => code.rebuild(number, marks, blocks, out),
        }
    }
}
