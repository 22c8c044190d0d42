// A code of any of the three kinds.
use crate::cauchy::Cauchy;
use crate::copies::Copies;
use crate::xor_sum::XorSum;

#[derive(Clone, Copy)]
pub enum AnyCode {
    Copies(Copies),
    XorSum(XorSum),
    Cauchy(Cauchy),
}
