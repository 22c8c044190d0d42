// The three codes of the store: copies, the XOR sum, and Cauchy Reed-Solomon.
#![tactic(auto)]

pub mod any;
mod any_code;
pub mod cauchy;
mod cauchy_code;
pub mod copies;
mod copies_code;
pub mod xor_sum;
mod xor_sum_code;
