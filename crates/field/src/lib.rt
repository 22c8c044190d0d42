// The field of 256 elements: bytes, with XOR for the sum, and the product by tables of powers and logarithms.
#![tactic(auto)]

ghost use Rattle.std.specs.Prelude.{◌≡◌, ◌<◌, if◌then◌else◌, Some, None, nat_eq};
ghost use Rattle.field.specs.Field.{mul, power_of, reciprocal};
ghost use Rattle.field.specs.Laws.{FieldLaws};

mod tables;

use tables::{LOGS, POWERS};

// The power of 2 with the exponent i.
fn power(i: usize) -> u8
    requires { i < 255 }
    ensures { result ≡ power_of i }
{
    POWERS[i]
}

// The exponent of the power of 2 that a is.
fn log(a: u8) -> usize
    requires { 0 < a }
    ensures below { result < 255 }
    ensures inverts { power_of result ≡ a }
{
    LOGS[a as usize] as usize
}

// The product of two bytes.
pub fn product(a: u8, b: u8) -> u8
    ensures { result ≡ mul a b }
{
    if a == 0 || b == 0 {
        return 0;
    }
    power((log(a) + log(b)) % 255)
}

// The byte whose product with a is 1; 0 has none. That the bytes are a field stands here too.
pub fn inverse(a: u8) -> Option<u8>
    ensures value { result ≡ (if nat_eq a 0 then None else Some (reciprocal a)) }
    ensures laws { FieldLaws }
{
    if a == 0 {
        return None;
    }
    Some(power((255 - log(a)) % 255))
}
