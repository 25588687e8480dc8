// Numbers by meaning as the numbers below 2^w of a type, and back.
ghost use Rattle.std.specs.Prelude.{◌≡◌, ◌^◌, ◌<◌};
ghost use Rattle.language.specs.Instructions.{width as width_of};
ghost use Rattle.language.specs.Arithmetic.{meaning};
ghost use Rattle.decimal.specs.Meanings.{bits_in, bits_from, meant_by};

use crate::words::Decimal;
use instructions::{bits_of, largest, number_in_range, signed};

// A number by its sign and its magnitude.
#[derive(Clone, Copy)]
pub struct Meant {
    pub negative: bool,
    pub magnitude: u64,
}

// A number by meaning as a register of this type holds it, if it lies in the type's range.
pub fn to_bits(kind: u8, negative: bool, magnitude: u64) -> Option<u64>
    ensures { result ≡ bits_in kind negative magnitude }
{
    if number_in_range(kind, negative, magnitude) {
        return Some(bits_of(kind, negative, magnitude));
    }
    None
}

// The number that a word says, as a register of this type holds it: no type's range reaches 2^64.
pub fn bits_from(kind: u8, number: Option<Decimal>) -> Option<u64>
    ensures { result ≡ bits_from kind number }
{
    let number = number?;
    to_bits(kind, number.negative, number.magnitude?)
}

// What a register of this type means: "signed types are read as two's complement".
pub fn of_bits(kind: u8, x: u64) -> Meant
    requires { x < 2 ^ width_of kind }
    ensures { result ≡ meant_by (meaning kind x) }
{
    let most = largest(kind);
    if !signed(kind) {
        return Meant {
            negative: false,
            magnitude: x,
        };
    }
    if x <= most / 2 {
        return Meant {
            negative: false,
            magnitude: x,
        };
    }
    Meant {
        negative: true,
        magnitude: most - x + 1,
    }
}
