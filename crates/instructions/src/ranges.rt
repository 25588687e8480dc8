// The range of a type's numbers, and a number in range as a register of the type holds it.
ghost use Rattle.std.specs.Prelude.{◌≡◌, ◌+◌, ◌^◌, T};
ghost use Rattle.language.specs.Instructions.{width as width_of};
ghost use Rattle.language.specs.Reading.{number_in_range, bits_of};

use crate::{signed, width};

// The largest number of a type's width w: 2^w - 1.
pub fn largest(kind: u8) -> u64
    ensures { result + 1 ≡ 2 ^ width_of kind }
{
    let w = width(kind);
    match w {
        8 => 255,
        16 => 65535,
        32 => 4294967295,
        _ => 18446744073709551615,
    }
}

// A number with its sign lies in the range of a type.
pub fn number_in_range(kind: u8, negative: bool, magnitude: u64) -> bool
    ensures { result ≡ number_in_range kind negative magnitude }
{
    let most = largest(kind);
    if signed(kind) {
        if negative {
            return magnitude <= most / 2 + 1;
        }
        return magnitude <= most / 2;
    }
    if negative {
        return magnitude == 0;
    }
    magnitude <= most
}

// A number in range modulo 2^w: what a register holds.
pub fn bits_of(kind: u8, negative: bool, magnitude: u64) -> u64
    requires { T (number_in_range kind negative magnitude) }
    ensures { result ≡ bits_of kind negative magnitude }
{
    if !negative {
        return magnitude;
    }
    if magnitude == 0 {
        return 0;
    }
    largest(kind) - (magnitude - 1)
}
