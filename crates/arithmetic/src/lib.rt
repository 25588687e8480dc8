// What the instructions compute, on numbers below 2^w, w the width of their type. A type comes as its room, how many of the 64 bits stand
// above its own, and as whether its sign matters.
#![tactic(auto)]

mod kinds;
mod shifts;
mod signs;
mod wrapping;

ghost use Rattle.std.specs.Prelude.{◌≡◌, ℕ, ◌-◌, ◌<◌};
ghost use Rattle.language.specs.Instructions.{width as width_of};
ghost use Rattle.language.specs.Arithmetic.{binary_of, unary_of};
ghost use Rattle.arithmetic.specs.Results.{result_of};
ghost use Rattle.arithmetic.specs.Rooms.{sign_for, Source, Sources};

use answers::Stop;
use instructions::{ops, signed, width};
use kinds::Kind;

// Whether an instruction goes by the sign of its first source's type t, and t is signed.
pub fn sign_for(op: u8, t: u8) -> bool
    ensures { result ≡ sign_for op t }
{
    match op {
        ops::SHR => signed(t),
        ops::ARI_DIV..=ops::ARI_REM => signed(t),
        ops::CMP_GT..=ops::CONV => signed(t),
        _ => false,
    }
}

// How many of the 64 bits stand above those of the type t.
pub fn room(t: u8) -> u64
    ensures { (result ≡ 64 - width_of t) × (result < 64) }
{
    64 - width(t) as u64
}

// An instruction with two sources, by its number; s and sign are the room of the first source's type and whether its sign matters. A comparison's
// "target `uint`, 1 or 0".
pub fn binary(op: u8, s: u64, sign: bool, a: u64, b: u64) -> Result<u64, Stop>
    requires { Sources op s a b }
    ensures { (t : ℕ) → s ≡ 64 - width_of t → sign ≡ sign_for op t → result_of result ≡ binary_of op t a b }
{
    let kind = Kind { room: s, sign };
    // Kept, plainer: an arm an instruction; closures, one for each, would be chosen by the same match.
    match op {
        ops::ARI_ADD => Ok(kind.add(a, b)),
        ops::ARI_SUB => Ok(kind.sub(a, b)),
        ops::ARI_MUL => Ok(kind.mul(a, b)),
        ops::ARI_DIV => kind.div(a, b),
        ops::ARI_REM => kind.rem(a, b),
        ops::BIT_AND => Ok(a & b),
        ops::BIT_OR => Ok(a | b),
        ops::BIT_XOR => Ok(a ^ b),
        ops::SHL => kind.shl(a, b),
        ops::SHR => kind.shr(a, b),
        ops::ROL => kind.rol(a, b),
        ops::ROR => kind.ror(a, b),
        ops::CMP_EQ => Ok(u64::from(a == b)),
        ops::CMP_NEQ => Ok(u64::from(a != b)),
        ops::CMP_GT => Ok(u64::from(kind.less(b, a))),
        ops::CMP_LT => Ok(u64::from(kind.less(a, b))),
        ops::CMP_GTEQ => Ok(u64::from(!kind.less(a, b))),
        ops::CMP_LTEQ => Ok(u64::from(!kind.less(b, a))),
        _ => Ok(0),
    }
}

// An instruction with one source, by its number; s and sign go by the type of the source, r is the room of the target's.
pub fn unary(op: u8, s: u64, r: u64, sign: bool, x: u64) -> u64
    requires { Source s r x }
    ensures { (t u : ℕ) → s ≡ 64 - width_of t → r ≡ 64 - width_of u → sign ≡ sign_for op t → result ≡ unary_of op t u x }
{
    let from = Kind { room: s, sign };
    let to = Kind { room: r, sign };
    // Kept, plainer: as in `binary`.
    match op {
        ops::ARI_NEG => from.neg(x),
        ops::BIT_NEG => from.flip(x),
        ops::CONV => from.conv(to, x),
        ops::COPY => x,
        _ => 0,
    }
}
