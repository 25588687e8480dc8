// Numbers modulo 2^w, w = 64 - room: what wraps, and what flips every bit.
ghost use Rattle.std.specs.Prelude.{◌≡◌, ◌-◌, ◌*◌, ◌%◌, ◌^◌, ◌<◌};
ghost use Rattle.language.specs.Arithmetic.{add as add_of, sub as sub_of, mul as mul_of, neg as neg_of, flip as flip_of};

use super::kinds::Kind;

impl Kind {
    // x modulo 2^w: two shifts drop the bits from w on.
    pub fn keep(self, x: u64) -> u64
        ensures { result ≡ x % 2 ^ (64 - self.room) }
    {
        (x << self.room) >> self.room
    }

    // The greatest number of w bits.
    pub fn ones(self) -> u64
        ensures { result ≡ 2 ^ (64 - self.room) - 1 }
    {
        u64::MAX >> self.room
    }

    // "`bit.neg` flips every bit"
    pub fn flip(self, a: u64) -> u64
        requires { a < 2 ^ (64 - self.room) }
        ensures { result ≡ flip_of (64 - self.room) a }
    {
        self.ones() - a
    }

    // "Add, subtract, multiply and negate wrap modulo 2^w."
    pub fn add(self, a: u64, b: u64) -> u64
        ensures { result ≡ add_of (64 - self.room) a b }
    {
        self.keep(a.wrapping_add(b))
    }

    pub fn sub(self, a: u64, b: u64) -> u64
        requires { b < 2 ^ (64 - self.room) }
        ensures { result ≡ sub_of (64 - self.room) a b }
    {
        self.keep(a.wrapping_sub(b))
    }

    pub fn neg(self, a: u64) -> u64
        requires { a < 2 ^ (64 - self.room) }
        ensures { result ≡ neg_of (64 - self.room) a }
    {
        self.keep(0u64.wrapping_sub(a))
    }

    pub fn mul(self, a: u64, b: u64) -> u64
        ensures { result ≡ mul_of (64 - self.room) a b }
    {
        self.keep(product(a, b))
    }
}

// The product modulo 2^64, from halves of 32 bits; that of the two high halves is a multiple of 2^64.
fn product(a: u64, b: u64) -> u64
    ensures { result ≡ (a * b) % 2 ^ 64 }
{
    let a0 = a % 0x1_0000_0000;
    let a1 = a >> 32;
    let b0 = b % 0x1_0000_0000;
    let b1 = b >> 32;
    let middle = (a1 * b0).wrapping_add(a0 * b1);
    (middle << 32).wrapping_add(a0 * b0)
}
