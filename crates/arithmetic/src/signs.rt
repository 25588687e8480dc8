// What goes by meaning: signed types are read as two's complement. Shifted up by its room, a number has its sign at the highest of the 64
// bits.
ghost use Rattle.std.specs.Prelude.{◌≡◌, ℕ, ◌-◌, ◌*◌, ◌^◌, ◌<◌, if◌then◌else◌, int_lt, unsigned_abs};
ghost use Rattle.language.specs.Arithmetic.{meaning, wrap, neg as neg_of, overflows as overflows_of, div as div_of, rem as rem_of};
ghost use Rattle.arithmetic.specs.Results.{result_of, is_negative, rank_of};
ghost use Rattle.arithmetic.specs.Rooms.{StandFor, reading};

use super::kinds::Kind;
use answers::Stop;

// 2^63, the highest of 64 bits.
const HIGHEST: u64 = 0x8000_0000_0000_0000;

impl Kind {
    // Whether a number means a negative one.
    pub fn negative(self, x: u64) -> bool
        requires { x < 2 ^ (64 - self.room) }
        ensures { result ≡ is_negative (reading self.room self.sign x) }
    {
        self.sign && HIGHEST <= x << self.room
    }

    // The meaning without its sign.
    fn magnitude(self, x: u64) -> u64
        requires { x < 2 ^ (64 - self.room) }
        ensures { result ≡ unsigned_abs (reading self.room self.sign x) }
    {
        if self.negative(x) { self.neg(x) } else { x }
    }

    // A magnitude, negated if it is to be.
    fn with_sign(self, minus: bool, m: u64) -> u64
        requires { m < 2 ^ (64 - self.room) }
        ensures { result ≡ (if minus then neg_of (64 - self.room) m else m) }
    {
        if minus { self.neg(m) } else { m }
    }

    // 42, "least signed number `ari.div` -1"
    fn overflows(self, a: u64, b: u64) -> bool
        requires { a < 2 ^ (64 - self.room) }
        ensures { (t : ℕ) → StandFor self.room self.sign t → result ≡ overflows_of t a b }
    {
        self.sign && a << self.room == HIGHEST && b == self.ones()
    }

    // "Division truncates toward zero"
    pub fn div(self, a: u64, b: u64) -> Result<u64, Stop>
        requires { (a < 2 ^ (64 - self.room)) × (b < 2 ^ (64 - self.room)) }
        ensures { (t : ℕ) → StandFor self.room self.sign t → result_of result ≡ div_of t a b }
    {
        if b == 0 {
            return Err(Stop::ZeroDivisor);
        }
        if !self.sign {
            return Ok(a / b);
        }
        if self.overflows(a, b) {
            return Err(Stop::QuotientOverflows);
        }
        let q = self.magnitude(a) / self.magnitude(b);
        Ok(self.with_sign(self.negative(a) != self.negative(b), q))
    }

    // "the remainder has the dividend's sign"
    // Kept, plainer: it shares with `div` two tests of a line each; a function for both would take the two operations and, for the first alone, the stop.
    pub fn rem(self, a: u64, b: u64) -> Result<u64, Stop>
        requires { (a < 2 ^ (64 - self.room)) × (b < 2 ^ (64 - self.room)) }
        ensures { (t : ℕ) → StandFor self.room self.sign t → result_of result ≡ rem_of t a b }
    {
        if b == 0 {
            return Err(Stop::ZeroDivisor);
        }
        if !self.sign {
            return Ok(a % b);
        }
        let m = self.magnitude(a) % self.magnitude(b);
        Ok(self.with_sign(self.negative(a), m))
    }

    // Where a signed number stands among those of its width, 2^room for each: the upper half comes first.
    fn rank(self, x: u64) -> u64
        requires { x < 2 ^ (64 - self.room) }
        ensures { result ≡ rank_of (64 - self.room) x * 2 ^ self.room }
    {
        (x << self.room).wrapping_add(HIGHEST)
    }

    // a is less than b, "compared by meaning".
    pub fn less(self, a: u64, b: u64) -> bool
        requires { (a < 2 ^ (64 - self.room)) × (b < 2 ^ (64 - self.room)) }
        ensures { (t : ℕ) → StandFor self.room self.sign t → result ≡ int_lt (meaning t a) (meaning t b) }
    {
        if self.sign {
            self.rank(a) < self.rank(b)
        } else {
            a < b
        }
    }

    // "`conv`: any to any; the meaning of the source modulo 2^w of the target"
    pub fn conv(self, to: Kind, x: u64) -> u64
        requires { x < 2 ^ (64 - self.room) }
        ensures { (t : ℕ) → StandFor self.room self.sign t → result ≡ wrap (64 - to.room) (meaning t x) }
    {
        if self.negative(x) {
            to.flip(to.keep(self.flip(x)))
        } else {
            to.keep(x)
        }
    }
}
