// Shifts and rotations, at w = 64 - room bits.
ghost use Rattle.std.specs.Prelude.{◌≡◌, ℕ, ◌-◌, ◌^◌, ◌<◌, ◌≤◌, MatchResult};
ghost use Rattle.language.specs.Arithmetic.{within, shl as shl_of, shr as shr_of, rol as rol_of, ror as ror_of};
ghost use Rattle.arithmetic.specs.Results.{result_of};
ghost use Rattle.arithmetic.specs.Rooms.{StandFor};

use super::kinds::Kind;
use answers::Stop;

impl Kind {
    // 41, "shift or rotation by w or more"
    fn below_width(self, k: u64) -> Result<(), Stop>
        ensures { MatchResult result (λ _. k < 64 - self.room) (λ e. (e ≡ Stop.ShiftTooFar) × (64 - self.room ≤ k)) }
    {
        if 64 - self.room <= k {
            return Err(Stop::ShiftTooFar);
        }
        Ok(())
    }

    pub fn shl(self, a: u64, k: u64) -> Result<u64, Stop>
        ensures { result_of result ≡ within (64 - self.room) k (shl_of (64 - self.room) a k) }
    {
        self.below_width(k)?;
        Ok(self.keep(a << k))
    }

    // "`shr` fills with the sign for signed types, else zero"
    pub fn shr(self, a: u64, k: u64) -> Result<u64, Stop>
        requires { a < 2 ^ (64 - self.room) }
        ensures { (t : ℕ) → StandFor self.room self.sign t → result_of result ≡ within (64 - self.room) k (shr_of t a k) }
    {
        self.below_width(k)?;
        if self.negative(a) {
            return Ok(self.flip(self.flip(a) >> k));
        }
        Ok(a >> k)
    }

    // A shift by w - k, which may be 64, is one by w - 1 - k and one by 1.
    pub fn rol(self, a: u64, k: u64) -> Result<u64, Stop>
        requires { a < 2 ^ (64 - self.room) }
        ensures { result_of result ≡ within (64 - self.room) k (rol_of (64 - self.room) a k) }
    {
        self.below_width(k)?;
        let w = 64 - self.room;
        Ok(self.keep(a << k) + ((a >> (w - 1 - k)) >> 1))
    }

    pub fn ror(self, a: u64, k: u64) -> Result<u64, Stop>
        requires { a < 2 ^ (64 - self.room) }
        ensures { result_of result ≡ within (64 - self.room) k (ror_of (64 - self.room) a k) }
    {
        self.below_width(k)?;
        let w = 64 - self.room;
        Ok((a >> k) + self.keep((a << (w - 1 - k)) << 1))
    }
}
