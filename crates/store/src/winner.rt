// Which of two records wins.
ghost use Rattle.std.specs.Prelude.{◌≡◌};
ghost use Rattle.std.specs.Int.Signed.{le_z};
ghost use Rattle.language.specs.Instructions.{int64};
ghost use Rattle.language.specs.Arithmetic.{meaning};
ghost use Rattle.records.specs.Records.{wins};

use records::Record;

// Readings from here on are negative.
const NEGATIVE: u64 = 9223372036854775808;

// "the larger reading by meaning", or the same: numbers below 2^63 are not negative, and larger than the others.
fn at_least(a: u64, b: u64) -> bool
    ensures { result ≡ le_z (meaning int64 b) (meaning int64 a) }
{
    if a < NEGATIVE {
        if NEGATIVE <= b {
            return true;
        }
        return b <= a;
    }
    if b < NEGATIVE {
        return false;
    }
    b <= a
}

// Whether x wins over y or is the same: later time, fail over pass, lower tablet, larger reading.
pub fn beats(x: Record, y: Record) -> bool
    ensures { result ≡ wins x y }
{
    if x.time != y.time {
        return y.time < x.time;
    }
    if x.fail != y.fail {
        return y.fail < x.fail;
    }
    if x.tablet != y.tablet {
        return x.tablet < y.tablet;
    }
    at_least(x.reading, y.reading)
}
