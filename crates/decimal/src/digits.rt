// The digits of a number, written into a lent buffer.
ghost use Rattle.std.specs.Prelude.{◌≡◌, ◌+◌, ◌<◌, ◌≤◌, length};
ghost use Rattle.language.specs.Bytes.{digit_zero};
ghost use Rattle.language.specs.Listing.{digits};
ghost use Rattle.decimal.specs.Writing.{Written};

const ZERO: u8 = 48;

// The digit of a number below 10.
pub fn digit(n: u64) -> u8
    requires { n < 10 }
    ensures { result ≡ digit_zero + n }
{
    ZERO + n as u8
}

// The digits of n from place `at` on, the first one first; the place after them.
fn put(n: u64, out: &mut [u8], at: usize) -> usize
    requires { at + length (digits n) ≤ length out.old }
    ensures { Written out.old at (digits n) out.new result }
{
    if n < 10 {
        out[at] = digit(n);
        return at + 1;
    }
    let e = put(n / 10, out, at);
    out[e] = digit(n % 10);
    e + 1
}

// The same where room is left for any number of 64 bits: 20 digits.
pub fn put_digits(n: u64, out: &mut [u8], at: usize) -> usize
    requires { at + 20 ≤ length out.old }
    ensures { Written out.old at (digits n) out.new result × (result ≤ at + 20) }
{
    put(n, out, at)
}
