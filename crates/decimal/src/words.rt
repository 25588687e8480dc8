// Decimal words: an optional minus, then one or more digits and nothing else. A word of any length is a number.
ghost use Rattle.std.specs.Prelude.{◌≡◌, ℕ, ◌+◌, ◌*◌, ◌<◌};
ghost use Rattle.decimal.specs.Numbers.{amount_kept, unsigned, number_of};

use crate::MINUS;

// A number that a word says: its sign, and its magnitude where that is below 2^64. No type's range reaches beyond.
#[derive(Clone, Copy)]
pub struct Decimal {
    pub negative: bool,
    pub magnitude: Option<u64>,
}

// One digit more.
fn grown(magnitude: Option<u64>, digit: u64) -> Option<u64>
    requires { digit < 10 }
    ensures { (n : ℕ) → magnitude ≡ amount_kept n → result ≡ amount_kept (10 * n + digit) }
{
    magnitude?.checked_mul(10)?.checked_add(digit)
}

// What digits say behind a sign.
fn read_digits(negative: bool, digits: &[u8]) -> Option<Decimal>
    ensures { result ≡ unsigned negative digits.now }
{
    if digits.is_empty() {
        return None;
    }
    let mut magnitude = Some(0);
    for b in digits {
        let digit = match *b {
            b'0'..=b'9' => u64::from(*b - b'0'),
            _ => return None,
        };
        magnitude = grown(magnitude, digit);
    }
    Some(Decimal {
        negative,
        magnitude,
    })
}

// A decimal word by meaning: a minus may stand before the digits.
pub fn read_decimal(word: &[u8]) -> Option<Decimal>
    ensures { result ≡ number_of word.now }
{
    if !word.is_empty() && word[0] == MINUS {
        return read_digits(true, &word[1..]);
    }
    read_digits(false, word)
}
