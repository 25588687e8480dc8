// Values of digits, and numbers of any length.
ghost use Rattle.std.specs.Prelude.{◌≡◌, ◌-◌, ◌<◌, unwrap_or, IfSome};
ghost use Rattle.language.specs.Bytes.{hex_value};
ghost use Rattle.lexer.specs.Numbers.{grown_at};

// The number with one digit more; none for one that is 2^64 or more.
pub fn grown(value: Option<u64>, base: u64, digit: u64) -> Option<u64>
    ensures { result ≡ grown_at value base digit }
{
    value?.checked_mul(base)?.checked_add(digit)
}

// The value of a hexadecimal digit.
pub fn hex_value(b: u8) -> Option<u8>
    ensures value { unwrap_or result 16 ≡ hex_value b }
    ensures small { IfSome result (λ d. d < 16) }
{
    match b {
        b'0'..=b'9' => Some(b - b'0'),
        b'A'..=b'F' => Some(b - b'A' + 10),
        b'a'..=b'f' => Some(b - b'a' + 10),
        _ => None,
    }
}

// The value of a decimal digit.
pub fn digit(b: u8) -> u64
    ensures { result ≡ b - 48 }
{
    u64::from(b.saturating_sub(b'0'))
}
