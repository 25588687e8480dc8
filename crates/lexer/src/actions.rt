// What a byte does to what is open, by number (`modes`).
ghost use Rattle.std.specs.Prelude.{◌≡◌};
ghost use Rattle.lexer.specs.Actions.{digit_mode_at, begins_at, in_plain_at, in_quoted_at, in_escaped_at, after_number_at, in_decimal_at, in_number_at, action_at};

use crate::modes;
use crate::values::hex_value;
use vocabulary::kinds;

// "The 64 bytes are counted on the contents."
pub const MAX_NAME: usize = 64;

// Zero begins `0x` too.
fn digit_mode(b: u8) -> u64
    ensures { result ≡ digit_mode_at b }
{
    if b == b'0' {
        return modes::LEADING_ZERO;
    }
    modes::DECIMAL
}

// With nothing open, by the byte's class.
fn begins(class: u8, b: u8) -> u64
    ensures { result ≡ begins_at class b }
{
    match class {
        kinds::LETTER => modes::BEGINS_PLAIN,
        kinds::DIGIT => {
            if b == b'0' {
                return modes::BEGINS_LEADING_ZERO;
            }
            modes::BEGINS_DECIMAL
        }
        kinds::SPACE => modes::BEGINS_BETWEEN,
        kinds::QUOTE => modes::BEGINS_QUOTED,
        kinds::SIGN => modes::BEGINS_SIGN,
        kinds::SLASH => modes::BEGINS_SLASH,
        kinds::MARK => modes::MARK,
        _ => modes::STRAY,
    }
}

// In a plain name that has so many bytes.
fn in_plain(class: u8, kept: usize) -> u64
    ensures { result ≡ in_plain_at class kept }
{
    if class < kinds::SPACE {
        if kept < MAX_NAME {
            return modes::PLAIN;
        }
        return modes::SPOILS;
    }
    modes::ENDS
}

// In quotes, with so many bytes of contents, after something else than a backslash. "quote, one or more bytes, quote"
fn in_quoted(b: u8, kept: usize) -> u64
    ensures { result ≡ in_quoted_at b kept }
{
    if b == b'\'' {
        if kept == 0 {
            return modes::SPOILS;
        }
        return modes::CLOSES;
    }
    if b == b'\\' {
        return modes::ESCAPING;
    }
    if kept < MAX_NAME {
        return modes::QUOTED;
    }
    modes::SPOILS
}

// In quotes, after a backslash: "a backslash directly before a quote makes that quote part of the name" and "is dropped".
fn in_escaped(b: u8, kept: usize) -> u64
    ensures { result ≡ in_escaped_at b kept }
{
    if MAX_NAME <= kept {
        return modes::SPOILS;
    }
    if b == b'\'' {
        return modes::QUOTED;
    }
    if b == b'\\' {
        return modes::WAITS_NEXT;
    }
    if kept < MAX_NAME - 1 {
        return modes::KEEPS_BOTH;
    }
    modes::SPOILS
}

// After a number. "A name character directly after makes it no token."
fn after_number(class: u8) -> u64
    ensures { result ≡ after_number_at class }
{
    if class < kinds::SPACE {
        return modes::SPOILS;
    }
    modes::ENDS
}

// In or after decimal digits.
fn in_decimal(class: u8) -> u64
    ensures { result ≡ in_decimal_at class }
{
    if class == kinds::DIGIT {
        return modes::DECIMAL;
    }
    after_number(class)
}

// After a sign, in a number, or after its prefix.
// Kept, speed: an arm a mode, by their numbers (`modes`).
fn in_number(mode: u64, class: u8, b: u8) -> u64
    ensures { result ≡ in_number_at mode class b }
{
    match mode {
        modes::SIGN => {
            if class == kinds::DIGIT {
                return digit_mode(b);
            }
            modes::ENDS
        }
        modes::LEADING_ZERO => {
            if b == b'x' {
                return modes::PREFIX;
            }
            in_decimal(class)
        }
        modes::DECIMAL => in_decimal(class),
        modes::PREFIX => {
            if hex_value(b).is_some() {
                return modes::HEXADECIMAL;
            }
            modes::ENDS
        }
        _ => {
            if hex_value(b).is_some() {
                return modes::HEXADECIMAL;
            }
            after_number(class)
        }
    }
}

// In a mode, at a byte b of a class, with so many bytes of a name's contents.
pub fn action(mode: u64, class: u8, b: u8, kept: usize) -> u64
    ensures { result ≡ action_at mode class b kept }
{
    match mode {
        modes::BETWEEN => begins(class, b),
        modes::PLAIN => in_plain(class, kept),
        modes::QUOTED => in_quoted(b, kept),
        modes::ESCAPING => in_escaped(b, kept),
        modes::SLASH => {
            if b == b'/' {
                return modes::BEGINS_COMMENT;
            }
            modes::ENDS
        }
        modes::COMMENT => {
            if b == b'\n' {
                return modes::BEGINS_BETWEEN;
            }
            modes::BEGINS_COMMENT
        }
        _ => in_number(mode, class, b),
    }
}
