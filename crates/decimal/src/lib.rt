// Numbers as decimal words: read and written by meaning, and as a type's numbers below 2^w.
#![tactic(auto)]

mod digits;
mod ranges;
mod words;

// Bytes of the lines that programs read and print.
pub const TAB: u8 = 9;

pub const LINE_FEED: u8 = 10;

pub const MINUS: u8 = 45;

pub use digits::{digit, put_digits};
pub use instructions::types;
pub use ranges::{Meant, bits_from, of_bits, to_bits};
pub use words::{Decimal, read_decimal};
