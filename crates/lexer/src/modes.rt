// The numbers of the lexer's modes and of what a byte does to them. They are counted from 0 in the order of the definition, so that a jump by
// the mode is one look into a table.
// Kept, speed: numbers and not enums, whose tags are of one byte, and which are copied and told apart at every byte of a number or a quoted name (docs/BENCHMARKS.md).

// Nothing is open, not even a comment.
pub const BETWEEN: u64 = 0;

pub const PLAIN: u64 = 1;

pub const QUOTED: u64 = 2;

// In a quoted name, directly after a backslash, which waits outside the contents.
pub const ESCAPING: u64 = 3;

pub const SLASH: u64 = 4;

pub const COMMENT: u64 = 5;

pub const SIGN: u64 = 6;

pub const LEADING_ZERO: u64 = 7;

pub const DECIMAL: u64 = 8;

// `0x` without a digit.
pub const PREFIX: u64 = 9;

pub const HEXADECIMAL: u64 = 10;

// What a byte does. A mode's number: it goes on with what is open, in that mode. In a name it is one byte more of the contents, but for
// ESCAPING: a backslash begins to wait. A slash and a comment are begun and never gone on with, so their numbers are free for two more:

// The backslash that waited is a byte of the contents, and this one waits.
pub const WAITS_NEXT: u64 = SLASH;

// The backslash that waited is a byte of the contents, and this byte is the next.
pub const KEEPS_BOTH: u64 = COMMENT;

// BEGINS more than a mode's number: it begins the mode.
pub const BEGINS: u64 = 16;

pub const BEGINS_BETWEEN: u64 = BEGINS + BETWEEN;

pub const BEGINS_PLAIN: u64 = BEGINS + PLAIN;

pub const BEGINS_QUOTED: u64 = BEGINS + QUOTED;

pub const BEGINS_SLASH: u64 = BEGINS + SLASH;

pub const BEGINS_COMMENT: u64 = BEGINS + COMMENT;

pub const BEGINS_SIGN: u64 = BEGINS + SIGN;

pub const BEGINS_LEADING_ZERO: u64 = BEGINS + LEADING_ZERO;

pub const BEGINS_DECIMAL: u64 = BEGINS + DECIMAL;

// From here on something is found. ENDS: it ends what is open, and is itself still to be taken.
pub const ENDS: u64 = 32;

// It makes what is open no token.
pub const SPOILS: u64 = 33;

// It closes a quoted name.
pub const CLOSES: u64 = 34;

// It is a mark.
pub const MARK: u64 = 35;

// It is no token.
pub const STRAY: u64 = 36;
