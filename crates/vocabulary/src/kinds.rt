// The numbers of the classes of bytes, in the order of the definition. A plain name has letters and digits, the classes before SPACE.

// `.` and `_` are letters too.
pub const LETTER: u8 = 0;

pub const DIGIT: u8 = 1;

pub const SPACE: u8 = 2;

pub const QUOTE: u8 = 3;

pub const SIGN: u8 = 4;

pub const SLASH: u8 = 5;

pub const MARK: u8 = 6;

pub const OTHER: u8 = 7;
