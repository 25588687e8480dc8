// The forms of instructions by their numbers: `form_number` says the same.
pub const NOP: u8 = 0;

pub const LOAD: u8 = 1;

pub const UNARY: u8 = 2;

pub const BINARY: u8 = 3;

pub const PHI: u8 = 4;

pub const JUMP: u8 = 5;

pub const BRANCH: u8 = 6;

pub const RETURN: u8 = 7;

pub const LEAVE: u8 = 8;

pub const UNKNOWN: u8 = 9;
