// The kinds of operands by their numbers: `operand_number` says the same.
pub const NONE: u8 = 0;

pub const NUMBER: u8 = 1;

pub const REGISTERS: u8 = 2;

pub const BLOCK: u8 = 3;

pub const BLOCKS: u8 = 4;
