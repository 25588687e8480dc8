// The types by their numbers; a return type may be `VOID` too.
pub const INT8: u8 = 0;

pub const INT16: u8 = 1;

pub const INT32: u8 = 2;

pub const INT64: u8 = 3;

pub const UINT8: u8 = 4;

pub const UINT16: u8 = 5;

pub const UINT32: u8 = 6;

pub const UINT64: u8 = 7;

pub const INT: u8 = 8;

pub const UINT: u8 = 9;

pub const COUNT: u8 = UINT + 1;

pub const VOID: u8 = COUNT;
