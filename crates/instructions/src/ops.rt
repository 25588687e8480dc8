// The 36 instructions by their numbers, in document 01's order: `language`'s Instructions says the same.
pub const NOP: u8 = 0;

pub const LOAD_I8: u8 = 1;

pub const LOAD_UI8: u8 = 2;

pub const LOAD_I16: u8 = 3;

pub const LOAD_UI16: u8 = 4;

pub const LOAD_I32: u8 = 5;

pub const LOAD_UI32: u8 = 6;

pub const LOAD_I64: u8 = 7;

pub const LOAD_UI64: u8 = 8;

pub const ARI_ADD: u8 = 9;

pub const ARI_SUB: u8 = 10;

pub const ARI_MUL: u8 = 11;

pub const ARI_DIV: u8 = 12;

pub const ARI_REM: u8 = 13;

pub const ARI_NEG: u8 = 14;

pub const BIT_AND: u8 = 15;

pub const BIT_OR: u8 = 16;

pub const BIT_XOR: u8 = 17;

pub const BIT_NEG: u8 = 18;

pub const SHL: u8 = 19;

pub const SHR: u8 = 20;

pub const ROL: u8 = 21;

pub const ROR: u8 = 22;

pub const CMP_EQ: u8 = 23;

pub const CMP_NEQ: u8 = 24;

pub const CMP_GT: u8 = 25;

pub const CMP_LT: u8 = 26;

pub const CMP_GTEQ: u8 = 27;

pub const CMP_LTEQ: u8 = 28;

pub const CONV: u8 = 29;

pub const COPY: u8 = 30;

pub const PHI: u8 = 31;

pub const JUMP: u8 = 32;

pub const JUMP_COND: u8 = 33;

pub const RETURN: u8 = 34;

pub const LEAVE: u8 = 35;

pub const COUNT: u8 = LEAVE + 1;
