// The words by their numbers: six of the grammar, then the types, then the instructions.
use crate::{ops, types};

pub const FUNCTION: u8 = 0;

pub const SSA: u8 = 1;

pub const VOID: u8 = 2;

pub const REGISTER: u8 = 3;

pub const BLOCK: u8 = 4;

pub const ENTRY: u8 = 5;

pub const FIRST_TYPE: u8 = ENTRY + 1;

pub const INT8: u8 = FIRST_TYPE + types::INT8;

pub const INT16: u8 = FIRST_TYPE + types::INT16;

pub const INT32: u8 = FIRST_TYPE + types::INT32;

pub const INT64: u8 = FIRST_TYPE + types::INT64;

pub const UINT8: u8 = FIRST_TYPE + types::UINT8;

pub const UINT16: u8 = FIRST_TYPE + types::UINT16;

pub const UINT32: u8 = FIRST_TYPE + types::UINT32;

pub const UINT64: u8 = FIRST_TYPE + types::UINT64;

pub const INT: u8 = FIRST_TYPE + types::INT;

pub const UINT: u8 = FIRST_TYPE + types::UINT;

pub const FIRST_INSTRUCTION: u8 = FIRST_TYPE + types::COUNT;

pub const NOP: u8 = FIRST_INSTRUCTION + ops::NOP;

pub const LOAD_I8: u8 = FIRST_INSTRUCTION + ops::LOAD_I8;

pub const LOAD_UI8: u8 = FIRST_INSTRUCTION + ops::LOAD_UI8;

pub const LOAD_I16: u8 = FIRST_INSTRUCTION + ops::LOAD_I16;

pub const LOAD_UI16: u8 = FIRST_INSTRUCTION + ops::LOAD_UI16;

pub const LOAD_I32: u8 = FIRST_INSTRUCTION + ops::LOAD_I32;

pub const LOAD_UI32: u8 = FIRST_INSTRUCTION + ops::LOAD_UI32;

pub const LOAD_I64: u8 = FIRST_INSTRUCTION + ops::LOAD_I64;

pub const LOAD_UI64: u8 = FIRST_INSTRUCTION + ops::LOAD_UI64;

pub const ARI_ADD: u8 = FIRST_INSTRUCTION + ops::ARI_ADD;

pub const ARI_SUB: u8 = FIRST_INSTRUCTION + ops::ARI_SUB;

pub const ARI_MUL: u8 = FIRST_INSTRUCTION + ops::ARI_MUL;

pub const ARI_DIV: u8 = FIRST_INSTRUCTION + ops::ARI_DIV;

pub const ARI_REM: u8 = FIRST_INSTRUCTION + ops::ARI_REM;

pub const ARI_NEG: u8 = FIRST_INSTRUCTION + ops::ARI_NEG;

pub const BIT_AND: u8 = FIRST_INSTRUCTION + ops::BIT_AND;

pub const BIT_OR: u8 = FIRST_INSTRUCTION + ops::BIT_OR;

pub const BIT_XOR: u8 = FIRST_INSTRUCTION + ops::BIT_XOR;

pub const BIT_NEG: u8 = FIRST_INSTRUCTION + ops::BIT_NEG;

pub const SHL: u8 = FIRST_INSTRUCTION + ops::SHL;

pub const SHR: u8 = FIRST_INSTRUCTION + ops::SHR;

pub const ROL: u8 = FIRST_INSTRUCTION + ops::ROL;

pub const ROR: u8 = FIRST_INSTRUCTION + ops::ROR;

pub const CMP_EQ: u8 = FIRST_INSTRUCTION + ops::CMP_EQ;

pub const CMP_NEQ: u8 = FIRST_INSTRUCTION + ops::CMP_NEQ;

pub const CMP_GT: u8 = FIRST_INSTRUCTION + ops::CMP_GT;

pub const CMP_LT: u8 = FIRST_INSTRUCTION + ops::CMP_LT;

pub const CMP_GTEQ: u8 = FIRST_INSTRUCTION + ops::CMP_GTEQ;

pub const CMP_LTEQ: u8 = FIRST_INSTRUCTION + ops::CMP_LTEQ;

pub const CONV: u8 = FIRST_INSTRUCTION + ops::CONV;

pub const COPY: u8 = FIRST_INSTRUCTION + ops::COPY;

pub const PHI: u8 = FIRST_INSTRUCTION + ops::PHI;

pub const JUMP: u8 = FIRST_INSTRUCTION + ops::JUMP;

pub const JUMP_COND: u8 = FIRST_INSTRUCTION + ops::JUMP_COND;

pub const RETURN: u8 = FIRST_INSTRUCTION + ops::RETURN;

pub const LEAVE: u8 = FIRST_INSTRUCTION + ops::LEAVE;

// As many as there are, which stands for no word.
pub const COUNT: u8 = FIRST_INSTRUCTION + ops::COUNT;
