// The layout in numbers, each from the parts: `language`'s Table says the same, and docs/TABLE.md shows it cell by cell.
ghost use Rattle.std.specs.Prelude.{◌≡◌, ◌<◌};
ghost use Rattle.language.specs.Table.{function_at};

// "Sizes: text 65,536 bytes; 16 functions; in each function 256 registers (parameters counted), 64 blocks, 1,024 instructions, 1,024 phi entries."
pub const MAX_TEXT: usize = 65536;

pub const MAX_FUNCTIONS: usize = 16;

pub const MAX_REGISTERS: usize = 256;

pub const MAX_BLOCKS: usize = 64;

pub const MAX_ROWS: usize = 1024;

pub const MAX_ENTRIES: usize = 1024;

pub const MAX_NAME: usize = 64;

// The records.
pub const NAME_LENGTH: usize = 1 + MAX_NAME;

pub const REGISTER_LENGTH: usize = 1 + NAME_LENGTH;

pub const PREDECESSORS_LENGTH: usize = 1 + MAX_BLOCKS;

pub const BLOCK_LENGTH: usize = 4 + NAME_LENGTH + PREDECESSORS_LENGTH;

pub const ROW_LENGTH: usize = 12;

// A function's parts, from the cell where it begins.
pub const RESULT_OFFSET: usize = 1;

pub const PARAMS_OFFSET: usize = RESULT_OFFSET + 1;

pub const REGISTER_COUNT_OFFSET: usize = PARAMS_OFFSET + 2;

pub const BLOCK_COUNT_OFFSET: usize = REGISTER_COUNT_OFFSET + 2;

pub const ENTRY_OFFSET: usize = BLOCK_COUNT_OFFSET + 1;

pub const NAME_OFFSET: usize = ENTRY_OFFSET + 1;

pub const REGISTERS_OFFSET: usize = NAME_OFFSET + NAME_LENGTH;

pub const BLOCKS_OFFSET: usize = REGISTERS_OFFSET + MAX_REGISTERS * REGISTER_LENGTH;

pub const ROWS_OFFSET: usize = BLOCKS_OFFSET + MAX_BLOCKS * BLOCK_LENGTH;

pub const ENTRIES_OFFSET: usize = ROWS_OFFSET + MAX_ROWS * ROW_LENGTH;

pub const FUNCTION_LENGTH: usize = ENTRIES_OFFSET + MAX_ENTRIES;

// The columns of a section: where the field of its first record stands.
pub const REGISTER_NAMES_OFFSET: usize = REGISTERS_OFFSET + 1;

pub const BLOCK_ROWS_OFFSET: usize = BLOCKS_OFFSET + 2;

pub const BLOCK_NAMES_OFFSET: usize = BLOCKS_OFFSET + 4;

pub const PREDECESSORS_OFFSET: usize = BLOCK_NAMES_OFFSET + NAME_LENGTH;

pub const TARGETS_OFFSET: usize = ROWS_OFFSET + 1;

pub const LEFTS_OFFSET: usize = ROWS_OFFSET + 2;

pub const RIGHTS_OFFSET: usize = ROWS_OFFSET + 3;

pub const OPERANDS_OFFSET: usize = ROWS_OFFSET + 4;

// The table: the function count, and the functions.
pub const FIRST_FUNCTION: usize = 1;

pub const FUNCTION_NAMES_OFFSET: usize = FIRST_FUNCTION + NAME_OFFSET;

pub const TABLE_LENGTH: usize = FIRST_FUNCTION + MAX_FUNCTIONS * FUNCTION_LENGTH;

// The cell where function i begins. A table counts its functions in one cell.
pub fn function_at(i: usize) -> usize
    requires { i < 256 }
    ensures { result ≡ function_at i }
{
    FIRST_FUNCTION + FUNCTION_LENGTH * i
}
