// Cells of a lent table. Each function equals a definition of `language`'s Table, or says in its words which cells it writes;
// docs/TABLE.md has the layout. A table is never copied: it is lent as `&[u8]` or `&mut [u8]`, and `a` is the cell where a function begins.
#![tactic(auto)]

mod accessors;
mod cells;
mod layout;
mod names;
mod stores;

pub use accessors::{
    block_count, block_first, block_name, block_rows, function_count, function_entry,
    function_name, function_params, function_result, function_ssa, jump_first, jump_second,
    load_number, phi_count, phi_entry, phi_first, predecessor, predecessor_count, register_count,
    register_name, register_type, row_left, row_op, row_right, row_target,
};
pub use cells::name_at;
pub use layout::{
    BLOCK_COUNT_OFFSET, BLOCK_LENGTH, BLOCK_NAMES_OFFSET, BLOCK_ROWS_OFFSET, BLOCKS_OFFSET,
    ENTRIES_OFFSET, ENTRY_OFFSET, FIRST_FUNCTION, FUNCTION_LENGTH, FUNCTION_NAMES_OFFSET,
    LEFTS_OFFSET, MAX_BLOCKS, MAX_ENTRIES, MAX_FUNCTIONS, MAX_NAME, MAX_REGISTERS, MAX_ROWS,
    MAX_TEXT, NAME_LENGTH, NAME_OFFSET, OPERANDS_OFFSET, PARAMS_OFFSET, PREDECESSORS_OFFSET,
    REGISTER_COUNT_OFFSET, REGISTER_LENGTH, REGISTER_NAMES_OFFSET, REGISTERS_OFFSET, RESULT_OFFSET,
    RIGHTS_OFFSET, ROW_LENGTH, ROWS_OFFSET, TABLE_LENGTH, TARGETS_OFFSET, function_at,
};
pub use names::{find_name, same};
pub use stores::{put_entry, put_name, put_register, put_row};
