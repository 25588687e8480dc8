// The accessors of `language`'s Table, each under its definition's name. Counts, registers, blocks and rows are `usize` with
// their bound, instructions, types and the ssa mark `u8`.
ghost use Rattle.std.specs.Prelude.{◌≡◌, ◌<◌, ◌≤◌, length};
ghost use Rattle.language.specs.Table.{function_count, function_ssa, function_result, function_params, register_count, block_count, function_entry, function_name, InTable};
ghost use Rattle.language.specs.Table.{register_type, register_name, block_first, block_rows, block_name, predecessor_count, predecessor_at};
ghost use Rattle.language.specs.Table.{row_op, row_target, row_left, row_right, load_number, jump_first, jump_second, phi_first, phi_count, phi_entry};
ghost use Rattle.language.specs.Programs.{max_rows, max_entries, max_blocks, max_registers};

use crate::cells::name_at;
use crate::layout::{
    BLOCK_COUNT_OFFSET, BLOCK_LENGTH, BLOCK_NAMES_OFFSET, BLOCK_ROWS_OFFSET, BLOCKS_OFFSET,
    ENTRIES_OFFSET, ENTRY_OFFSET, LEFTS_OFFSET, NAME_OFFSET, OPERANDS_OFFSET, PARAMS_OFFSET,
    PREDECESSORS_OFFSET, REGISTER_COUNT_OFFSET, REGISTER_LENGTH, REGISTER_NAMES_OFFSET,
    REGISTERS_OFFSET, RESULT_OFFSET, RIGHTS_OFFSET, ROW_LENGTH, ROWS_OFFSET, TARGETS_OFFSET,
};
use numbers::{eight_at, two_at};

pub fn function_count(t: &[u8]) -> usize
    requires { 1 ≤ length t.now }
    ensures { (result ≡ function_count t.now) × (result < 256) }
{
    usize::from(t[0])
}

pub fn function_ssa(t: &[u8], a: usize) -> u8
    requires { InTable t.now a }
    ensures { result ≡ function_ssa t.now a }
{
    t[a]
}

pub fn function_result(t: &[u8], a: usize) -> u8
    requires { InTable t.now a }
    ensures { result ≡ function_result t.now a }
{
    t[a + RESULT_OFFSET]
}

pub fn function_params(t: &[u8], a: usize) -> usize
    requires { InTable t.now a }
    ensures { (result ≡ function_params t.now a) × (result < 65536) }
{
    two_at(t, a + PARAMS_OFFSET)
}

pub fn register_count(t: &[u8], a: usize) -> usize
    requires { InTable t.now a }
    ensures { (result ≡ register_count t.now a) × (result < 65536) }
{
    two_at(t, a + REGISTER_COUNT_OFFSET)
}

pub fn block_count(t: &[u8], a: usize) -> usize
    requires { InTable t.now a }
    ensures { (result ≡ block_count t.now a) × (result < 256) }
{
    usize::from(t[a + BLOCK_COUNT_OFFSET])
}

pub fn function_entry(t: &[u8], a: usize) -> usize
    requires { InTable t.now a }
    ensures { (result ≡ function_entry t.now a) × (result < 256) }
{
    usize::from(t[a + ENTRY_OFFSET])
}

pub fn function_name(t: &[u8], a: usize) -> &[u8]
    requires { InTable t.now a }
    ensures { result.now ≡ function_name t.now a }
{
    name_at(t, a + NAME_OFFSET)
}

// Registers.

pub fn register_type(t: &[u8], a: usize, r: usize) -> u8
    requires { (InTable t.now a) × (r < max_registers) }
    ensures { result ≡ register_type t.now a r }
{
    t[a + REGISTERS_OFFSET + REGISTER_LENGTH * r]
}

pub fn register_name(t: &[u8], a: usize, r: usize) -> &[u8]
    requires { (InTable t.now a) × (r < max_registers) }
    ensures { result.now ≡ register_name t.now a r }
{
    name_at(t, a + REGISTER_NAMES_OFFSET + REGISTER_LENGTH * r)
}

// Blocks.

pub fn block_first(t: &[u8], a: usize, b: usize) -> usize
    requires { (InTable t.now a) × (b < max_blocks) }
    ensures { (result ≡ block_first t.now a b) × (result < 65536) }
{
    two_at(t, a + BLOCKS_OFFSET + BLOCK_LENGTH * b)
}

pub fn block_rows(t: &[u8], a: usize, b: usize) -> usize
    requires { (InTable t.now a) × (b < max_blocks) }
    ensures { (result ≡ block_rows t.now a b) × (result < 65536) }
{
    two_at(t, a + BLOCK_ROWS_OFFSET + BLOCK_LENGTH * b)
}

pub fn block_name(t: &[u8], a: usize, b: usize) -> &[u8]
    requires { (InTable t.now a) × (b < max_blocks) }
    ensures { result.now ≡ block_name t.now a b }
{
    name_at(t, a + BLOCK_NAMES_OFFSET + BLOCK_LENGTH * b)
}

// Rows, and the three readings of their eight operand cells: a load's number, the blocks of a jump, where a phi's entries stand.

pub fn predecessor_count(t: &[u8], a: usize, b: usize) -> usize
    requires { (InTable t.now a) × (b < max_blocks) }
    ensures { (result ≡ predecessor_count t.now a b) × (result < 256) }
{
    usize::from(t[a + PREDECESSORS_OFFSET + BLOCK_LENGTH * b])
}

pub fn predecessor(t: &[u8], a: usize, b: usize, k: usize) -> usize
    requires { (InTable t.now a) × (b < max_blocks) × (k < 256) }
    ensures { (result ≡ predecessor_at t.now a b k) × (result < 256) }
{
    usize::from(t[a + (PREDECESSORS_OFFSET + 1) + BLOCK_LENGTH * b + k])
}

// Kept, plainer: each accessor is one read under the name of its definition; one function that takes the column is longer at every call.
pub fn row_op(t: &[u8], a: usize, r: usize) -> u8
    requires { (InTable t.now a) × (r < max_rows) }
    ensures { result ≡ row_op t.now a r }
{
    t[a + ROWS_OFFSET + ROW_LENGTH * r]
}

pub fn row_target(t: &[u8], a: usize, r: usize) -> usize
    requires { (InTable t.now a) × (r < max_rows) }
    ensures { (result ≡ row_target t.now a r) × (result < 256) }
{
    usize::from(t[a + TARGETS_OFFSET + ROW_LENGTH * r])
}

pub fn row_left(t: &[u8], a: usize, r: usize) -> usize
    requires { (InTable t.now a) × (r < max_rows) }
    ensures { (result ≡ row_left t.now a r) × (result < 256) }
{
    usize::from(t[a + LEFTS_OFFSET + ROW_LENGTH * r])
}

pub fn row_right(t: &[u8], a: usize, r: usize) -> usize
    requires { (InTable t.now a) × (r < max_rows) }
    ensures { (result ≡ row_right t.now a r) × (result < 256) }
{
    usize::from(t[a + RIGHTS_OFFSET + ROW_LENGTH * r])
}

pub fn load_number(t: &[u8], a: usize, r: usize) -> u64
    requires { (InTable t.now a) × (r < max_rows) }
    ensures { result ≡ load_number t.now a r }
{
    eight_at(t, a + OPERANDS_OFFSET + ROW_LENGTH * r)
}

pub fn jump_first(t: &[u8], a: usize, r: usize) -> usize
    requires { (InTable t.now a) × (r < max_rows) }
    ensures { (result ≡ jump_first t.now a r) × (result < 256) }
{
    usize::from(t[a + OPERANDS_OFFSET + ROW_LENGTH * r])
}

pub fn jump_second(t: &[u8], a: usize, r: usize) -> usize
    requires { (InTable t.now a) × (r < max_rows) }
    ensures { (result ≡ jump_second t.now a r) × (result < 256) }
{
    usize::from(t[a + (OPERANDS_OFFSET + 1) + ROW_LENGTH * r])
}

pub fn phi_first(t: &[u8], a: usize, r: usize) -> usize
    requires { (InTable t.now a) × (r < max_rows) }
    ensures { (result ≡ phi_first t.now a r) × (result < 65536) }
{
    two_at(t, a + OPERANDS_OFFSET + ROW_LENGTH * r)
}

pub fn phi_count(t: &[u8], a: usize, r: usize) -> usize
    requires { (InTable t.now a) × (r < max_rows) }
    ensures { (result ≡ phi_count t.now a r) × (result < 65536) }
{
    two_at(t, a + (OPERANDS_OFFSET + 2) + ROW_LENGTH * r)
}

pub fn phi_entry(t: &[u8], a: usize, k: usize) -> usize
    requires { (InTable t.now a) × (k < max_entries) }
    ensures { (result ≡ phi_entry t.now a k) × (result < 256) }
{
    usize::from(t[a + ENTRIES_OFFSET + k])
}
