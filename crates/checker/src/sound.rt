// 9 of one function, in parts: each looks only at cells that the parts before it have found to be there.
ghost use Rattle.std.specs.Prelude.{◌≡◌, ◌+◌, ◌<◌, ◌≤◌, IfSome, MatchOption, length, unwrap_or};
ghost use Rattle.laws.specs.Lists.{any, same};
ghost use Rattle.language.specs.Table.{register_count, block_count, function_name, row_count, InTable, table_length};
ghost use Rattle.checker.specs.Parts.{table_names_before, head_right, types_right, placed_rows, entries_after, rows_right, listed_right, all_names_right, sound_at};
ghost use Rattle.language.specs.Programs.{max_rows, max_entries, max_blocks, max_registers, max_functions};
ghost use Rattle.table.specs.Named.{NamesWithin};

use instructions::{ops, types};
use predecessors::predecessors_kept;
use rules::in_range;
use spelling::{all_spellable, distinct_names, spellable};
use table::{
    BLOCK_LENGTH, BLOCK_NAMES_OFFSET, FUNCTION_LENGTH, FUNCTION_NAMES_OFFSET, MAX_BLOCKS,
    MAX_ENTRIES, MAX_REGISTERS, MAX_ROWS, REGISTER_LENGTH, REGISTER_NAMES_OFFSET, block_count,
    block_first, block_name, block_rows, find_name, function_entry, function_name, function_params,
    function_result, function_ssa, phi_count, phi_first, register_count, register_type, row_op,
};

// "256 registers (parameters counted), 64 blocks, 1,024 instructions, 1,024 phi entries"
// The mark, the return type, the counts, and entry: a block, with a name of no bytes.
fn head_right(t: &[u8], a: usize) -> bool
    requires { InTable t.now a }
    ensures { result ≡ head_right t.now a }
{
    if 2 <= function_ssa(t, a) {
        return false;
    }
    if types::VOID < function_result(t, a) {
        return false;
    }
    let registers = register_count(t, a);
    if MAX_REGISTERS < registers {
        return false;
    }
    let blocks = block_count(t, a);
    if MAX_BLOCKS < blocks {
        return false;
    }
    if registers < function_params(t, a) {
        return false;
    }
    let entry = function_entry(t, a);
    if blocks <= entry {
        return false;
    }
    block_name(t, a, entry).is_empty()
}

// Every register's type.
fn types_right(t: &[u8], a: usize, registers: usize) -> bool
    requires { (InTable t.now a) × (registers ≡ register_count t.now a) × (registers ≤ max_registers) }
    ensures { result ≡ types_right t.now a }
{
    for i in 0..registers {
        if types::COUNT <= register_type(t, a, i) {
            return false;
        }
    }
    true
}

// How many rows there are, if the blocks' rows are in sequence and not too many.
fn placed_rows(t: &[u8], a: usize, blocks: usize) -> Option<usize>
    requires { (InTable t.now a) × (blocks ≡ block_count t.now a) × (blocks ≤ max_blocks) }
    ensures rows { unwrap_or result (max_rows + 1) ≡ placed_rows t.now a }
    ensures few { IfSome result (λ n. n ≤ max_rows) }
{
    let mut n = 0;
    for b in 0..blocks {
        if block_first(t, a, b) != n {
            return None;
        }
        n += block_rows(t, a, b);
        if MAX_ROWS < n {
            return None;
        }
    }
    Some(n)
}

// How many phi entries there are up to row k and with it, n being those before it, if they are not too many and the row's begin at n.
fn entries_after(t: &[u8], a: usize, k: usize, n: usize) -> Option<usize>
    requires { (InTable t.now a) × (k < max_rows) × (n ≤ max_rows) }
    ensures { MatchOption result (max_entries < entries_after t.now a k n) (λ e. (e ≡ entries_after t.now a k n) × (e ≤ max_entries)) }
{
    if row_op(t, a, k) != ops::PHI {
        return Some(n);
    }
    if phi_first(t, a, k) != n {
        return None;
    }
    let entries = n + phi_count(t, a, k);
    if MAX_ENTRIES < entries {
        return None;
    }
    Some(entries)
}

// Every row's numbers, and where its phi entries stand.
fn rows_right(t: &[u8], a: usize, registers: usize, blocks: usize, rows: usize) -> bool
    requires in_table { (InTable t.now a) × (registers ≡ register_count t.now a) × (blocks ≡ block_count t.now a) }
    requires rows_value { (rows ≡ row_count t.now a) × (rows ≤ max_rows) }
    ensures { result ≡ rows_right t.now a }
{
    let mut entries = 0;
    for k in 0..rows {
        let Some(after) = entries_after(t, a, k, entries) else {
            return false;
        };
        if !in_range(t, a, registers, blocks, k) {
            return false;
        }
        entries = after;
    }
    true
}

// Whether a function before number i has the name of the one at cell a.
fn named_before(t: &[u8], i: usize, a: usize) -> bool
    requires { (length t.now ≡ table_length) × (i < max_functions) × (InTable t.now a) }
    ensures { result ≡ any (same (function_name t.now a)) (table_names_before t.now i) }
{
    let name = function_name(t, a);
    find_name(t, FUNCTION_NAMES_OFFSET, FUNCTION_LENGTH, i, name).is_some()
}

// Names that stand `stride` apart from cell `at` on: each is none or one that a text can spell, and none stands twice.
fn listed_right(t: &[u8], at: usize, stride: usize, count: usize) -> bool
    requires { NamesWithin t.now at stride count × (count ≤ max_registers) }
    ensures { result ≡ listed_right t.now at stride count }
{
    if !all_spellable(t, at, stride, count) {
        return false;
    }
    distinct_names(t, at, stride, count)
}

// The names of the function, its registers and its blocks.
fn names_right(t: &[u8], i: usize, a: usize, registers: usize, blocks: usize) -> bool
    requires t_len { (length t.now ≡ table_length) × (i < max_functions) × (InTable t.now a) }
    requires registers_value { (registers ≡ register_count t.now a) × (registers ≤ max_registers) × (blocks ≡ block_count t.now a) × (blocks ≤ max_blocks) }
    ensures { result ≡ all_names_right t.now i a }
{
    if !spellable(function_name(t, a)) {
        return false;
    }
    if named_before(t, i, a) {
        return false;
    }
    if !listed_right(t, a + REGISTER_NAMES_OFFSET, REGISTER_LENGTH, registers) {
        return false;
    }
    listed_right(t, a + BLOCK_NAMES_OFFSET, BLOCK_LENGTH, blocks)
}

// 9 does not hold of the function.
pub fn sound_at(t: &[u8], i: usize, a: usize) -> bool
    requires { (length t.now ≡ table_length) × (i < max_functions) × (InTable t.now a) }
    ensures { result ≡ sound_at t.now i a }
{
    if !head_right(t, a) {
        return false;
    }
    let registers = register_count(t, a);
    let blocks = block_count(t, a);
    if !types_right(t, a, registers) {
        return false;
    }
    let Some(rows) = placed_rows(t, a, blocks) else {
        return false;
    };
    if !rows_right(t, a, registers, blocks, rows) {
        return false;
    }
    if !predecessors_kept(t, a, blocks) {
        return false;
    }
    names_right(t, i, a, registers, blocks)
}
