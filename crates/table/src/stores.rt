// Stores into a lent table. Each says which cells it writes from which place on, in the words of `language`'s Table: every other
// cell, and the length, is as it was.
ghost use Rattle.std.specs.Prelude.{◌≡◌, [], ◌∷◌, ◌+◌, ◌*◌, ◌<◌, ◌≤◌, length};
ghost use Rattle.std.proofs.lemmas.List.Edits.{sets};
ghost use Rattle.language.specs.Table.{eight_bytes, InTable, entries_offset, register_length, registers_offset, row_length, rows_offset};
ghost use Rattle.language.specs.Programs.{max_rows, max_entries, max_registers, max_name};

use crate::layout::{ENTRIES_OFFSET, REGISTER_LENGTH, REGISTERS_OFFSET, ROW_LENGTH, ROWS_OFFSET};
use numbers::{put_bytes, put_eight};

// A name's length in cell k and its bytes behind it; the cells past them are left.
pub fn put_name(t: &mut [u8], k: usize, name: &[u8])
    requires { (length name.now < 256) × (k + 1 + length name.now ≤ length t.old) }
    ensures { t.new ≡ sets t.old k (length name.now ∷ name.now) }
{
    t[k] = name.len() as u8;
    put_bytes(t, k + 1, name);
}

// Register r: its type and its name.
pub fn put_register(t: &mut [u8], a: usize, r: usize, kind: u8, name: &[u8])
    requires { (InTable t.old a) × (r < max_registers) × (length name.now ≤ max_name) }
    ensures { t.new ≡ sets t.old (a + registers_offset + register_length * r) (kind ∷ length name.now ∷ name.now) }
{
    let k = a + REGISTERS_OFFSET + REGISTER_LENGTH * r;
    t[k] = kind;
    put_name(t, k + 1, name);
}

// Row r, all its cells.
pub fn put_row(
    t: &mut [u8],
    a: usize,
    r: usize,
    op: u8,
    target: usize,
    left: usize,
    right: usize,
    operand: u64,
)
    requires in_table { (InTable t.old a) × (r < max_rows) }
    requires target_bound { (target < 256) × (left < 256) × (right < 256) }
    ensures { t.new ≡ sets t.old (a + rows_offset + row_length * r) (op ∷ target ∷ left ∷ right ∷ eight_bytes operand) }
{
    let k = a + ROWS_OFFSET + ROW_LENGTH * r;
    t[k] = op;
    t[k + 1] = target as u8;
    t[k + 2] = left as u8;
    t[k + 3] = right as u8;
    put_eight(t, k + 4, operand);
}

// Phi entry k, a register.
pub fn put_entry(t: &mut [u8], a: usize, k: usize, register: usize)
    requires { (InTable t.old a) × (k < max_entries) × (register < 256) }
    ensures { t.new ≡ sets t.old (a + entries_offset + k) (register ∷ []) }
{
    t[a + ENTRIES_OFFSET + k] = register as u8;
}
