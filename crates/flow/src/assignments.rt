// Where each register is first assigned.
ghost use Rattle.std.specs.Prelude.{◌≡◌, ◌+◌, ◌<◌, length};
ghost use Rattle.language.specs.Programs.{targets_of, max_registers, max_blocks, max_rows};
ghost use Rattle.language.specs.Table.{block_count, block_first, block_rows, row_count, decode_row, decode_function, InTable};
ghost use Rattle.flow.specs.Layout.{flow_length};
ghost use Rattle.flow.specs.Sized.{Preparable};
ghost use Rattle.flow.specs.Assignments.{Noted, with_note, with_notes};

use crate::layout::HOMES_OFFSET;
use instructions::{is_terminator, ops};
use table::{MAX_REGISTERS, block_count, block_first, block_rows, row_op, row_target};

// Row k of block b assigns register u.
fn note(m: &mut [u16], u: usize, b: usize, k: usize)
    requires { (length m.old ≡ flow_length) × (u < max_registers) × (b < max_blocks) × (k < max_rows) }
    ensures { m.new ≡ with_note m.old u b k }
{
    if m[u] != 0 {
        return;
    }
    m[u] = (k + 1) as u16;
    m[HOMES_OFFSET + u] = b as u16;
}

// Row k of block b is noted for the register that it assigns; only `nop`, the terminators and what is no instruction have none.
fn note_row(t: &[u8], a: usize, m: &mut [u16], b: usize, k: usize)
    requires { (InTable t.now a) × (length m.old ≡ flow_length) × (b < max_blocks) × (k < max_rows) }
    ensures { m.new ≡ with_notes m.old b k (targets_of (decode_row t.now a k)) }
{
    let op = row_op(t, a, k);
    if op == ops::NOP {
        return;
    }
    if is_terminator(op) {
        return;
    }
    note(m, row_target(t, a, k), b, k);
}

// The rows of block b.
fn note_rows(t: &[u8], a: usize, m: &mut [u16], b: usize)
    requires { Preparable t.now a × (b < block_count t.now a) × Noted (decode_function t.now a) m.old (block_first t.now a b) }
    ensures { Noted (decode_function t.now a) m.new (block_first t.now a b + block_rows t.now a b) }
{
    let first = block_first(t, a, b);
    let rows = block_rows(t, a, b);
    for j in 0..rows {
        note_row(t, a, m, b, first + j);
    }
}

// The rows of all blocks, whatever stood in m before.
pub fn prepare_assignments(t: &[u8], a: usize, m: &mut [u16])
    requires { Preparable t.now a × (length m.old ≡ flow_length) }
    ensures { Noted (decode_function t.now a) m.new (row_count t.now a) }
{
    m[..MAX_REGISTERS].fill(0);
    for b in 0..block_count(t, a) {
        note_rows(t, a, m, b);
    }
}
