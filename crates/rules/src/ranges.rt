// 9 of a row: "number outside its range". Only the cells that the row's instruction needs are looked at.
ghost use Rattle.std.specs.Prelude.{◌≡◌, map, ◌+◌, ◌<◌, ◌≤◌, ltb};
ghost use Rattle.laws.specs.Lists.{all, from};
ghost use Rattle.language.specs.Instructions.{Form, form_of, form_number, phi_op};
ghost use Rattle.language.specs.Table.{register_count, block_count, row_op, phi_first, phi_count, phi_entry, decode_as, decode_row, decode_function, InTable};
ghost use Rattle.language.specs.Checking.{in_range};
ghost use Rattle.language.specs.Programs.{max_rows, max_entries};

use crate::entries::entries_pass;
use instructions::{forms, load_type, number_fits, shape_of};
use table::{
    jump_first, jump_second, load_number, phi_count, phi_first, row_left, row_op, row_right,
    row_target,
};

// The number of the form in which an instruction is written.
pub fn form_of(op: u8) -> u8
    ensures { result ≡ form_number (form_of op) }
{
    let shape = shape_of(op);
    shape.form
}

// The same test of a row of each form.

fn load_in_range(t: &[u8], a: usize, registers: usize, k: usize, op: u8) -> bool
    requires in_table { (InTable t.now a) × (registers ≡ register_count t.now a) × (k < max_rows) }
    requires op_value { (op ≡ row_op t.now a k) × (form_of op ≡ Form.load) }
    ensures { result ≡ in_range (decode_function t.now a) (decode_as Form.load t.now a k) }
{
    (row_target(t, a, k) < registers) & number_fits(load_number(t, a, k), load_type(op))
}

fn unary_in_range(t: &[u8], a: usize, registers: usize, k: usize) -> bool
    requires in_table { (InTable t.now a) × (registers ≡ register_count t.now a) × (k < max_rows) }
    requires k_value { form_of (row_op t.now a k) ≡ Form.unary }
    ensures { result ≡ in_range (decode_function t.now a) (decode_as Form.unary t.now a k) }
{
    (row_target(t, a, k) < registers) & (row_left(t, a, k) < registers)
}

fn binary_in_range(t: &[u8], a: usize, registers: usize, k: usize) -> bool
    requires in_table { (InTable t.now a) × (registers ≡ register_count t.now a) × (k < max_rows) }
    requires k_value { form_of (row_op t.now a k) ≡ Form.binary }
    ensures { result ≡ in_range (decode_function t.now a) (decode_as Form.binary t.now a k) }
{
    (row_target(t, a, k) < registers)
        & (row_left(t, a, k) < registers)
        & (row_right(t, a, k) < registers)
}

fn phi_in_range(t: &[u8], a: usize, registers: usize, k: usize) -> bool
    requires in_table { (InTable t.now a) × (registers ≡ register_count t.now a) × (k < max_rows) }
    requires k_bound { phi_first t.now a k + phi_count t.now a k ≤ max_entries }
    ensures { result ≡ in_range (decode_function t.now a) (decode_as Form.phi t.now a k) }
{
    (row_target(t, a, k) < registers)
        & entries_pass(
            t,
            a,
            phi_first(t, a, k),
            phi_count(t, a, k),
            |u| u < registers,
        )
}

// Kept, plainer: `jump_in_range` and `return_in_range` are a comparison each, of another cell with another count, and promise it of another form.
fn jump_in_range(t: &[u8], a: usize, blocks: usize, k: usize) -> bool
    requires { (InTable t.now a) × (blocks ≡ block_count t.now a) × (k < max_rows) }
    ensures { result ≡ in_range (decode_function t.now a) (decode_as Form.jump t.now a k) }
{
    jump_first(t, a, k) < blocks
}

fn branch_in_range(t: &[u8], a: usize, registers: usize, blocks: usize, k: usize) -> bool
    requires { (InTable t.now a) × (registers ≡ register_count t.now a) × (blocks ≡ block_count t.now a) × (k < max_rows) }
    ensures { result ≡ in_range (decode_function t.now a) (decode_as Form.branch t.now a k) }
{
    (row_left(t, a, k) < registers)
        & (jump_first(t, a, k) < blocks)
        & (jump_second(t, a, k) < blocks)
}

fn return_in_range(t: &[u8], a: usize, registers: usize, k: usize) -> bool
    requires { (InTable t.now a) × (registers ≡ register_count t.now a) × (k < max_rows) }
    ensures { result ≡ in_range (decode_function t.now a) (decode_as Form.return t.now a k) }
{
    row_left(t, a, k) < registers
}

// Row k of the function at cell a has no number outside its range. The function's two counts are handed in, since every row
// is tested against them.
pub fn in_range(t: &[u8], a: usize, registers: usize, blocks: usize, k: usize) -> bool
    requires in_table { (InTable t.now a) × (registers ≡ register_count t.now a) × (blocks ≡ block_count t.now a) × (k < max_rows) }
    requires k_bound { row_op t.now a k ≡ phi_op → phi_first t.now a k + phi_count t.now a k ≤ max_entries }
    ensures { result ≡ in_range (decode_function t.now a) (decode_row t.now a k) }
{
    let op = row_op(t, a, k);
    let form = form_of(op);
    match form {
        forms::NOP => true,
        forms::LOAD => load_in_range(t, a, registers, k, op),
        forms::UNARY => unary_in_range(t, a, registers, k),
        forms::BINARY => binary_in_range(t, a, registers, k),
        forms::PHI => phi_in_range(t, a, registers, k),
        forms::JUMP => jump_in_range(t, a, blocks, k),
        forms::BRANCH => branch_in_range(t, a, registers, blocks, k),
        forms::RETURN => return_in_range(t, a, registers, k),
        forms::LEAVE => true,
        _ => false,
    }
}
