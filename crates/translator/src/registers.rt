// The head of a translation, and its registers: what is kept in order, then one for each phi by row.
ghost use Rattle.std.specs.Prelude.{◌≡◌, ◌+◌, ◌≤◌, ◌<◌, length};
ghost use Rattle.std.proofs.lemmas.List.Edits.{sets};
ghost use Rattle.language.specs.Table.{block_count, function_name, register_count, decode_function, InTable, table_length};
ghost use Rattle.language.specs.Translating.{new_register};
ghost use Rattle.flow.specs.Layout.{phis_in};
ghost use Rattle.flow.specs.Prepared.{Prepared};
ghost use Rattle.translator.specs.Source.{TranslatableAt, head_of, declared, built};

use flow::phis;
use numbers::put_two;
use table::{
    BLOCK_COUNT_OFFSET, ENTRY_OFFSET, FIRST_FUNCTION, FUNCTION_NAMES_OFFSET, PARAMS_OFFSET,
    REGISTER_COUNT_OFFSET, REGISTER_LENGTH, REGISTERS_OFFSET, RESULT_OFFSET, block_count,
    block_first, function_entry, function_name, function_params, function_result, put_name,
    put_register, register_count, register_name, register_type, row_target,
};

// The cell of the type of the translation's first register.
const TYPES: usize = FIRST_FUNCTION + REGISTERS_OFFSET;

// The cells of its head.
const RESULT: usize = FIRST_FUNCTION + RESULT_OFFSET;

const PARAMS: usize = FIRST_FUNCTION + PARAMS_OFFSET;

const REGISTERS: usize = FIRST_FUNCTION + REGISTER_COUNT_OFFSET;

const BLOCKS: usize = FIRST_FUNCTION + BLOCK_COUNT_OFFSET;

const ENTRY: usize = FIRST_FUNCTION + ENTRY_OFFSET;

// The function count and the head: not marked ssa, else as it was but for its counts.
pub fn put_head(t: &[u8], a: usize, registers: usize, blocks: usize, out: &mut [u8])
    requires { (InTable t.now a) × (length (function_name t.now a) ≤ 64) × (blocks < 256) × (length out.old ≡ table_length) }
    ensures { out.new ≡ sets out.old 0 (head_of t.now a registers blocks) }
{
    out[0] = 1;
    out[FIRST_FUNCTION] = 0;
    out[RESULT] = function_result(t, a);
    put_two(out, PARAMS, function_params(t, a));
    put_two(out, REGISTERS, registers);
    out[BLOCKS] = blocks as u8;
    out[ENTRY] = function_entry(t, a) as u8;
    put_name(out, FUNCTION_NAMES_OFFSET, function_name(t, a));
}

// The registers that are kept.
pub fn keep_registers(t: &[u8], a: usize, out: &mut [u8])
    requires translatable_at { TranslatableAt t.now a }
    requires out_value { out.old ≡ declared t.now a 0 }
    ensures { out.new ≡ declared t.now a (register_count t.now a) }
{
    let n = register_count(t, a);
    for r in 0..n {
        put_register(
            out,
            FIRST_FUNCTION,
            r,
            register_type(t, a, r),
            register_name(t, a, r),
        );
    }
}

// The new registers of block y, from register n on, with the types of its phi's targets and no names.
fn put_new(t: &[u8], a: usize, m: &[u16], y: usize, n: usize, out: &mut [u8])
    requires translatable_at { TranslatableAt t.now a }
    requires prepared { Prepared (decode_function t.now a) m.now }
    requires y_bound { (y < block_count t.now a) × (n ≡ new_register (decode_function t.now a) y) × (out.old ≡ declared t.now a n) }
    ensures { out.new ≡ declared t.now a (n + phis_in m.now y) }
{
    let p = phis(m, y);
    let first = block_first(t, a, y);
    for i in 0..p {
        out[TYPES + REGISTER_LENGTH * (n + i)] = register_type(t, a, row_target(t, a, first + i));
    }
}

// The new registers of all blocks.
pub fn put_all_new(t: &[u8], a: usize, m: &[u16], out: &mut [u8])
    requires translatable_at { TranslatableAt t.now a }
    requires prepared { Prepared (decode_function t.now a) m.now }
    requires out_value { out.old ≡ declared t.now a (register_count t.now a) }
    ensures { out.new ≡ built t.now a 0 0 }
{
    let blocks = block_count(t, a);
    let mut n = register_count(t, a);
    for y in 0..blocks {
        put_new(t, a, m, y, n, out);
        n += phis(m, y);
    }
}
