// The blocks that are kept: their rows but the phi, with the blocks that a terminator names renamed.
ghost use Rattle.std.specs.Prelude.{◌≡◌, ◌++◌, ◌+◌, ◌*◌, ◌<◌, length};
ghost use Rattle.std.proofs.lemmas.List.Edits.{sets};
ghost use Rattle.language.specs.Programs.{first_row, max_rows, max_blocks};
ghost use Rattle.language.specs.Table.{two_bytes, block_count, row_op, decode_function, InTable, block_length, blocks_offset, function_at, row_length, rows_offset, table_length};
ghost use Rattle.instructions.specs.Shapes.{shape_of};
ghost use Rattle.flow.specs.Layout.{flow_length};
ghost use Rattle.flow.specs.Prepared.{Prepared};
ghost use Rattle.translator.specs.Source.{TranslatableAt, Planned, translated, built, Naming, kept_operand, kept_cells, KeptRows};

use crate::prepared::renamed;
use flow::phis;
use instructions::{operands, shape_of};
use numbers::put_two;
use table::{
    BLOCK_LENGTH, BLOCK_NAMES_OFFSET, BLOCK_ROWS_OFFSET, BLOCKS_OFFSET, FIRST_FUNCTION,
    block_count, block_first, block_name, block_rows, jump_first, jump_second, load_number,
    put_name, put_row, row_left, row_op, row_right, row_target,
};

// The cells of the translation's first block, the one function of its table: where its rows begin, their count, its name.
const PLACES: usize = FIRST_FUNCTION + BLOCKS_OFFSET;

const HEIGHTS: usize = FIRST_FUNCTION + BLOCK_ROWS_OFFSET;

const NAMES: usize = FIRST_FUNCTION + BLOCK_NAMES_OFFSET;

// The operand of row r of block x, by its kind: a load's number, or the blocks that are named, renamed.
fn operand(t: &[u8], a: usize, m: &[u16], plan: &[u16], x: usize, r: usize, kind: u8) -> u64
    requires in_table { (InTable t.now a) × (length m.now ≡ flow_length) × (length plan.now ≡ max_blocks) × (r < max_rows) }
    requires naming { Naming t.now a r kind }
    ensures { result ≡ kept_operand t.now a m.now plan.now x r kind }
{
    match kind {
        operands::NUMBER => load_number(t, a, r),
        operands::BLOCK => renamed(t, a, m, plan, x, jump_first(t, a, r)) as u64,
        operands::BLOCKS => {
            let y = renamed(t, a, m, plan, x, jump_first(t, a, r));
            let z = renamed(t, a, m, plan, x, jump_second(t, a, r));
            (y + 256 * z) as u64
        }
        _ => 0,
    }
}

// Row k of the translation, from row r of block x: the cells that its form needs, every other 0.
fn keep_row(
    t: &[u8],
    a: usize,
    m: &[u16],
    plan: &[u16],
    x: usize,
    r: usize,
    out: &mut [u8],
    k: usize,
)
    requires in_table { (InTable t.now a) × (length m.now ≡ flow_length) × (length plan.now ≡ max_blocks) × (r < max_rows) }
    requires naming { Naming t.now a r (shape_of (row_op t.now a r)).operand }
    requires out_len { (length out.old ≡ table_length) × (k < max_rows) }
    ensures { out.new ≡ sets out.old (function_at 0 + rows_offset + row_length * k) (kept_cells t.now a m.now plan.now x r) }
{
    let op = row_op(t, a, r);
    let shape = shape_of(op);
    let sources = shape.sources;
    let two = 1 < sources;
    let target = if shape.target { row_target(t, a, r) } else { 0 };
    let left = if 0 < sources { row_left(t, a, r) } else { 0 };
    let right = if two { row_right(t, a, r) } else { 0 };
    let last = operand(t, a, m, plan, x, r, shape.operand);
    put_row(out, 1, k, op, target, left, right, last);
}

// The n rows of block x from row r on, as rows k and on.
fn keep_rows(
    t: &[u8],
    a: usize,
    m: &[u16],
    plan: &[u16],
    x: usize,
    r: usize,
    n: usize,
    out: &mut [u8],
    k: usize,
)
    requires translatable_at { TranslatableAt t.now a }
    requires prepared { Prepared (decode_function t.now a) m.now }
    requires planned { Planned (decode_function t.now a) plan.now }
    requires kept_rows { KeptRows t.now a m.now x r n k }
    requires out_value { out.old ≡ built t.now a (x + 1) k }
    ensures { out.new ≡ built t.now a (x + 1) (k + n) }
{
    for i in 0..n {
        keep_row(t, a, m, plan, x, r + i, out, k + i);
    }
}

// Where the rows of block b of the translation begin, and how many there are.
pub fn put_place(out: &mut [u8], b: usize, first: usize, rows: usize)
    requires { (length out.old ≡ table_length) × (b < max_blocks) }
    ensures { out.new ≡ sets out.old (function_at 0 + blocks_offset + block_length * b) (two_bytes first ++ two_bytes rows) }
{
    put_two(out, PLACES + BLOCK_LENGTH * b, first);
    put_two(out, HEIGHTS + BLOCK_LENGTH * b, rows);
}

// Block x without its phi, its rows from row k on; the row behind it.
fn keep_block(
    t: &[u8],
    a: usize,
    m: &[u16],
    plan: &[u16],
    x: usize,
    out: &mut [u8],
    k: usize,
) -> usize
    requires translatable_at { TranslatableAt t.now a }
    requires prepared { Prepared (decode_function t.now a) m.now }
    requires planned { Planned (decode_function t.now a) plan.now }
    requires x_bound { (x < block_count t.now a) × (k ≡ first_row (translated t.now a) x) × (out.old ≡ built t.now a x k) }
    ensures { (result ≡ first_row (translated t.now a) (x + 1)) × (out.new ≡ built t.now a (x + 1) result) }
{
    let p = phis(m, x);
    let n = block_rows(t, a, x) - p;
    put_place(out, x, k, n);
    put_name(out, NAMES + BLOCK_LENGTH * x, block_name(t, a, x));
    keep_rows(t, a, m, plan, x, block_first(t, a, x) + p, n, out, k);
    k + n
}

// All blocks; the row behind them.
pub fn keep_blocks(t: &[u8], a: usize, m: &[u16], plan: &[u16], out: &mut [u8]) -> usize
    requires translatable_at { TranslatableAt t.now a }
    requires prepared { Prepared (decode_function t.now a) m.now }
    requires planned { Planned (decode_function t.now a) plan.now }
    requires out_value { out.old ≡ built t.now a 0 0 }
    ensures { (result ≡ first_row (translated t.now a) (block_count t.now a)) × (out.new ≡ built t.now a (block_count t.now a) result) }
{
    let n = block_count(t, a);
    let mut k = 0;
    for x in 0..n {
        k = keep_block(t, a, m, plan, x, out, k);
    }
    k
}
