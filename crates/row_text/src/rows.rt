// Rows: "optional target and `=`, instruction word, source registers parted by commas, optional operand in parentheses, `;`".
ghost use Rattle.std.specs.Prelude.{◌≡◌, ◌+◌, ◌<◌, ◌≤◌};
ghost use Rattle.laws.specs.Lists.{gather, from};
ghost use Rattle.language.specs.Programs.{targets_of, sources_of};
ghost use Rattle.language.specs.Table.{row_count, row_op, decode_row};
ghost use Rattle.language.specs.Writing.{target_part, registers_part, row_line, line_bytes};
ghost use Rattle.instructions.specs.Shapes.{shape_of};
ghost use Rattle.page.specs.Page.{page, puts};
ghost use Rattle.token_text.specs.Spaced.{spaced};
ghost use Rattle.row_text.specs.Ready.{TextReady, titled};

use crate::operands::put_operand;
use instructions::{shape_of, words};
use page::put_part;
use table::{row_left, row_op, row_right, row_target};
use token_text::{put_register, put_word};

// The target and `=` of a row that has one.
fn put_target(
    t: &[u8],
    a: usize,
    registers: &[u16],
    blocks: &[u16],
    r: usize,
    present: bool,
    out: &mut [u8],
    at: usize,
) -> usize
    requires { TextReady t.now a registers.now blocks.now × (r < row_count t.now a) × (present ≡ (shape_of (row_op t.now a r)).target) }
    ensures { page out.new result ≡ puts (page out.old at) (spaced (target_part (titled t.now a) (targets_of (decode_row t.now a r)))) }
{
    if !present {
        return at;
    }
    let e = put_register(t, a, registers, row_target(t, a, r), out, at);
    put_part(out, e, b"= ")
}

// The source registers, as many as the row has.
fn put_sources(
    t: &[u8],
    a: usize,
    registers: &[u16],
    blocks: &[u16],
    r: usize,
    count: u8,
    out: &mut [u8],
    at: usize,
) -> usize
    requires { TextReady t.now a registers.now blocks.now × (r < row_count t.now a) × (count ≡ (shape_of (row_op t.now a r)).sources) }
    ensures { page out.new result ≡ puts (page out.old at) (spaced (registers_part (titled t.now a) (sources_of (decode_row t.now a r)))) }
{
    if count == 0 {
        return at;
    }
    let left = row_left(t, a, r);
    let right = row_right(t, a, r);
    let e = put_register(t, a, registers, left, out, at);
    if count == 1 {
        return e;
    }
    let f = put_part(out, e, b", ");
    put_register(t, a, registers, right, out, f)
}

// The line of row r.
fn put_row(
    t: &[u8],
    a: usize,
    registers: &[u16],
    blocks: &[u16],
    r: usize,
    out: &mut [u8],
    at: usize,
) -> usize
    requires { TextReady t.now a registers.now blocks.now × (r < row_count t.now a) }
    ensures { page out.new result ≡ puts (page out.old at) (line_bytes (row_line (titled t.now a) (decode_row t.now a r))) }
{
    let op = row_op(t, a, r);
    let s = shape_of(op);
    let e = put_target(t, a, registers, blocks, r, s.target, out, at);
    let f = put_word(words::FIRST_INSTRUCTION + op, out, e);
    let g = put_sources(t, a, registers, blocks, r, s.sources, out, f);
    let h = put_operand(t, a, registers, blocks, r, s.operand, out, g);
    put_part(out, h, b";\n")
}

// The lines of so many rows.
pub fn put_rows(
    t: &[u8],
    a: usize,
    registers: &[u16],
    blocks: &[u16],
    first: usize,
    count: usize,
    out: &mut [u8],
    at: usize,
) -> usize
    requires { TextReady t.now a registers.now blocks.now × (first + count ≤ row_count t.now a) }
    ensures { page out.new result ≡ puts (page out.old at) (gather (λ r. line_bytes (row_line (titled t.now a) (decode_row t.now a r))) (from first count)) }
{
    let mut e = at;
    for i in 0..count {
        e = put_row(t, a, registers, blocks, first + i, out, e);
    }
    e
}
