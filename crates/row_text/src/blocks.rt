// Blocks: a head, the rows, a `}`.
ghost use Rattle.std.specs.Prelude.{◌≡◌, ◌<◌};
ghost use Rattle.laws.specs.Lists.{gather};
ghost use Rattle.language.specs.Programs.{block_at};
ghost use Rattle.language.specs.Table.{block_count};
ghost use Rattle.language.specs.Writing.{block_lines, line_bytes};
ghost use Rattle.page.specs.Page.{page, puts};
ghost use Rattle.row_text.specs.Ready.{TextReady, titled};

use crate::rows::put_rows;
use instructions::words;
use page::put_part;
use table::{block_count, block_first, block_rows};
use token_text::{put_block, put_word};

// The lines of block b.
fn put_block_lines(
    t: &[u8],
    a: usize,
    registers: &[u16],
    blocks: &[u16],
    b: usize,
    out: &mut [u8],
    at: usize,
) -> usize
    requires { TextReady t.now a registers.now blocks.now × (b < block_count t.now a) }
    ensures { page out.new result ≡ puts (page out.old at) (gather line_bytes (block_lines (titled t.now a) (block_at (titled t.now a) b))) }
{
    let e = put_word(words::BLOCK, out, at);
    let f = put_block(t, a, blocks, b, out, e);
    let g = put_part(out, f, b"{\n");
    let h = put_rows(
        t,
        a,
        registers,
        blocks,
        block_first(t, a, b),
        block_rows(t, a, b),
        out,
        g,
    );
    put_part(out, h, b"}\n")
}

// The lines of all blocks, in order.
pub fn put_blocks(
    t: &[u8],
    a: usize,
    registers: &[u16],
    blocks: &[u16],
    out: &mut [u8],
    at: usize,
) -> usize
    requires { TextReady t.now a registers.now blocks.now }
    ensures { page out.new result ≡ puts (page out.old at) (gather line_bytes (gather (block_lines (titled t.now a)) (titled t.now a).blocks)) }
{
    let n = block_count(t, a);
    let mut e = at;
    for b in 0..n {
        e = put_block_lines(t, a, registers, blocks, b, out, e);
    }
    e
}
