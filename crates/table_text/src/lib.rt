// A whole table as text: function by function, each with its head, its registers, its blocks and its closing brace.
#![tactic(auto)]

ghost use Rattle.std.specs.Prelude.{◌≡◌, length};
ghost use Rattle.laws.specs.Lists.{gather};
ghost use Rattle.language.specs.Checking.{Verdict, check};
ghost use Rattle.language.specs.MadeNames.{named_function, written};
ghost use Rattle.language.specs.Table.{decode_function, decode, table_length};
ghost use Rattle.language.specs.Writing.{line_bytes, function_lines};
ghost use Rattle.theorems.specs.Clean.{Clean};
ghost use Rattle.flow.specs.Sized.{Sized};
ghost use Rattle.page.specs.Page.{page, puts};
ghost use Rattle.row_text.specs.Ready.{TextReady};
ghost use Rattle.head_text.specs.Heads.{Declared};

use head_text::{put_head, put_registers};
use naming::{number_blocks, number_registers};
use page::put_part;
use row_text::put_blocks;
use table::{MAX_BLOCKS, MAX_REGISTERS, function_at, function_count};

// All lines of the function at cell a; `registers` and `blocks` hold the numbers of its made names and the flags of the others.
fn put_lines(
    t: &[u8],
    a: usize,
    registers: &[u16],
    blocks: &[u16],
    out: &mut [u8],
    at: usize,
) -> usize
    requires { Declared t.now a × TextReady t.now a registers.now blocks.now }
    ensures { page out.new result ≡ puts (page out.old at) (gather line_bytes (function_lines (named_function (decode_function t.now a)))) }
{
    let head = put_head(t, a, registers, out, at);
    let declared = put_registers(t, a, registers, out, head);
    let body = put_blocks(t, a, registers, blocks, out, declared);
    put_part(out, body, b"}\n")
}

// The text of the function at cell a, with the made names filled in.
fn put_function(t: &[u8], a: usize, out: &mut [u8], at: usize) -> usize
    requires { Sized t.now a × Clean (decode_function t.now a) }
    ensures { page out.new result ≡ puts (page out.old at) (gather line_bytes (function_lines (named_function (decode_function t.now a)))) }
{
    let mut registers = [0u16; MAX_REGISTERS];
    let mut blocks = [0u16; MAX_BLOCKS];
    number_registers(t, a, &mut registers);
    number_blocks(t, a, &mut blocks);
    put_lines(t, a, &registers, &blocks, out, at)
}

// The text of an accepted table.
pub fn put_table(out: &mut [u8], at: usize, t: &[u8]) -> usize
    requires { (length t.now ≡ table_length) × (check (decode t.now) ≡ Verdict.accepted) }
    ensures { page out.new result ≡ puts (page out.old at) (written (decode t.now)) }
{
    let n = function_count(t);
    let mut p = at;
    for i in 0..n {
        p = put_function(t, function_at(i), out, p);
    }
    p
}
