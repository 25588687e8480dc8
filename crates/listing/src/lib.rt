// The lines that a program prints: "a line for each function, tabs between: name, ssa, registers, blocks, instructions; or
// `refused`, number, place." They go into a lent buffer; whoever prints them writes the bytes up to the place that is answered.
#![tactic(auto)]

ghost use Rattle.std.specs.Prelude.{◌∷◌, ◌≡◌, ◌+◌, ◌<◌, ◌≤◌, length};
ghost use Rattle.language.specs.Checking.{Verdict, check};
ghost use Rattle.language.specs.Listing.{tab, digits, function_line, listing_of, refused_line};
ghost use Rattle.language.specs.Programs.{rows_of};
ghost use Rattle.language.specs.Table.{decode_function, decode, InTable, table_length};
ghost use Rattle.theorems.specs.TableLaw.{FunctionFits};
ghost use Rattle.decimal.specs.Writing.{Written};
ghost use Rattle.listing.specs.Lines.{sizes_most, line_most, listing_most, refusal_most, sizes_written};

use decimal::{LINE_FEED, TAB, put_digits};
use numbers::put_bytes;
use table::{
    MAX_FUNCTIONS, MAX_NAME, block_count, block_first, block_rows, function_at, function_count,
    function_name, function_ssa, register_count,
};
use token_text::put_spelling;

// How many bytes a name's spelling takes at most, a number with its tab, a function's line, and the lines of all functions: `Lines` says the same.
const SPELLING_MOST: usize = 2 * MAX_NAME + 2;

const FIELD_MOST: usize = 21;

const LINE_MOST: usize = SPELLING_MOST + 4 * FIELD_MOST + 1;

pub const LISTING_MOST: usize = MAX_FUNCTIONS * LINE_MOST;

// A tab and a number.
pub fn put_field(n: u64, out: &mut [u8], at: usize) -> usize
    requires { at + 21 ≤ length out.old }
    ensures { Written out.old at (tab ∷ digits n) out.new result × (result ≤ at + 21) }
{
    out[at] = TAB;
    put_digits(n, out, at + 1)
}

// How many rows a function has: its last block begins after those of all others.
fn row_count(t: &[u8], a: usize) -> usize
    requires { (InTable t.now a) × FunctionFits (decode_function t.now a) }
    ensures { (result ≡ length (rows_of (decode_function t.now a))) × (result < 131072) }
{
    let n = block_count(t, a);
    if n == 0 {
        return 0;
    }
    let last = n - 1;
    block_first(t, a, last) + block_rows(t, a, last)
}

// "registers, blocks, instructions", and the line's end.
fn put_sizes(t: &[u8], a: usize, out: &mut [u8], at: usize) -> usize
    requires { (InTable t.now a) × FunctionFits (decode_function t.now a) × (at + sizes_most ≤ length out.old) }
    ensures { Written out.old at (sizes_written (decode_function t.now a)) out.new result × (result ≤ at + sizes_most) }
{
    let e = put_field(register_count(t, a) as u64, out, at);
    let f = put_field(block_count(t, a) as u64, out, e);
    let g = put_field(row_count(t, a) as u64, out, f);
    out[g] = LINE_FEED;
    g + 1
}

// The line of the function at cell a.
fn put_line(t: &[u8], a: usize, out: &mut [u8], at: usize) -> usize
    requires { (InTable t.now a) × FunctionFits (decode_function t.now a) × (at + line_most ≤ length out.old) × (at + line_most ≤ listing_most) }
    ensures { Written out.old at (function_line (decode_function t.now a)) out.new result × (result ≤ at + line_most) }
{
    let e = put_spelling(function_name(t, a), out, at);
    let f = put_field(function_ssa(t, a) as u64, out, e);
    put_sizes(t, a, out, f)
}

// The lines of an accepted table, from the buffer's beginning on.
pub fn list_program(t: &[u8], out: &mut [u8]) -> usize
    requires { (length t.now ≡ table_length) × (check (decode t.now) ≡ Verdict.accepted) × (listing_most ≤ length out.old) }
    ensures { Written out.old 0 (listing_of (decode t.now)) out.new result × (result ≤ listing_most) }
{
    let mut at = 0;
    for i in 0..function_count(t) {
        at = put_line(t, function_at(i), out, at);
    }
    at
}

// The one line of a refusal.
pub fn list_refusal(number: u8, place: usize, out: &mut [u8]) -> usize
    requires { refusal_most ≤ length out.old }
    ensures { Written out.old 0 (refused_line number place) out.new result × (result ≤ refusal_most) }
{
    put_bytes(out, 0, b"refused");
    let e = put_field(number as u64, out, 7);
    let f = put_field(place as u64, out, e);
    out[f] = LINE_FEED;
    f + 1
}
