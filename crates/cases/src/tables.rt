// Tables: cells put into one, one compared with the cells it must have, and one with anything in the cells that are not needed. Texts compared.
ghost use Rattle.std.specs.Prelude.{◌<◌};

use crate::files::{say, say_number};
use std::io::Print;

// A cell more than a table has.
pub const ROOM: usize = table::TABLE_LENGTH + 1;

// The cells of a list, four bytes each: the place in three bytes, low first, and the value.
pub(crate) fn put_cells(t: &mut [u8], cells: &[u8]) {
    let n = cells.len() / 4;
    let mut i = 0;
    while i < n {
        put_cell(t, numbers::four_at(cells, 4 * i));
        i += 1;
    }
}

fn put_cell(t: &mut [u8], cell: usize) {
    put(t, cell % 16777216, (cell / 16777216 % 256) as u8);
}

fn put(t: &mut [u8], k: usize, v: u8) {
    if k < t.len() {
        t[k] = v;
    }
}

// Every cell of an output that is lent holds 255 before.
pub(crate) fn poison(t: &mut [u8]) {
    let mut i = 0;
    while i < t.len() {
        t[i] = 255;
        i += 1;
    }
}

// Where an output differs first from what it must be, or how long it is.
fn differing(out: &[u8], want: &[u8]) -> usize {
    let mut i = 0;
    while i < out.len() {
        if want.len() <= i {
            return i;
        }
        if out[i] != want[i] {
            return i;
        }
        i += 1;
    }
    i
}

// Whether the output has these cells, and 0 in all others.
pub(crate) fn compare(rt: &impl Print, out: &[u8], cells: &[u8]) {
    let mut want = [0u8; ROOM];
    put_cells(&mut want, cells);
    let k = differing(out, &want);
    if k == out.len() {
        say(rt, b", cells right\n");
    } else {
        say_number(rt, b", cells differ at ", k as u64);
        say(rt, b"\n");
    }
}

// Where a text that was written differs first from what it must be, with 0 past it, or how many bytes were lent.
fn differing_text(page: &[u8], want: &[u8]) -> usize {
    let mut i = 0;
    while i < page.len() {
        if page[i] != byte_or_zero(want, i) {
            return i;
        }
        i += 1;
    }
    i
}

fn byte_or_zero(s: &[u8], k: usize) -> u8 {
    if k < s.len() {
        return s[k];
    }
    0
}

// Whether the bytes lent hold this text, and 0 past it.
pub(crate) fn compare_text(rt: &impl Print, page: &[u8], want: &[u8]) {
    let k = differing_text(page, want);
    if k == page.len() {
        say(rt, b", text right\n");
    } else {
        say_number(rt, b", text differs at ", k as u64);
        say(rt, b"\n");
    }
}

// A fixed pseudo-random sequence.
fn following(x: usize) -> usize
    requires { x < 4294967296 }
    ensures { result < 4294967296 }
{
    (x * 1664525 + 1013904223) % 4294967296
}

// The cells from a up to e hold the sequence's next numbers.
fn scatter(t: &mut [u8], a: usize, e: usize, seed: usize) -> usize
    requires { seed < 4294967296 }
    ensures { result < 4294967296 }
{
    let mut x = seed;
    let mut k = a;
    while k < e {
        x = following(x);
        put(t, k, (x / 65536 % 256) as u8);
        k += 1;
    }
    x
}

// The gaps between the cells that are needed, eight bytes each: where it begins and where it ends.
pub(crate) fn fill_gaps(t: &mut [u8], gaps: &[u8], seed: u64) {
    let n = gaps.len() / 8;
    let mut x = (seed % 4294967296) as usize;
    let mut i = 0;
    while i < n {
        let a = numbers::four_at(gaps, 8 * i);
        let e = numbers::four_at(gaps, 8 * i + 4);
        x = scatter(t, a, e, x);
        i += 1;
    }
}
