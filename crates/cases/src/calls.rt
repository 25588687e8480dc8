// One call of the library for each kind of record, with what it answers and whether all that was lent is as it must be.
use crate::files::{say, say_number};
use crate::records::{Record, least, numbers, part};
use crate::saying::{say_ran, say_verdict, say_wrote};
use crate::tables::{compare, compare_text, poison};
use calling::{LISTING_MOST, list_text};
use loading::upto;
use std::io::Print;

// The registers that are lent, more than a function may have.
const CELLS: usize = 300;

// The bytes that are lent for a text, more than a text may have.
const PAGE: usize = 65600;

// Reads a text.
pub(crate) fn read(rt: &impl Print, s: &[u8], r: Record, t: &mut [u8]) {
    poison(t);
    let n = least(r.lent, t.len());
    let v = ial::read(part(s, r.given_at, r.given_len), &mut t[..n]);
    say_verdict(rt, v, b"read");
    compare(rt, upto(t, n), part(s, r.want_at, r.want_len));
}

// Lists a text.
pub(crate) fn list(rt: &impl Print, s: &[u8], r: Record) {
    let mut lines = [0u8; LISTING_MOST];
    let k = list_text(part(s, r.given_at, r.given_len), &mut lines);
    say(rt, upto(&lines, k));
}

// Checks the source table.
pub(crate) fn check(rt: &impl Print, r: Record, t: &[u8]) {
    say_verdict(rt, ial::check(upto(t, r.source)), b"accepted");
    say(rt, b"\n");
}

// Translates a function of the source table.
pub(crate) fn translate(rt: &impl Print, s: &[u8], r: Record, t: &[u8], out: &mut [u8]) {
    poison(out);
    let n = least(r.lent, out.len());
    let v = ial::translate(upto(t, r.source), r.function, &mut out[..n]);
    say_verdict(rt, v, b"translated");
    compare(rt, upto(out, n), part(s, r.want_at, r.want_len));
}

// Where two lists of registers differ first, or how many there are.
fn differing(a: &[u64], b: &[u64]) -> usize {
    let mut i = 0;
    while i < a.len() {
        if b.len() <= i {
            return i;
        }
        if a[i] != b[i] {
            return i;
        }
        i += 1;
    }
    i
}

// Whether the registers are those named, and 0 past them.
fn compare_registers(rt: &impl Print, registers: &[u64], named: &[u8]) {
    let mut want = [0u64; CELLS];
    numbers(named, &mut want);
    let k = differing(registers, &want);
    if k == registers.len() {
        say(rt, b", registers right\n");
    } else {
        say_number(rt, b", registers differ at ", k as u64);
        say(rt, b"\n");
    }
}

// Runs a function of a table, and lends these registers.
fn run_on(rt: &impl Print, s: &[u8], r: Record, t: &[u8], args: &[u64], registers: &mut [u64]) {
    let answer = ial::run(upto(t, r.source), r.function, args, r.budget, registers);
    say_ran(rt, answer);
    compare_registers(rt, registers, part(s, r.want_at, r.want_len));
}

// The same, with the arguments that are given, and as many registers as are lent.
fn run_with(
    rt: &impl Print,
    s: &[u8],
    r: Record,
    t: &[u8],
    args: &mut [u64],
    registers: &mut [u64],
) {
    let k = numbers(part(s, r.given_at, r.given_len), args);
    let n = least(r.lent, registers.len());
    run_on(rt, s, r, t, &args[..k], &mut registers[..n]);
}

// The same, where every register cell holds 85 before.
pub(crate) fn run(rt: &impl Print, s: &[u8], r: Record, t: &[u8]) {
    let mut args = [0u64; CELLS];
    let mut registers = [85u64; CELLS];
    run_with(rt, s, r, t, &mut args, &mut registers);
}

// Writes a table as text, into as many bytes as are lent.
fn write_into(rt: &impl Print, s: &[u8], r: Record, t: &[u8], page: &mut [u8]) {
    let n = least(r.lent, page.len());
    let w = ial::write(upto(t, r.source), &mut page[..n]);
    say_wrote(rt, w);
    compare_text(rt, upto(page, n), part(s, r.want_at, r.want_len));
}

// The same, where every byte that is lent holds 255 before.
pub(crate) fn write(rt: &impl Print, s: &[u8], r: Record, t: &[u8]) {
    let mut page = [255u8; PAGE];
    write_into(rt, s, r, t, &mut page);
}
