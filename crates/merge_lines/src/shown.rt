// A line as it is shown: a record of a store, and how many were merged.
ghost use Rattle.std.specs.Prelude.{[], ◌∷◌, ◌+◌, ◌≤◌, length};
ghost use Rattle.language.specs.Bytes.{bytes_of};
ghost use Rattle.language.specs.Listing.{line, refused_line};
ghost use Rattle.decimal.specs.Writing.{Written};
ghost use Rattle.merge_lines.specs.Lines.{field_shown, reading_shown, verdict_shown, record_line, record_most};

use decimal::{LINE_FEED, MINUS, TAB, of_bits, put_digits, types};
use numbers::put_bytes;
use records::Record;

// The verdict, and the line's end.
fn put_verdict(fail: u64, out: &mut [u8], at: usize) -> usize
    requires { at + 6 ≤ length out.old }
    ensures { Written out.old at (verdict_shown fail) out.new result × (result ≤ at + 6) }
{
    if fail == 0 {
        put_bytes(out, at, b"\tpass\n");
        return at + 6;
    }
    put_bytes(out, at, b"\tfail\n");
    at + 6
}

// A number and a tab.
fn put_column(n: u64, out: &mut [u8], at: usize) -> usize
    requires { at + 21 ≤ length out.old }
    ensures { Written out.old at (field_shown n) out.new result × (result ≤ at + 21) }
{
    let e = put_digits(n, out, at);
    out[e] = TAB;
    e + 1
}

// A reading by meaning.
fn put_reading(x: u64, out: &mut [u8], at: usize) -> usize
    requires { at + 21 ≤ length out.old }
    ensures { Written out.old at (reading_shown x) out.new result × (result ≤ at + 21) }
{
    let m = of_bits(types::INT64, x);
    if !m.negative {
        return put_digits(m.magnitude, out, at);
    }
    out[at] = MINUS;
    put_digits(m.magnitude, out, at + 1)
}

// The line of a record.
pub fn put_record(r: Record, out: &mut [u8], at: usize) -> usize
    requires { at + record_most ≤ length out.old }
    ensures { Written out.old at (record_line r) out.new result × (result ≤ at + record_most) }
{
    let e = put_column(r.appliance, out, at);
    let f = put_column(r.time, out, e);
    let g = put_column(r.tablet, out, f);
    let h = put_reading(r.reading, out, g);
    put_verdict(r.fail, out, h)
}

// `merged`, how many.
pub fn put_merged(n: u64, out: &mut [u8]) -> usize
    requires { 28 ≤ length out.old }
    ensures { Written out.old 0 (line (bytes_of "merged") (n ∷ [])) out.new result × (result ≤ 28) }
{
    put_bytes(out, 0, b"merged\t");
    let e = put_digits(n, out, 7);
    out[e] = LINE_FEED;
    e + 1
}

// `refused`, a refusal's number and its place.
pub fn put_refused(number: u64, place: u64, out: &mut [u8]) -> usize
    requires { 50 ≤ length out.old }
    ensures { Written out.old 0 (refused_line number place) out.new result × (result ≤ 50) }
{
    put_bytes(out, 0, b"refused\t");
    let e = put_column(number, out, 8);
    let f = put_digits(place, out, e);
    out[f] = LINE_FEED;
    f + 1
}
