// Bytes put down in a lent buffer at a place, one part after the other. No function asks for room: a byte that has none is dropped and counted.
#![tactic(auto)]

ghost use Rattle.std.specs.Prelude.{◌≡◌};
ghost use Rattle.page.specs.Page.{page, next, put, puts, closed};

use numbers::put_bytes;
use table::MAX_TEXT;

fn after(at: usize) -> usize
    ensures { result ≡ next at }
{
    if at <= MAX_TEXT {
        return at + 1;
    }
    at
}

// One byte; the place after it.
fn put_byte(out: &mut [u8], at: usize, b: u8) -> usize
    ensures { page out.new result ≡ put (page out.old at) b }
{
    if at < out.len() {
        out[at] = b;
        return after(at);
    }
    after(at)
}

// `put_part` where the bytes may not all have room.
fn put_each(out: &mut [u8], at: usize, s: &[u8]) -> usize
    ensures { page out.new result ≡ puts (page out.old at) s.now }
{
    let mut p = at;
    for b in s {
        p = put_byte(out, p, *b);
    }
    p
}

// All bytes of a slice; the place after them.
pub fn put_part(out: &mut [u8], at: usize, s: &[u8]) -> usize
    ensures { page out.new result ≡ puts (page out.old at) s.now }
{
    let n = s.len();
    if MAX_TEXT < n {
        return put_each(out, at, s);
    }
    if MAX_TEXT - n < at {
        return put_each(out, at, s);
    }
    if out.len() < at + n {
        return put_each(out, at, s);
    }
    put_bytes(out, at, s);
    at + n
}

// Zeros from a place on; the place.
pub fn zero_from(out: &mut [u8], at: usize) -> usize
    ensures { (result ≡ at) × (out.new ≡ closed out.old at) }
{
    if at < out.len() {
        out[at..].fill(0);
    }
    at
}
