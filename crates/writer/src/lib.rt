// "a thin writer that keeps the buffer and its place together": it is made of a lent buffer, takes the text of a table and gives up its place. What it
// puts down is `table_text`'s and `page`'s, on slice and place.
#![tactic(auto)]

ghost use Rattle.std.specs.Prelude.{◌≡◌};
ghost use Rattle.language.specs.Table.{decode};
ghost use Rattle.language.specs.MadeNames.{written};
ghost use Rattle.page.specs.Page.{page, puts, closed};
ghost use Rattle.writer.specs.Writers.{page_of, writing, finished, Checked};

use page::zero_from;
use table_text::put_table;

// The lent buffer, and the place of the next byte.
#[derive(Drop)]
pub struct Writer<'a> {
    pub out: &'a mut [u8],
    pub at: usize,
}

// The borrow goes into the writer, and the place is the start.
pub fn new<'a>(out: &'a mut [u8]) -> Writer<'a>
    ensures { (result.out ≡ out.entry) × (result.at ≡ 0) }
{
    Writer { out: out, at: 0 }
}

// The text of a table that passes its check.
pub fn table<'a, 't>(w: Writer<'a>, t: &'t [u8]) -> Writer<'a>
    requires { Checked t.now }
    ensures { result ≡ writing w.entry (puts (page_of w.entry) (written (decode t.now))) }
{
    let at = w.at;
    let next = put_table(&mut *w.out, at, t);
    Writer {
        out: w.out,
        at: next,
    }
}

// Zeros from the place on; the place.
pub fn finish<'a>(w: Writer<'a>) -> usize
    ensures { (result ≡ w.entry.at) × (w.exit.0.now ≡ closed w.entry.out.now w.entry.at) }
{
    let at = w.at;
    zero_from(&mut *w.out, at)
}

// From a buffer to a writer and back: the text of a table that passes its check from the buffer's beginning on, zeros past it, and its length, which is
// the text's up to one past the longest.
pub fn write_table(out: &mut [u8], t: &[u8]) -> usize
    requires { Checked t.now }
    ensures { page out.new result ≡ finished (puts (page out.old 0) (written (decode t.now))) }
{
    let w = table(new(out), t);
    finish(w)
}
