// Names by their spelling: "quotes only where plain spelling isn't possible".
ghost use Rattle.std.specs.Prelude.{◌∷◌, ◌++◌, ◌≡◌, ◌≤◌, length};
ghost use Rattle.language.specs.Bytes.{quote_byte};
ghost use Rattle.language.specs.Names.{escaped, spelling};
ghost use Rattle.page.specs.Page.{page, puts};
ghost use Rattle.token_text.specs.Runs.{Run};

use page::put_part;
use vocabulary::{classes, plain_name};

const QUOTE: u8 = 39;

// The place of the first quote from i on, or of the end.
fn next_quote(name: &[u8], i: usize) -> usize
    requires { i ≤ length name.now }
    ensures { Run name.now i result }
{
    for k in i..name.len() {
        if name[k] == QUOTE {
            return k;
        }
    }
    name.len()
}

// The bytes with a backslash before each quote: runs that begin with a quote, but for the first.
fn put_escaped(name: &[u8], out: &mut [u8], at: usize) -> usize
    ensures { page out.new result ≡ puts (page out.old at) (escaped name.now) }
{
    let mut i = next_quote(name, 0);
    let mut e = put_part(out, at, &name[..i]);
    // Kept, plainer: it goes from quote to quote, and no range counts its steps.
    while i < name.len() {
        let q = next_quote(name, i + 1);
        let f = put_part(out, e, b"\\");
        e = put_part(out, f, &name[i..q]);
        i = q;
    }
    e
}

// The contents in quotes, the closing one given, with what follows it.
pub fn put_quoted(name: &[u8], close: &[u8], out: &mut [u8], at: usize) -> usize
    ensures { page out.new result ≡ puts (page out.old at) (quote_byte ∷ (escaped name.now ++ close.now)) }
{
    let e = put_part(out, at, b"'");
    let f = put_escaped(name, out, e);
    put_part(out, f, close)
}

// The spelling of a name by its contents, and no space.
pub fn put_spelling(name: &[u8], out: &mut [u8], at: usize) -> usize
    ensures { page out.new result ≡ puts (page out.old at) (spelling name.now) }
{
    let table = classes();
    if plain_name(name, &table) {
        return put_part(out, at, name);
    }
    put_quoted(name, b"'", out, at)
}
