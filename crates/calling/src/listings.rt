// What is printed of a text: it is read and checked, and each function has its line, or the refusal is the only one.
ghost use Rattle.std.specs.Prelude.{◌≤◌, length};
ghost use Rattle.language.specs.Listing.{listing as listing_of_text};
ghost use Rattle.decimal.specs.Writing.{Written};
ghost use Rattle.listing.specs.Lines.{listing_most};

use crate::accepting::accept;
use answer_lines::put_refusal;
use listing::list_program;
use table::TABLE_LENGTH;

#[inline(never)]
pub fn list_text(text: &[u8], out: &mut [u8]) -> usize
    requires { listing_most ≤ length out.old }
    ensures { Written out.old 0 (listing_of_text text.now) out.new result × (result ≤ listing_most) }
{
    let mut t = [0u8; TABLE_LENGTH];
    match accept(text, &mut t) {
        Err(e) => put_refusal(e, out),
        Ok(()) => list_program(&t, out),
    }
}
