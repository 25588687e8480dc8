// A text read into a table and checked: all that is printed of a text is printed of a table that is accepted here.
ghost use Rattle.std.specs.Prelude.{◌≡◌, length};
ghost use Rattle.language.specs.Table.{table_length};
ghost use Rattle.calling.specs.Accepting.{Accepts};

use ial::{Refusal, check, read, refuse};

// Reads a text into a table and checks it: 1 to 8, then 9 to 17.
// A match and no `?`, so that the edit `unread_text_without_place` can leave out the place and nothing else.
pub fn accept(text: &[u8], t: &mut [u8]) -> Result<(), Refusal>
    requires { length t.old ≡ table_length }
    ensures { Accepts text.now result t.new }
{
    match read(text, t) {
        Err(e) => refuse(e.reason, e.place),
        Ok(()) => check(t),
    }
}
