// Writing a lent table as text.
ghost use Rattle.std.specs.Prelude.{◌≡◌, length};
ghost use Rattle.language.specs.Checking.{Verdict as Verdictᴸ};
ghost use Rattle.language.specs.Table.{decode};
ghost use Rattle.language.specs.MadeNames.{written};
ghost use Rattle.language.specs.Answers.{check_answer, show};
ghost use Rattle.answers.specs.Lent.{shown_of};
ghost use Rattle.ial.specs.Calls.{WriteCalled};

use answers::{Reason, Refusal, refuse};
use checker::check_table;
use numbers::zero;
use table::MAX_TEXT;
use writer::write_table;

// A table that passes its check: "33 if the text exceeds 65,536 bytes, then 32 exactly if it exceeds the buffer".
fn write_checked(t: &[u8], out: &mut [u8]) -> Result<usize, Refusal>
    requires { check_answer t.now ≡ Verdictᴸ.accepted }
    ensures { shown_of result out.new ≡ show (length out.old) (written (decode t.now)) }
{
    let n = write_table(out, t);
    if MAX_TEXT < n {
        zero(out);
        return refuse(Reason::WrittenTooLong, 0);
    }
    if out.len() < n {
        zero(out);
        return refuse(Reason::BufferTooShort, 0);
    }
    Ok(n)
}

// Writes a lent table as text to a lent buffer, with made names for what has none: 9 to 17, 33, 32. Past the text the buffer is zero; after a
// refusal it is all zero.
pub fn write(t: &[u8], out: &mut [u8]) -> Result<usize, Refusal>
    ensures { WriteCalled t.now (length out.old) result out.new }
{
    if let Err(e) = check_table(t) {
        zero(out);
        return Err(e);
    }
    write_checked(t, out)
}
