// What is printed as text: a file's functions, each line as the writer puts it, or the refusal.
ghost use Rattle.std.specs.Prelude.{◌≡◌, length};
ghost use Rattle.language.specs.Checking.{Verdict as Verdictᴸ};
ghost use Rattle.language.specs.Table.{decode};
ghost use Rattle.language.specs.Answers.{check_answer};
ghost use Rattle.calling.specs.Calls.{text_line, write_printed, Prints};
ghost use Rattle.language.specs.Programs.{max_text};

use crate::accepting::accept;
use answer_lines::put_refusal;
use ial::write;
use table::TABLE_LENGTH;

// Of an accepted table. The buffer has room for any text, so 33 alone can refuse it.
pub fn write_lines(t: &[u8], out: &mut [u8]) -> usize
    requires t_value { check_answer t.now ≡ Verdictᴸ.accepted }
    requires out_len { length out.old ≡ max_text }
    ensures { Prints out.new result (text_line (decode t.now)) }
{
    match write(t, out) {
        Err(e) => put_refusal(e, out),
        Ok(n) => n,
    }
}

// Of a text.
#[inline(never)]
pub fn write_text(text: &[u8], out: &mut [u8]) -> usize
    requires { length out.old ≡ max_text }
    ensures { Prints out.new result (write_printed text.now) }
{
    let mut t = [0u8; TABLE_LENGTH];
    match accept(text, &mut t) {
        Err(e) => put_refusal(e, out),
        Ok(()) => write_lines(&t, out),
    }
}
