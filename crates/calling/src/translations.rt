// What is printed of a translation: its text, or the refusal.
ghost use Rattle.std.specs.Prelude.{◌≡◌, length};
ghost use Rattle.language.specs.Checking.{Verdict as Verdictᴸ};
ghost use Rattle.language.specs.Table.{decode};
ghost use Rattle.language.specs.Answers.{check_answer};
ghost use Rattle.calling.specs.Calls.{translated_line, translate_printed, Prints};
ghost use Rattle.language.specs.Programs.{max_text};

use crate::accepting::accept;
use crate::texts::write_lines;
use answer_lines::put_refusal;
use call_words::function_number;
use ial::translate;
use table::TABLE_LENGTH;

// Of function i of an accepted table.
fn translate_function(t: &[u8], function: u64, out: &mut [u8]) -> usize
    requires t_value { check_answer t.now ≡ Verdictᴸ.accepted }
    requires out_len { length out.old ≡ max_text }
    ensures { Prints out.new result (translated_line (decode t.now) function) }
{
    let mut x = [0u8; TABLE_LENGTH];
    match translate(t, function, &mut x) {
        Err(e) => put_refusal(e, out),
        Ok(()) => write_lines(&x, out),
    }
}

// Of a text.
#[inline(never)]
pub fn translate_text(text: &[u8], word: &[u8], out: &mut [u8]) -> usize
    requires { length out.old ≡ max_text }
    ensures { Prints out.new result (translate_printed text.now word.now) }
{
    let mut t = [0u8; TABLE_LENGTH];
    match accept(text, &mut t) {
        Err(e) => put_refusal(e, out),
        Ok(()) => translate_function(&t, function_number(&t, word), out),
    }
}
