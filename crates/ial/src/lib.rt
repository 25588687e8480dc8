// The library: its entry points take any input and refuse what is wrong; none asks anything of its caller.
#![tactic(auto)]

mod c;
mod many;
mod running;
mod signature;
mod translating;
mod writing;

pub use c::{
    ial_check, ial_has_signature, ial_read, ial_run, ial_run_each, ial_translate, ial_write,
};
pub use many::run_each;
pub use running::run;
pub use signature::has_signature;
pub use translating::translate;
pub use writing::write;
// What an entry point answers.
ghost use Rattle.std.specs.Prelude.{◌≡◌, ◌≤◌, length};
ghost use Rattle.language.specs.Reading.{read as read_of};
ghost use Rattle.language.specs.Answers.{zeros};
ghost use Rattle.language.specs.Table.{table_length};
ghost use Rattle.ial.specs.Verdicts.{Into, Aside};
ghost use Rattle.ial.specs.Calls.{ReadCalled, CheckCalled};
ghost use Rattle.language.specs.Programs.{max_text};

pub use answers::{Answer, Ran, Reason, Refusal, Stop, refuse};
use checker::check_table;
pub use instructions::types;
use numbers::zero;
use reader::{judge_text, read_text};
pub use table::{MAX_TEXT, TABLE_LENGTH};

// The text read into a table of the right length that is all zero.
fn read_into(text: &[u8], t: &mut [u8]) -> Result<(), Refusal>
    requires { (length text.now ≤ max_text) × (t.old ≡ zeros table_length) }
    ensures { Into t.new (read_of text.now) result }
{
    match read_text(text, t) {
        Err(e) => refuse(e.reason, e.at.byte),
        Ok(()) => Ok(()),
    }
}

// The answer for an output of another length than a table's: "reading gives 22 last", so the text is judged first, function by function.
fn read_aside(text: &[u8]) -> Result<(), Refusal>
    requires { length text.now ≤ max_text }
    ensures { Aside (read_of text.now) result }
{
    match judge_text(text) {
        Err(e) => refuse(e.reason, e.at.byte), // 1 to 8
        Ok(()) => refuse(Reason::LengthWrong, 0),
    }
}

// Reads a text into a lent table: 1 to 8, and 22 last. After a refusal the table is all zero.
pub fn read(text: &[u8], out: &mut [u8]) -> Result<(), Refusal>
    ensures { ReadCalled text.now (length out.old) result out.new }
{
    zero(out);
    if MAX_TEXT < text.len() {
        return refuse(Reason::TextTooLong, 0);
    }
    if out.len() != TABLE_LENGTH {
        return read_aside(text);
    }
    if let Err(e) = read_into(text, out) {
        zero(out);
        return Err(e);
    }
    Ok(())
}

// Checks a lent table: accepted exactly if none of 9 to 17 holds.
pub fn check(t: &[u8]) -> Result<(), Refusal>
    ensures { CheckCalled t.now result }
{
    check_table(t)
}
