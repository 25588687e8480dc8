// A whole text: read into a table, or judged alone where there is no table to read it into.
ghost use Rattle.std.specs.Prelude.{◌≡◌, ◌≤◌, length};
ghost use Rattle.language.specs.Answers.{zeros};
ghost use Rattle.language.specs.Programs.{max_text, max_functions};
ghost use Rattle.language.specs.Reading.{read};
ghost use Rattle.language.specs.Table.{table_length};
ghost use Rattle.reader.specs.Text.{end_of, TableReached, Feeds, ToldOf, JudgedAs};

use crate::reading::{Progress, advance, begin};
use crate::taking::Step;
use drafts::{Fault, NAMES_LENGTH, PENDING_LENGTH};
use numbers::zero;
use table::{FUNCTION_LENGTH, MAX_FUNCTIONS, MAX_NAME, function_at};

// Where the cells of function n end in a table; behind the last there are none.
fn end_of(n: usize) -> usize
    requires { n ≤ max_functions }
    ensures { result ≡ end_of n }
{
    if n < MAX_FUNCTIONS {
        return function_at(n) + FUNCTION_LENGTH;
    }
    function_at(n)
}

// The bytes of a text, or of a part of it, each function into its cells of the table. `ends`: they are the text's last.
pub fn feed(
    x: Progress,
    text: &[u8],
    ends: bool,
    t: &mut [u8],
    names: &mut [u8],
    pend: &mut [u8],
    held: &mut [u8],
) -> Result<Step<Progress>, Fault>
    requires text_len_bound { length text.now ≤ max_text }
    requires table_reached { TableReached text.now x t.old names.old pend.old held.old }
    ensures { Feeds text.now ends x t.old names.old pend.old held.old result t.new names.new pend.new held.new }
{
    let mut s = x;
    loop {
        let n = s.reader.draft.functions;
        let a = function_at(n);
        let e = end_of(n);
        let r = advance(s, text, ends, &mut t[a..e], names, pend, held)?;
        let Step::Closed(y) = r else {
            return Ok(r);
        };
        s = y;
    }
}

// The text read into a table that is all zero: begun, fed and closed.
pub fn read_text(text: &[u8], t: &mut [u8]) -> Result<(), Fault>
    requires { (length text.now ≤ max_text) × (t.old ≡ zeros table_length) }
    ensures { ToldOf t.new (read text.now) result }
{
    let mut names = [0u8; NAMES_LENGTH];
    let mut pend = [0u8; PENDING_LENGTH];
    let mut held = [0u8; MAX_NAME];
    let fed = feed(begin(), text, false, t, &mut names, &mut pend, &mut held)?;
    let Step::Reading(x) = fed else {
        unreachable!();
    };
    let closed = feed(x, text, true, t, &mut names, &mut pend, &mut held)?;
    let Step::Ended(y) = closed else {
        unreachable!();
    };
    t[0] = y.reader.draft.functions as u8;
    Ok(())
}

// The text judged, function by function in cells of this function's own: whether it is refused, and why.
pub fn judge_text(text: &[u8]) -> Result<(), Fault>
    requires { length text.now ≤ max_text }
    ensures { JudgedAs (read text.now) result }
{
    let mut names = [0u8; NAMES_LENGTH];
    let mut pend = [0u8; PENDING_LENGTH];
    let mut held = [0u8; MAX_NAME];
    let mut f = [0u8; FUNCTION_LENGTH];
    let mut x = begin();
    loop {
        let r = advance(x, text, true, &mut f, &mut names, &mut pend, &mut held)?;
        let Step::Closed(y) = r else {
            return Ok(());
        };
        zero(&mut f);
        x = y;
    }
}
