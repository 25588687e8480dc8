// A text begun, fed and closed. One loop goes over its tokens, so that all that a token needs is compiled into it; it ends with a function,
// since the next one has cells of its own, and with the bytes that are lent.
ghost use Rattle.std.specs.Prelude.{false, cond, not, ◌≡◌, ltb, ◌≤◌, length};
ghost use Rattle.language.specs.Programs.{max_text};
ghost use Rattle.vocabulary.specs.Classes.{class_table};
ghost use Rattle.drafts.specs.State.{Bounded, lent_of};
ghost use Rattle.reader.specs.Parse.{ReaderReached, Suits};
ghost use Rattle.reader.specs.Text.{FoundHere, TakesFound, Nexts, ProgressReached, CellsFor, Advances, progress_start, RegistersIndexed, is_end_found};

use crate::taking::{Reader, Step};
use crate::tokens::token_of;
use answers::Reason;
use drafts::{Draft, Fault};
use lexer::{Found, Lexed, Lexer, contents_of};
use name_index::{HEADS, index};
use table::{MAX_FUNCTIONS, MAX_REGISTERS, REGISTER_LENGTH, REGISTER_NAMES_OFFSET};
use vocabulary::classes;

// Where reading stands between two bytes.
#[derive(Clone, Copy)]
pub struct Progress {
    pub lexer: Lexer,
    pub reader: Reader,
}

// Before the first byte.
pub fn begin() -> Progress
    ensures { result ≡ progress_start }
{
    Progress {
        lexer: Lexer::new(),
        reader: Reader::new(),
    }
}

impl Reader {
    // What the lexer found, if anything: 2 for a place that has no token.
    fn take_found<'a>(
        self,
        text: &'a [u8],
        held: &'a [u8],
        f: &mut [u8],
        names: &mut [u8],
        pend: &mut [u8],
        last: &mut [u16],
        before: &mut [u16],
        found: Found,
    ) -> Result<Step<Reader>, Fault>
        requires reader_reached { ReaderReached self (lent_of f.old names.old pend.old last.old before.old) }
        requires text_len_bound { (length text.now ≤ max_text) × (FoundHere text.now held.now found) }
        ensures takes_found { TakesFound text.now held.now found self (lent_of f.old names.old pend.old last.old before.old) result (lent_of f.new names.new pend.new last.new before.new) }
        ensures suits { Suits (is_end_found found) result }
    {
        match found {
            Found::Nothing => Ok(Step::Reading(self)),
            Found::Lexeme(p, x) => {
                let y = token_of(x, text, held);
                let token = y.token;
                let name = contents_of(text, held, y.from, y.bytes);
                self.take(f, names, pend, last, before, name, p, token)
            }
            Found::Stray(p) => Err(Fault {
                reason: Reason::NoToken,
                at: p,
            }),
        }
    }
}

// What comes next: what a scan finds; at the end of the text what the end ends, and then the end.
fn next(l: Lexer, text: &[u8], classes: &[u8; 256], held: &mut [u8]) -> Lexed
    requires { (l.start ≤ l.next) × (l.next ≤ length text.now) × (classes.now ≡ class_table) }
    ensures { Nexts text.now l held.old result held.new }
{
    if l.next < text.len() {
        return l.scan(text, classes, held);
    }
    l.finish()
}

// The registers of the function in hand in chains that have none, if there is room for a function.
fn index_registers(d: Draft, f: &[u8], last: &mut [u16], before: &mut [u16])
    requires bounded { Bounded d }
    requires cells_for { CellsFor d f.now last.old before.old }
    ensures { RegistersIndexed d f.now last.new before.new }
{
    if d.functions < MAX_FUNCTIONS {
        index(
            f,
            REGISTER_NAMES_OFFSET,
            REGISTER_LENGTH,
            d.head.registers,
            last,
            before,
        );
    }
}

// Whether all n bytes that are lent are read, and more may come.
fn pauses(next: usize, n: usize, ends: bool) -> bool
    ensures { result ≡ cond (ltb next n) false (not ends) }
{
    if next < n {
        return false;
    }
    !ends
}

// From here on to the end of a function or of the bytes lent, or, if these end the text, to its end.
pub fn advance(
    x: Progress,
    text: &[u8],
    ends: bool,
    f: &mut [u8],
    names: &mut [u8],
    pend: &mut [u8],
    held: &mut [u8],
) -> Result<Step<Progress>, Fault>
    requires text_len_bound { length text.now ≤ max_text }
    requires progress_reached { ProgressReached text.now x f.old names.old pend.old held.old }
    ensures { Advances text.now ends x f.old names.old pend.old held.old result f.new names.new pend.new held.new }
{
    let mut last = [0u16; HEADS];
    let mut before = [0u16; MAX_REGISTERS];
    let table = classes();
    let mut l = x.lexer;
    let mut s = x.reader;
    index_registers(s.draft, f, &mut last, &mut before);
    loop {
        if pauses(l.next, text.len(), ends) {
            return Ok(Step::Reading(Progress {
                lexer: l,
                reader: s,
            }));
        }
        let y = next(l, text, &table, held);
        let found = y.found;
        l = y.lexer;
        match s.take_found(text, held, f, names, pend, &mut last, &mut before, found)? {
            Step::Reading(q) => {
                s = q;
            }
            Step::Closed(q) => {
                return Ok(Step::Closed(Progress {
                    lexer: l,
                    reader: q,
                }));
            }
            Step::Ended(q) => {
                return Ok(Step::Ended(Progress {
                    lexer: l,
                    reader: q,
                }));
            }
        }
    }
}
