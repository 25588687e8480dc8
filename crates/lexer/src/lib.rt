// Bytes to lexemes, one at a time, with the state by value. A plain name that ends in the text lent is a part of it; the contents of any other
// name are gathered in 64 bytes that are lent beside it. A plain name may be a word, which whoever takes it looks up.
#![tactic(auto)]

mod actions;
mod contents;
mod modes;
mod runs;
mod values;

ghost use Rattle.std.specs.Prelude.{List, ◌≡◌, ℕ, ◌≤◌, ◌<◌, length};
ghost use Rattle.vocabulary.specs.Classes.{class_table};
ghost use Rattle.lexer.specs.Numbers.{amount_said};
ghost use Rattle.lexer.specs.Lexing.{idle_at, Passed, Scanned, LexerFinished};
ghost use Rattle.lexer.specs.Advancing.{fresh_at, begun_at, single_at, ended_at, longer_at, gathering_at, held_at, number_at, counted_by, advanced_at, held_after, finding_at};

use crate::contents::{GATHERED, keep};
pub use contents::contents_of;
use text_place::TextPlace;
use vocabulary::kinds;

// What the bytes so far leave open (a mode's number), the place of the next byte, the place where what is open began, and a number's sign and
// value; `over` says that the value is 2^64 or more, and then `value` is 0. Of a name, `value` is how many bytes of its contents are
// gathered: a lexer is copied at every token, and a field more is felt. The fields stand so that no odd number of bytes lies between or
// behind them: such a gap is copied apart.
// Kept, speed: with the mode as an enum reading took 1.2 to 1.4 times as long, with the value as an Option or beside its flag (docs/BENCHMARKS.md).
#[derive(Clone, Copy)]
pub struct Lexer {
    pub next: usize,
    pub start: usize,
    pub value: u64,
    pub mode: u64,
    pub negative: bool,
    pub over: bool,
}

// What stands at a place: a plain spelling, a name or a word, and a quoted name, each by the place of its contents' first byte in the text lent,
// or GATHERED, and the count of their bytes; a number by its sign and its value, which is none for one that is 2^64 or more; a mark by its byte;
// the end.
#[derive(Clone, Copy)]
pub enum Lexeme {
    Plain(usize, usize),
    Quoted(usize, usize),
    Number(bool, Option<u64>),
    Mark(u8),
    End,
}

// What some bytes ended: a lexeme with its place, or a place that has no token.
// Kept, plainer: an Option of a Result would have a place that has no token as an error, and three names here say which of the three it is.
#[derive(Clone, Copy)]
pub enum Found {
    Nothing,
    Lexeme(TextPlace, Lexeme),
    Stray(TextPlace),
}

// The lexer after some bytes, and what they ended.
#[derive(Clone, Copy)]
pub struct Lexed {
    pub lexer: Lexer,
    pub found: Found,
}

// The class of a byte before which nothing is open; else OTHER, which begins nothing.
fn fresh(mode: u64, class: u8) -> u8
    ensures { result ≡ fresh_at mode class }
{
    if mode == modes::BETWEEN {
        return class;
    }
    kinds::OTHER
}

// Between tokens or in a comment, before the byte at p.
fn idle(mode: u64, p: usize) -> Lexer
    ensures { result ≡ idle_at mode p }
{
    Lexer {
        mode,
        next: p,
        start: p,
        negative: false,
        value: 0,
        over: false,
    }
}

// The byte b at p begins a mode before the numbers', a sign, or a number's digits.
fn begun(mode: u64, p: usize, b: u8) -> Lexer
    requires { p < 18446744073709551615 }
    ensures { result ≡ begun_at mode p b }
{
    if mode < modes::SIGN {
        return Lexer {
            mode,
            next: p + 1,
            start: p,
            negative: false,
            value: 0,
            over: false,
        };
    }
    if mode == modes::SIGN {
        return Lexer {
            mode,
            next: p + 1,
            start: p,
            negative: b == b'-',
            value: 0,
            over: false,
        };
    }
    Lexer {
        mode,
        next: p + 1,
        start: p,
        negative: false,
        value: values::digit(b),
        over: false,
    }
}

// What a byte is by itself, of those that find something with nothing open.
fn single(action: u64, p: usize, b: u8) -> Found
    ensures { result ≡ single_at action p b }
{
    if action == modes::MARK {
        return Found::Lexeme(TextPlace { byte: p }, Lexeme::Mark(b));
    }
    Found::Stray(TextPlace { byte: p })
}

impl Lexer {
    // Before the first byte.
    pub fn new() -> Self
        ensures { result ≡ idle_at 0 0 }
    {
        idle(modes::BETWEEN, 0)
    }

    // The value of a number, unless it is 2^64 or more.
    fn amount(self) -> Option<u64>
        ensures { result ≡ amount_said self.value self.over }
    {
        if self.over {
            return None;
        }
        Some(self.value)
    }

    // What is open, ended by a byte that does not belong to it or by the text's end.
    fn ended(self) -> Found
        ensures { result ≡ ended_at self }
    {
        let place = TextPlace { byte: self.start };
        let mode = self.mode;
        if mode == modes::PLAIN {
            return Found::Lexeme(place, Lexeme::Plain(GATHERED, self.value as usize));
        }
        if mode == modes::BETWEEN {
            return Found::Nothing;
        }
        if mode == modes::COMMENT {
            return Found::Nothing;
        }
        if mode < modes::LEADING_ZERO {
            return Found::Stray(place);
        }
        if mode == modes::PREFIX {
            return Found::Stray(place);
        }
        Found::Lexeme(place, Lexeme::Number(self.negative, self.amount()))
    }

    // One byte more of a name, whose contents have so many bytes now.
    fn longer_name(self, mode: u64, kept: usize) -> Self
        requires { self.next < 18446744073709551615 }
        ensures { result ≡ longer_at self mode kept }
    {
        Lexer {
            mode,
            next: self.next + 1,
            negative: false,
            value: kept as u64,
            over: false,
            ..self
        }
    }

    // Past a byte of a name, with what it adds to the contents.
    fn gathering(self, action: u64, b: u8, held: &mut [u8]) -> Self
        requires { self.next < 18446744073709551615 }
        ensures { (result ≡ gathering_at self action (length held.old)) × (held.new ≡ held_at self.value action b held.old) }
    {
        let kept = self.value as usize;
        if action == modes::ESCAPING {
            return self.longer_name(modes::ESCAPING, kept);
        }
        if action == modes::KEEPS_BOTH {
            let n = keep(held, kept, b'\\');
            let m = keep(held, n, b);
            return self.longer_name(modes::QUOTED, m);
        }
        let n = keep(held, kept, b);
        if action == modes::WAITS_NEXT {
            return self.longer_name(modes::ESCAPING, n);
        }
        self.longer_name(action, n)
    }

    // One byte more of a number, whose value is now this.
    fn longer_number(self, mode: u64, value: Option<u64>) -> Self
        requires { self.next < 18446744073709551615 }
        ensures { result ≡ number_at self mode value }
    {
        Lexer {
            mode,
            next: self.next + 1,
            value: value.unwrap_or(0),
            over: value.is_none(),
            ..self
        }
    }

    // Past a byte of a number.
    fn counted(self, action: u64, b: u8) -> Self
        requires { self.next < 18446744073709551615 }
        ensures { result ≡ counted_by self action b }
    {
        if action == modes::PREFIX {
            return self.longer_number(modes::PREFIX, Some(0));
        }
        if action == modes::HEXADECIMAL {
            // Kept, rule: the definition's `hex_value` is 16 for a byte that is no digit (`counted_by`); none comes here.
            let digit = u64::from(values::hex_value(b).unwrap_or(16));
            return self.longer_number(modes::HEXADECIMAL, values::grown(self.amount(), 16, digit));
        }
        self.longer_number(action, values::grown(self.amount(), 10, values::digit(b)))
    }

    // Past a byte that finds nothing.
    fn advanced(self, action: u64, b: u8, held: &mut [u8]) -> Self
        requires { self.next < 18446744073709551615 }
        ensures { (result ≡ advanced_at self action b (length held.old)) × (held.new ≡ held_after self action b held.old) }
    {
        if modes::BEGINS <= action {
            if action == modes::BEGINS_PLAIN {
                return idle(modes::PLAIN, self.next).gathering(modes::PLAIN, b, held);
            }
            return begun(action - modes::BEGINS, self.next, b);
        }
        if action < modes::SIGN {
            return self.gathering(action, b, held);
        }
        self.counted(action, b)
    }

    // Past a byte that finds something; one that ends what is open is not passed.
    fn finding(self, action: u64, b: u8) -> Lexed
        requires { self.next < 18446744073709551615 }
        ensures { result ≡ finding_at self action b }
    {
        if action == modes::ENDS {
            return Lexed {
                lexer: idle(modes::BETWEEN, self.next),
                found: self.ended(),
            };
        }
        let lexer = begun(modes::BETWEEN, self.next, b);
        let place = TextPlace { byte: self.start };
        if action == modes::SPOILS {
            return Lexed {
                lexer,
                found: Found::Stray(place),
            };
        }
        if action == modes::CLOSES {
            return Lexed {
                lexer,
                found: Found::Lexeme(place, Lexeme::Quoted(GATHERED, self.value as usize)),
            };
        }
        Lexed {
            lexer,
            found: single(action, self.next, b),
        }
    }

    // Past the spaces from here on, where nothing is open.
    fn spaced(self, text: &[u8], classes: &[u8; 256]) -> Self
        requires { (self.start ≤ self.next) × (self.next ≤ length text.now) × (classes.now ≡ class_table) }
        ensures { ((h : List ℕ) → Passed text.now self h result h) × (result.mode ≡ self.mode) }
    {
        if self.mode != modes::BETWEEN {
            return self;
        }
        idle(modes::BETWEEN, runs::spaces_end(text, self.next, classes))
    }

    // Past the comment that is open, up to and with the LF that ends it.
    fn commented(self, text: &[u8]) -> Self
        requires { (self.next < length text.now) × (self.mode ≡ 5) }
        ensures { ((h : List ℕ) → Passed text.now self h result h) × (self.next < result.next) }
    {
        let end = runs::line_end(text, self.next);
        if end < text.len() {
            return begun(modes::BETWEEN, end, b'\n');
        }
        idle(modes::COMMENT, end)
    }

    // The bytes up to and with the first that finds something or begins a comment, whatever is open.
    fn passing(self, text: &[u8], classes: &[u8; 256], held: &mut [u8]) -> Lexed
        requires { (self.start ≤ self.next) × (self.next < length text.now) × (classes.now ≡ class_table) }
        ensures { Scanned text.now self held.old result held.new }
    {
        let mut l = self;
        // Kept, plainer: no index is counted here, the lexer moves itself on.
        while l.next < text.len() {
            let next = l.next;
            let b = text[next];
            let class = runs::class_of(classes, b);
            let a = actions::action(l.mode, class, b, l.value as usize);
            if modes::ENDS <= a {
                return l.finding(a, b);
            }
            l = l.advanced(a, b, held);
            if l.mode == modes::COMMENT {
                return Lexed {
                    lexer: l,
                    found: Found::Nothing,
                };
            }
        }
        Lexed {
            lexer: l,
            found: Found::Nothing,
        }
    }

    // Some bytes, up to one that finds something if there is one. Marks and plain names, which most of a text is made of, are found with no
    // question what is open.
    pub fn scan(self, text: &[u8], classes: &[u8; 256], held: &mut [u8]) -> Lexed
        requires { (self.start ≤ self.next) × (self.next < length text.now) × (classes.now ≡ class_table) }
        ensures { Scanned text.now self held.old result held.new }
    {
        if self.mode == modes::COMMENT {
            return Lexed {
                lexer: self.commented(text),
                found: Found::Nothing,
            };
        }
        let l = self.spaced(text, classes);
        let next = l.next;
        if text.len() <= next {
            return Lexed {
                lexer: l,
                found: Found::Nothing,
            };
        }
        let b = text[next];
        let class = fresh(l.mode, runs::class_of(classes, b));
        if class == kinds::MARK {
            return Lexed {
                lexer: begun(modes::BETWEEN, next, b),
                found: single(modes::MARK, next, b),
            };
        }
        let end = runs::plain_end(text, next, class, classes);
        if next < end {
            return Lexed {
                lexer: idle(modes::BETWEEN, end),
                found: Found::Lexeme(TextPlace { byte: next }, Lexeme::Plain(next, end - next)),
            };
        }
        l.passing(text, classes, held)
    }

    // What the text's end ends: what is open, and else the end. After the former, the latter is found. Between tokens and in a comment
    // nothing is open: one branch for both, which is faster than two that return the same.
    pub fn finish(self) -> Lexed
        ensures { LexerFinished self result }
    {
        let end = Found::Lexeme(TextPlace { byte: self.next }, Lexeme::End);
        if self.mode == modes::BETWEEN || self.mode == modes::COMMENT {
            return Lexed {
                lexer: self,
                found: end,
            };
        }
        Lexed {
            lexer: idle(modes::BETWEEN, self.next),
            found: self.ended(),
        }
    }
}
