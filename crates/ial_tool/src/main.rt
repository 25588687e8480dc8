// The tool: takes words, opens, calls and writes. Wrong words and files that cannot be read get one line on standard error.
#![tactic(auto)]

ghost use Rattle.std.specs.Prelude.{◌≡◌, ◌≤◌, length};
ghost use Rattle.language.specs.Programs.{max_registers};

mod failure;

use call_words::{Decimal, keep_argument, read_budget};
use calling::{LISTING_MOST, list_text, run_text, translate_text, write_text};
use failure::Failure;
use loading::{WORD, load_word, upto, word, word_count};
use std::env::Env;
use std::io::Print;
use std::rt::Files;
use table::{MAX_REGISTERS, MAX_TEXT};

// Kept, rule: no memory is allocated, so each word, file and text has a room that fits any, in an array of the function that asks for it.

// One byte more than a text may have: such a text is refused as too long, whatever follows.
const TEXT: usize = MAX_TEXT + 1;

// The words by their places; the arguments are the last.
const COMMAND: usize = 1;

const FILE: usize = 2;

const FUNCTION: usize = 3;

const BUDGET: usize = 4;

const ARGUMENTS: usize = 5;

// What is printed of a text.
#[derive(Clone, Copy)]
enum Part<'a> {
    Listing,
    Text,
    Translation(&'a [u8]),
}

// Puts it into a buffer. How many bytes it has.
fn put(part: Part<'_>, text: &[u8], out: &mut [u8]) -> usize
    requires { length out.old ≡ MAX_TEXT }
{
    match part {
        Part::Listing => list_text(text, out),
        Part::Text => write_text(text, out),
        Part::Translation(name) => translate_text(text, name, out),
    }
}

// Writes an answer to standard output.
fn answer(rt: &impl Print, lines: &[u8]) -> Result<(), Failure> {
    rt.write_all(lines).map_err(Failure::Unwritten)
}

// `list FILE`: the listing of document 01. `write FILE`: its functions, each line as the writer puts it.
fn print(rt: &(impl Env + Files + Print), part: Part<'_>) -> Result<(), Failure> {
    let mut text = [0u8; TEXT];
    let text = load_word(rt, FILE, &mut text)?;
    let mut out = [0u8; MAX_TEXT];
    let n = put(part, text, &mut out);
    answer(rt, upto(&out, n))
}

// `translate FILE FUNCTION`: the text of the translation.
fn translate(rt: &(impl Env + Files + Print)) -> Result<(), Failure> {
    let mut name = [0u8; WORD];
    let name = word(rt, FUNCTION, &mut name).unwrap_or(b"");
    print(rt, Part::Translation(name))
}

// Keeps word i as an argument.
fn keep_word(rt: &impl Env, i: usize, kept: &mut [Option<Decimal>]) -> Result<(), Failure>
    requires { (5 ≤ i) × (length kept.old ≡ max_registers) }
{
    let mut argument = [0u8; WORD];
    let argument = word(rt, i, &mut argument).unwrap_or(b"");
    if !keep_argument(argument, i - ARGUMENTS, kept) {
        return Err(Failure::NoArgument);
    }
    Ok(())
}

// Keeps the arguments among so many words.
fn keep_words(rt: &impl Env, words: usize, kept: &mut [Option<Decimal>]) -> Result<(), Failure>
    requires { length kept.old ≡ max_registers }
{
    for i in ARGUMENTS..words {
        keep_word(rt, i, kept)?;
    }
    Ok(())
}

// `run FILE FUNCTION BUDGET [ARG..]`: the line of the answer. Not compiled into `call`, where its rooms would be touched for every command.
#[inline(never)]
fn run(rt: &(impl Env + Files + Print), words: usize) -> Result<(), Failure>
    requires { 5 ≤ words }
{
    let mut name = [0u8; WORD];
    let name = word(rt, FUNCTION, &mut name).unwrap_or(b"");
    let mut budget = [0u8; WORD];
    let Some(budget) = read_budget(word(rt, BUDGET, &mut budget).unwrap_or(b"")) else {
        return Err(Failure::NoBudget);
    };
    let mut kept = [None; MAX_REGISTERS];
    keep_words(rt, words, &mut kept)?;
    let mut text = [0u8; TEXT];
    let text = load_word(rt, FILE, &mut text)?;
    let mut out = [0u8; LISTING_MOST];
    let n = run_text(text, name, words - ARGUMENTS, &kept, budget, &mut out);
    answer(rt, upto(&out, n))
}

// The command of so many words.
fn call(rt: &(impl Env + Files + Print), words: usize) -> Result<(), Failure> {
    let mut command = [0u8; 16];
    match (words, word(rt, COMMAND, &mut command).unwrap_or(b"")) {
        (3, b"list") => print(rt, Part::Listing),
        (3, b"write") => print(rt, Part::Text),
        (4, b"translate") => translate(rt),
        (5.., b"run") => run(rt, words),
        _ => Err(Failure::WrongWords),
    }
}

fn main(rt: HostRuntime) {
    if let Err(why) = call(&rt, word_count(&rt)) {
        why.say(&rt, &rt.stderr());
    }
}
