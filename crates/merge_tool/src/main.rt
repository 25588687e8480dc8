// The merge of test records, as a program: takes words, opens, calls and writes. Wrong words, files that cannot be read or replaced and bad lines
// get a line on standard error.
#![tactic(auto)]

ghost use Rattle.std.specs.Prelude.{◌≡◌, ◌*◌, ◌≤◌, length};
ghost use Rattle.merge_lines.specs.Lines.{record_most};
ghost use Rattle.records.specs.Stores.{capacity};

mod adding;
mod failure;
mod files;

use adding::{Limit, merge_file};
use call_words::read_budget;
use calling::function_in;
use failure::{Failure, answer, merged};
use files::{load_store, replace};
use ial::{MAX_TEXT, TABLE_LENGTH, ial_read, types};
use loading::{WORD, file_name, load_word, upto, word, word_count};
use merge::{Look, merge_empty, merge_look, merge_nth, merge_store};
use merge_lines::{RECORD_MOST, number, put_merged, put_record};
use records::{CAPACITY, Record, STORE_LENGTH};
use std::env::Env;
use std::fs;
use std::io::Print;
use std::random::RandomSource;
use std::rt::Files;

// Kept, rule: no memory is allocated, so each word, file, store and text has a room that fits any, in an array of the function that asks for it.

// One byte more than a text may have.
const TEXT: usize = MAX_TEXT + 1;

// Room for the lines of a full store.
const LINES: usize = CAPACITY * RECORD_MOST;

// The words by their places; an appliance stands in the place of FILE, and so does the first of other stores.
const COMMAND: usize = 1;

const STORE: usize = 2;

const FILE: usize = 3;

const FUNCTION: usize = 4;

const BUDGET: usize = 5;

const RECORDS: usize = 6;

// Whether a file can be opened of the name that a new store is to have.
fn is_there(rt: &(impl Env + Files)) -> bool {
    let mut path = [0u8; WORD];
    match file_name(word(rt, STORE, &mut path).unwrap_or(b"")) {
        Ok(name) => fs::open(rt, name).is_ok(),
        Err(_) => false,
    }
}

// `new STORE`: an empty store, where no file has that name.
fn new(rt: &(impl Env + Files + RandomSource), err: &impl Print) -> Result<(), Failure> {
    if is_there(rt) {
        return Err(Failure::Taken);
    }
    let mut store = [0u8; STORE_LENGTH];
    merge_empty(&mut store);
    replace(rt, err, &store)
}

// Reads the text of a file into a table.
fn load_table(rt: &(impl Env + Files), t: &mut [u8]) -> Result<(), Failure> {
    let mut text = [0u8; TEXT];
    let a = ial_read(load_word(rt, FILE, &mut text)?, t);
    match a.number {
        0 => Ok(()),
        number => Err(Failure::Refused(number, a.place)),
    }
}

// `merged`, how many.
fn answer_merged(rt: &impl Print, n: u64) -> Result<(), Failure> {
    let mut out = [0u8; 64];
    let k = put_merged(n, &mut out);
    answer(rt, upto(&out, k))
}

// Merges the records of a file into a store and replaces its file. The refusal of the function comes before the file is looked at.
fn add_records(
    rt: &(impl Env + Files + Print + RandomSource),
    err: &impl Print,
    store: &mut [u8],
    limit: Limit<'_>,
) -> Result<(), Failure> {
    merged(limit.merge(store, &[]))?;
    let records = merge_file(rt, err, store, limit)?;
    replace(rt, err, store)?;
    answer_merged(rt, records)
}

// The same with the last words.
fn add_by(
    rt: &(impl Env + Files + Print + RandomSource),
    err: &impl Print,
    store: &mut [u8],
    table: &[u8],
    budget: u64,
) -> Result<(), Failure> {
    let mut name = [0u8; WORD];
    let function = function_in(table, word(rt, FUNCTION, &mut name).unwrap_or(b""));
    let limit = Limit {
        table,
        function,
        budget,
    };
    add_records(rt, err, store, limit)
}

// `add STORE FILE FUNCTION BUDGET RECORDS`, once the budget is read.
fn add_within(
    rt: &(impl Env + Files + Print + RandomSource),
    err: &impl Print,
    budget: u64,
) -> Result<(), Failure> {
    let mut store = [0u8; STORE_LENGTH];
    load_store(rt, STORE, &mut store)?;
    let mut table = [0u8; TABLE_LENGTH];
    load_table(rt, &mut table)?;
    add_by(rt, err, &mut store, &table, budget)
}

fn add(rt: &(impl Env + Files + Print + RandomSource), err: &impl Print) -> Result<(), Failure> {
    let mut budget = [0u8; WORD];
    match read_budget(word(rt, BUDGET, &mut budget).unwrap_or(b"")) {
        None => Err(Failure::NoBudget),
        Some(most) => add_within(rt, err, most),
    }
}

// Merges the store that word i names into a store.
fn join_one(rt: &(impl Env + Files), i: usize, store: &mut [u8]) -> Result<(), Failure> {
    let mut other = [0u8; STORE_LENGTH];
    load_store(rt, i, &mut other)?;
    merged(merge_store(store, &other))
}

// `join STORE OTHER..`
fn join(
    rt: &(impl Env + Files + Print + RandomSource),
    err: &impl Print,
    words: usize,
) -> Result<(), Failure>
    requires { 4 ≤ words }
{
    let mut store = [0u8; STORE_LENGTH];
    load_store(rt, STORE, &mut store)?;
    for i in FILE..words {
        join_one(rt, i, &mut store)?;
    }
    replace(rt, err, &store)?;
    answer_merged(rt, (words - FILE) as u64)
}

// The record that was looked for, if there is one.
fn found(l: Look) -> Option<Record> {
    if l.found == 0 {
        return None;
    }
    Some(Record {
        appliance: l.appliance,
        time: l.time,
        fail: l.fail,
        tablet: l.tablet,
        reading: l.reading,
    })
}

// The lines of a store, in order.
fn put_records(store: &[u8], out: &mut [u8]) -> usize
    requires { length out.old ≡ capacity * record_most }
    ensures { result ≤ capacity * record_most }
{
    let mut at = 0;
    for i in 0..CAPACITY {
        let Some(record) = found(merge_nth(store, i as u64)) else {
            return at;
        };
        at = put_record(record, out, at);
    }
    at
}

// `show STORE`
fn show(rt: &(impl Env + Files + Print)) -> Result<(), Failure> {
    let mut store = [0u8; STORE_LENGTH];
    load_store(rt, STORE, &mut store)?;
    let mut out = [0u8; LINES];
    let n = put_records(&store, &mut out);
    answer(rt, upto(&out, n))
}

// The line of one appliance, or `none`.
fn show_one(rt: &(impl Env + Files + Print), appliance: u64) -> Result<(), Failure> {
    let mut store = [0u8; STORE_LENGTH];
    load_store(rt, STORE, &mut store)?;
    let Some(record) = found(merge_look(&store, appliance)) else {
        return answer(rt, b"none\n");
    };
    let mut out = [0u8; RECORD_MOST];
    let n = put_record(record, &mut out, 0);
    answer(rt, upto(&out, n))
}

// `show STORE APPLIANCE`
fn show_word(rt: &(impl Env + Files + Print)) -> Result<(), Failure> {
    let mut appliance = [0u8; WORD];
    match number(types::UINT64, word(rt, FILE, &mut appliance).unwrap_or(b"")) {
        None => Err(Failure::NoAppliance),
        Some(appliance) => show_one(rt, appliance),
    }
}

// The command of so many words.
fn call(
    rt: &(impl Env + Files + Print + RandomSource),
    err: &impl Print,
    words: usize,
) -> Result<(), Failure> {
    let mut command = [0u8; 16];
    match (words, word(rt, COMMAND, &mut command).unwrap_or(b"")) {
        (3, b"new") => new(rt, err),
        (3, b"show") => show(rt),
        (4, b"show") => show_word(rt),
        (7, b"add") => add(rt, err),
        (4.., b"join") => join(rt, err, words),
        _ => Err(Failure::WrongWords),
    }
}

fn main(rt: HostRuntime) {
    let err = rt.stderr();
    if let Err(why) = call(&rt, &err, word_count(&rt)) {
        why.say(&rt, &err);
    }
}
