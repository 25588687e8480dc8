// Records taken from a file line by line and merged into a store in memory. Whatever a line holds, the rest of the file is read, so that every
// bad line is told.
use crate::RECORDS;
use crate::failure::{Failure, say_line};
use decimal::LINE_FEED;
use loading::{LoadError, WORD, file_name, word};
use merge::{Merged, merge_records};
use merge_lines::{Line, line_numbers};
use std::env::Env;
use std::io::{Error, Print, Read};
use std::rt::Files;
use std::{fs, io};

// The most bytes of a line, and the bytes of one read.
const LINE: usize = 256;

const CHUNK: usize = 65536;

// Room for the numbers of all lines that end in one read: no line of four numbers has fewer than eight bytes, and the first may have begun before.
const NUMBERS: usize = 32772;

// What every record is judged by: a function of a table, and its steps.
#[derive(Clone, Copy)]
pub(crate) struct Limit<'a> {
    pub(crate) table: &'a [u8],
    pub(crate) function: u64,
    pub(crate) budget: u64,
}

impl Limit<'_> {
    // Merges records into a store, with their verdicts.
    pub(crate) fn merge(self, store: &mut [u8], records: &[u64]) -> Merged {
        merge_records(store, self.table, self.function, self.budget, records)
    }
}

// Where a file's reading stands: how many lines have ended, and how many of them were records; how many bytes the next one has so far, of which
// those past its room are not kept; how many numbers wait for their merge; the number of the first refusal of one.
#[derive(Clone, Copy)]
struct Progress {
    lines: u64,
    records: u64,
    length: usize,
    waiting: usize,
    refused: Option<u64>,
}

impl Progress {
    // Nothing was read yet.
    fn new() -> Self {
        Progress {
            lines: 0,
            records: 0,
            length: 0,
            waiting: 0,
            refused: None,
        }
    }

    // Bytes more of the line.
    fn keep(&mut self, bytes: &[u8], line: &mut [u8]) {
        let end = self.length.saturating_add(bytes.len());
        if let Some(room) = line.get_mut(self.length..end) {
            room.copy_from_slice(bytes);
        }
        self.length = end;
    }

    // Keeps the four numbers of a record behind those that wait.
    fn wait(&mut self, told: Line, numbers: &mut [u64]) {
        let end = self.waiting.saturating_add(4);
        if let Some(room) = numbers.get_mut(self.waiting..end) {
            room.copy_from_slice(&[told.appliance, told.time, told.tablet, told.reading]);
            self.waiting = end;
        }
    }

    // The line has ended: its numbers wait, or it is told. One that is too long says none.
    fn end_line(&mut self, err: &impl Print, line: &[u8], numbers: &mut [u64], path: &[u8]) {
        self.lines = self.lines.wrapping_add(1);
        let bytes = line.get(..self.length).unwrap_or(b"");
        self.length = 0;
        match line_numbers(bytes) {
            Some(told) => {
                self.wait(told, numbers);
                self.records = self.records.wrapping_add(1);
            }
            None => say_line(err, path, self.lines),
        }
    }

    // Some bytes of the file: behind each LF a line begins.
    fn take(
        &mut self,
        err: &impl Print,
        bytes: &[u8],
        line: &mut [u8],
        numbers: &mut [u64],
        path: &[u8],
    ) {
        for (i, part) in bytes.split(|b| *b == LINE_FEED).enumerate() {
            if i > 0 {
                self.end_line(err, line, numbers, path);
            }
            self.keep(part, line);
        }
    }

    // Merges the numbers that wait. After a refusal nothing more is merged: the first one stays.
    fn merge_waiting(&mut self, numbers: &[u64], store: &mut [u8], limit: Limit<'_>) {
        let waiting = numbers.get(..self.waiting).unwrap_or(&[]);
        self.waiting = 0;
        if self.refused.is_none() {
            let m = limit.merge(store, waiting);
            if m.number != 0 {
                self.refused = Some(m.number);
            }
        }
    }

    // One read of the file, and whether it has ended: a last LF ends the last line and begins none.
    fn read<R: Read>(
        &mut self,
        file: &mut R,
        err: &impl Print,
        line: &mut [u8],
        numbers: &mut [u64],
        path: &[u8],
    ) -> io::Result<bool> {
        let mut bytes = [0u8; CHUNK];
        let n = file.read(&mut bytes)?;
        if n > 0 {
            self.take(err, &bytes[..n], line, numbers, path);
        } else if self.length > 0 {
            self.end_line(err, line, numbers, path);
        }
        Ok(n == 0)
    }
}

// The whole file. A proved loop has to end, and nothing says that a file does: the turns are as many as no run uses up.
fn read_all<R: Read>(
    file: &mut R,
    err: &impl Print,
    line: &mut [u8],
    numbers: &mut [u64],
    store: &mut [u8],
    limit: Limit<'_>,
    path: &[u8],
) -> io::Result<Progress> {
    let mut p = Progress::new();
    for _ in 0..u64::MAX {
        let ended = p.read(file, err, line, numbers, path)?;
        p.merge_waiting(numbers, store, limit);
        if ended {
            return Ok(p);
        }
    }
    Err(Error::other("The file does not end"))
}

// The same from a name on, with room for a line and for numbers.
fn merge_open(
    rt: &impl Files,
    err: &impl Print,
    store: &mut [u8],
    limit: Limit<'_>,
    path: &[u8],
) -> io::Result<Progress> {
    let mut file = fs::open(rt, file_name(path)?)?;
    let mut line = [0u8; LINE];
    let mut numbers = [0u64; NUMBERS];
    read_all(&mut file, err, &mut line, &mut numbers, store, limit, path)
}

// Merges the records of the file that a word names. How many they are.
pub(crate) fn merge_file(
    rt: &(impl Env + Files),
    err: &impl Print,
    store: &mut [u8],
    limit: Limit<'_>,
) -> Result<u64, Failure> {
    let mut path = [0u8; WORD];
    let path = word(rt, RECORDS, &mut path).unwrap_or(b"");
    if path.is_empty() {
        return Err(Failure::NoFile(LoadError::NoName));
    }
    let p = match merge_open(rt, err, store, limit, path) {
        Ok(p) => p,
        Err(why) => return Err(Failure::NoFile(LoadError::Unread(RECORDS, why))),
    };
    if p.lines != p.records {
        return Err(Failure::BadLines);
    }
    match p.refused {
        Some(number) => Err(Failure::Refused(number, 0)),
        None => Ok(p.records),
    }
}
