// What a program is given: the words of its call, and the bytes of a file, for programs that hold a file whole; and why a file or a stream fails.
#![tactic(auto)]

ghost use Rattle.std.specs.Prelude.{◌≡◌, ◌↔◌, ◌≤◌, IfOk, IfErr, IsOk, OnErr, length, take};
ghost use Rattle.std.specs.Str.{IsUtf8};
ghost use Rattle.std.specs.IoError.{error_kind};

mod named;
mod why;
mod words;

pub use named::{LoadError, load_word};
use std::io::{ErrorKind, Read};
use std::rt::Files;
use std::{fs, io};
pub use why::{say, say_why};
pub use words::{WORD, word, word_count};

// One read into the room from byte n on: how many bytes there are then.
fn read_more<R: Read>(file: &mut R, room: &mut [u8], n: usize) -> io::Result<usize>
    requires { n ≤ length room.old }
    ensures { IfOk result (λ m. (n ≤ m) × (m ≤ length room.old)) }
{
    let got = file.read(&mut room[n..])?;
    Ok(n + got)
}

// Reads until the room is full or the file ends, with the same answer.
fn read_all<R: Read>(file: &mut R, room: &mut [u8]) -> io::Result<usize>
    ensures { IfOk result (λ n. n ≤ length room.old) }
{
    let mut n = 0;
    while n < room.len() {
        let more = read_more(file, room, n)?;
        if more == n {
            return Ok(n);
        }
        n = more;
    }
    Ok(n)
}

// A file's name as text, as std opens files by.
pub fn file_name(path: &[u8]) -> io::Result<&str>
    ensures ok { IfOk result (λ name. name.now ≡ path.now) }
    ensures utf8 { IsOk result ↔ IsUtf8 path.now }
    ensures err { IfErr result (λ e. error_kind e ≡ ErrorKind.InvalidInput) }
{
    match str::from_utf8(path) {
        Ok(name) => Ok(name),
        Err(_) => Err(io::Error::new(ErrorKind::InvalidInput, "The name is not UTF-8")),
    }
}

// The bytes of a file, as many as there is room for, and how many they are; or why it cannot be read to its end or to that of the room: then
// the room is as long as before, and may hold any bytes.
pub fn load<R: Files>(files: &R, path: &[u8], room: &mut [u8]) -> io::Result<usize>
    ensures ok { IfOk result (λ n. n ≤ length room.old) }
    ensures err { OnErr result (length room.new ≡ length room.old) }
{
    let mut file = fs::open(files, file_name(path)?)?;
    read_all(&mut file, room)
}

// The first n bytes, or all where there are fewer.
pub fn upto(s: &[u8], n: usize) -> &[u8]
    ensures { result.now ≡ take n s.now }
{
    s.get(..n).unwrap_or(s)
}
