// Standard output, and the files in the folder the program runs in.
ghost use Rattle.std.specs.Prelude.{◌+◌, ◌≤◌, IfOk, length};

use loading::file_name;
use std::io::{Print, Read};
use std::rt::Files;
use std::{fs, io};

pub(crate) fn say(rt: &impl Print, s: &[u8]) {
    let _ = rt.write_all(s);
}

// A number in decimal digits, after some words.
pub(crate) fn say_number(rt: &impl Print, words: &[u8], n: u64) {
    say(rt, words);
    let _ = rt.print(n);
}

// The bytes up to the end of a file, and how many there are; one more than there is room for where there are more.
fn read_full<R: Read>(file: &mut R, into: &mut [u8]) -> io::Result<usize>
    requires { length into.old ≤ 262144 }
    ensures { IfOk result (λ n. n ≤ length into.old + 1) }
{
    let mut n = 0;
    while n < into.len() {
        let got = file.read(&mut into[n..])?;
        if got == 0 {
            return Ok(n);
        }
        n += got;
    }
    let mut more = [0u8; 1];
    let rest = file.read(&mut more)?;
    Ok(n + rest)
}

// The same from a name on.
fn read_file(rt: &impl Files, name: &[u8], into: &mut [u8]) -> io::Result<usize>
    requires { length into.old ≤ 262144 }
    ensures { IfOk result (λ n. n ≤ length into.old + 1) }
{
    let mut file = fs::open(rt, file_name(name)?)?;
    read_full(&mut file, into)
}

// The bytes of a file, and how many there are; one more than there is room for where it cannot be read whole.
pub(crate) fn load(rt: &impl Files, name: &[u8], into: &mut [u8]) -> usize
    requires { length into.old ≤ 262144 }
    ensures { result ≤ length into.old + 1 }
{
    match read_file(rt, name, into) {
        Ok(n) => n,
        Err(_) => into.len() + 1,
    }
}
