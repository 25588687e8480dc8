// Why a file or a stream fails, in words.
use crate::upto;
use std::io;
use std::io::{Cursor, Print, Write};

// Room for the longest words of the system and their number.
const ROOM: usize = 320;

// The words that an error has at the start of these bytes: of the system's errors std puts the number behind, which is left out.
fn without_number(said: &[u8]) -> &[u8] {
    let Ok(text) = str::from_utf8(said) else {
        return said;
    };
    match text.split_once(" (os error ") {
        Some((words, _)) => words.as_bytes(),
        None => said,
    }
}

// Says bytes. Where they cannot be written there is nobody to tell.
pub fn say(to: &impl Print, bytes: &[u8]) {
    let _ = to.write_all(bytes);
}

// A line on what fails and why.
pub fn say_why(to: &impl Print, what: &[u8], why: io::Error) {
    let mut room = [0u8; ROOM];
    let mut said = Cursor::new(&mut room[..]);
    let _ = write!(said, "{why}");
    let n = said.position() as usize;
    say(to, what);
    say(to, b": ");
    say(to, without_number(upto(&room, n)));
    say(to, b"\n");
}
