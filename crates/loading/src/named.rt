// The bytes of a file that a word names.
ghost use Rattle.std.specs.Prelude.{◌≤◌, IfOk, length};

use crate::{WORD, load, word};
use std::env::Env;
use std::io;
use std::rt::Files;

// Why there are none: the word names nothing, or the file of this word cannot be read to its end or to that of the room.
#[derive(Drop)]
pub enum LoadError {
    NoName,
    Unread(usize, io::Error),
}

// As many bytes of the file that word i names as there is room for.
pub fn load_word<'a>(
    rt: &(impl Env + Files),
    i: usize,
    room: &'a mut [u8],
) -> Result<&'a [u8], LoadError>
    ensures { IfOk result (λ bytes. length bytes.now ≤ length room.old) }
{
    let mut name = [0u8; WORD];
    let path = word(rt, i, &mut name).unwrap_or(b"");
    if path.is_empty() {
        return Err(LoadError::NoName);
    }
    match load(rt, path, &mut *room) {
        Ok(n) => Ok(&room[..n]),
        Err(why) => Err(LoadError::Unread(i, why)),
    }
}
