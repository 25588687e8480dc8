// The words of a program's call. Word 0 is the program's name.
ghost use Rattle.std.specs.Prelude.{◌≤◌, IfSome, length};

use std::env::{Env, FillError};

// The longest word that Linux hands to a program, its end included: no word is cut.
pub const WORD: usize = 131072;

// Word i, which is put at the start of the room: none where there is no such word or it is longer than the room.
pub fn word<'a>(env: &impl Env, i: usize, room: &'a mut [u8]) -> Option<&'a [u8]>
    ensures { IfSome result (λ w. length w.now ≤ length room.old) }
{
    match env.arg(i, &mut *room) {
        Ok(n) => Some(&room[..n]),
        Err(_) => None,
    }
}

// Whether there is a word i.
fn is_word(env: &impl Env, i: usize) -> bool {
    !matches!(env.arg(i, &mut []), Err(FillError::NotPresent))
}

// How many words there are.
pub fn word_count(env: &impl Env) -> usize {
    (0..usize::MAX)
        .find(|i| !is_word(env, *i))
        .unwrap_or(usize::MAX)
}
