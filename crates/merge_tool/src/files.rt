// Files: a store loaded, and replaced whole.
ghost use Rattle.std.specs.Prelude.{◌≡◌, ◌≤◌, IfSome, length};
ghost use Rattle.records.specs.Stores.{store_length};

use crate::STORE;
use crate::failure::{Failure, say_unsynced};
use loading::{WORD, file_name, load_word, word};
use records::STORE_LENGTH;
use std::env::Env;
use std::fs::{OpenFile, OpenOptions};
use std::io::{Error, ErrorKind, Print, Write};
use std::os::unix::fs::OpenOptionsExt;
use std::random::RandomSource;
use std::rt::Files;
use std::{fs, io};
use stored::is_store;

// A file that fills this room is longer than a store.
const ROOM: usize = STORE_LENGTH + 1;

// The longest path of the system, with the 0 that ends it.
const PATH_MAX: usize = 4096;

// What is left of a path for the store's own: a new file's name has seven bytes more, and a 0 ends it.
const OWN: usize = 4088;

// The letters of a new file's name behind the store's own: what they are taken from, and how many there are.
const LETTERS: [u8; 62] = *b"ABCDEFGHIJKLMNOPQRSTUVWXYZabcdefghijklmnopqrstuvwxyz0123456789";

const LAST: usize = 6;

// How many names are tried for a new file.
const TRIES: usize = 238328;

const SLASH: u8 = 47;

// Loads the store that word i names.
pub(crate) fn load_store(rt: &(impl Env + Files), i: usize, store: &mut [u8]) -> Result<(), Failure>
    requires { length store.old ≡ store_length }
{
    let mut room = [0u8; ROOM];
    let bytes = load_word(rt, i, &mut room)?;
    if bytes.len() != STORE_LENGTH {
        return Err(Failure::OtherLength(i));
    }
    store.copy_from_slice(bytes);
    if is_store(store) {
        return Ok(());
    }
    Err(Failure::NoStore(i))
}

// The directory of a file: its path up to its last slash.
fn directory_of(path: &[u8]) -> &[u8] {
    match path.iter().rposition(|b| *b == SLASH) {
        Some(i) => &path[..=i],
        None => b".",
    }
}

// Waits until a directory's names are on its device.
fn sync_directory(rt: &impl Files, path: &[u8]) -> io::Result<()> {
    let directory = fs::open(rt, file_name(path)?)?;
    directory.sync_all()
}

// Puts letters for the last of a name.
fn put_letters(rt: &impl RandomSource, name: &mut [u8]) -> io::Result<()> {
    let mut some = [0u8; LAST];
    rt.fill_bytes(&mut some)?;
    if let Some(at) = name.len().checked_sub(LAST) {
        for (i, b) in some.iter().enumerate() {
            name[at + i] = LETTERS[usize::from(*b) % LETTERS.len()];
        }
    }
    Ok(())
}

// Creates a file that nobody else may read, where there is none of that name.
fn create_own<R: Files>(rt: &R, name: &[u8]) -> io::Result<R::File> {
    OpenOptions::new()
        .read(true)
        .write(true)
        .create_new(true)
        .mode(0o600)
        .open(rt, file_name(name)?)
}

// Creates a file of a new name: the last letters of the name are put until there is none of that name.
fn create_new<R: Files + RandomSource>(rt: &R, name: &mut [u8]) -> io::Result<R::File> {
    for _ in 0..TRIES {
        put_letters(rt, name)?;
        match create_own(rt, name) {
            Ok(file) => return Ok(file),
            Err(why) => {
                if why.kind() != ErrorKind::AlreadyExists {
                    return Err(why);
                }
            }
        }
    }
    Err(Error::from(ErrorKind::AlreadyExists))
}

// Writes a store to a new file, waits until it is on its device, and closes it.
fn save<F: Write + OpenFile + Drop>(mut file: F, store: &[u8]) -> io::Result<()> {
    file.write_all(store)?;
    file.sync_all()
}

// Gives a new file that is saved the name of a store.
fn rename(rt: &impl Files, name: &[u8], path: &[u8]) -> io::Result<()> {
    fs::rename(rt, file_name(name)?, file_name(path)?)
}

// Removes a new file. Where that fails it is left over, which harms nothing.
fn remove(rt: &impl Files, name: &[u8]) {
    if let Ok(name) = file_name(name) {
        let _ = fs::remove_file(rt, name);
    }
}

// Saves a store in a new file and gives that the store's name, or removes it.
fn save_as<R: Files>(
    rt: &R,
    file: R::File,
    name: &[u8],
    path: &[u8],
    store: &[u8],
) -> io::Result<()> {
    let done = match save(file, store) {
        Ok(()) => rename(rt, name, path),
        Err(why) => Err(why),
    };
    if done.is_err() {
        remove(rt, name);
    }
    done
}

// Puts a new file in a store's place: the new file is whole and on its device before it takes the name, so whoever stops this finds
// the old store or the new one.
fn put_new<R: Files + RandomSource>(
    rt: &R,
    path: &[u8],
    name: &mut [u8],
    store: &[u8],
) -> io::Result<()> {
    let file = create_new(rt, name)?;
    save_as(rt, file, name, path, store)
}

// The name of a new file beside a store's, put at the start of the room: letters are put for the last six. None where it is too long.
fn put_name<'a>(path: &[u8], room: &'a mut [u8; PATH_MAX]) -> Option<&'a mut [u8]>
    ensures { IfSome result (λ name. length name.now ≤ 4096) }
{
    let n = path.len();
    if OWN < n {
        return None;
    }
    room[..n].copy_from_slice(path);
    room[n..n + 7].copy_from_slice(b".XXXXXX");
    Some(&mut room[..n + 7])
}

// Puts a store in the place of the one that the word STORE names. Then waits until the names of its directory are on its device, with a line
// where that fails.
pub(crate) fn replace(
    rt: &(impl Env + Files + RandomSource),
    err: &impl Print,
    store: &[u8],
) -> Result<(), Failure> {
    let mut path = [0u8; WORD];
    let path = word(rt, STORE, &mut path).unwrap_or(b"");
    let mut room = [0u8; PATH_MAX];
    let Some(name) = put_name(path, &mut room) else {
        return Err(Failure::LongName);
    };
    if let Err(why) = put_new(rt, path, name, store) {
        return Err(Failure::Kept(why));
    }
    if let Err(why) = sync_directory(rt, directory_of(path)) {
        say_unsynced(err, path, why);
    }
    Ok(())
}
