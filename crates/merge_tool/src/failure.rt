// Why nothing is shown or merged, and what is said besides.
use loading::{LoadError, WORD, say, say_why, upto, word};
use merge::Merged;
use merge_lines::put_refused;
use std::env::Env;
use std::io::{Error, Print};

#[derive(Drop)]
pub(crate) enum Failure {
    WrongWords,
    NoBudget,
    NoAppliance,
    // There is a file of the new store's name.
    Taken,
    // The store's name leaves no room for a new file's.
    LongName,
    NoFile(LoadError),
    // Word i names a file of another length than a store's, or one with bytes that are none's.
    OtherLength(usize),
    NoStore(usize),
    // Lines of the records' file are bad: each was told where it was read.
    BadLines,
    // The number and the place of a refusal.
    Refused(u64, u64),
    // The store cannot be replaced, and is as it was.
    Kept(Error),
    Unwritten(Error),
}

impl From<LoadError> for Failure {
    fn from(why: LoadError) -> Failure {
        Failure::NoFile(why)
    }
}

// What a merge answers.
pub(crate) fn merged(m: Merged) -> Result<(), Failure> {
    match m.number {
        0 => Ok(()),
        number => Err(Failure::Refused(number, m.place)),
    }
}

// Writes an answer to standard output.
pub(crate) fn answer(rt: &impl Print, lines: &[u8]) -> Result<(), Failure> {
    rt.write_all(lines).map_err(Failure::Unwritten)
}

// Says a line about the file that word i names.
fn say_of(rt: &impl Env, err: &impl Print, before: &[u8], i: usize, after: &[u8]) {
    let mut path = [0u8; WORD];
    say(err, before);
    say(err, word(rt, i, &mut path).unwrap_or(b""));
    say(err, after);
}

// Says why something fails with the file that word i names.
fn say_why_of(rt: &impl Env, err: &impl Print, what: &[u8], i: usize, why: Error) {
    let mut path = [0u8; WORD];
    say(err, what);
    say_why(err, word(rt, i, &mut path).unwrap_or(b""), why);
}

// Says that a line of the records' file is bad.
pub(crate) fn say_line(err: &impl Print, path: &[u8], line: u64) {
    say(err, b"merge: ");
    say(err, path);
    say(err, b" line ");
    let _ = err.print(line);
    say(
        err,
        b": not four decimal numbers parted by tabs (appliance, time, tablet, reading); nothing was merged\n",
    );
}

// Says that the names of a store's directory may not be on its device. The store has its new bytes already.
pub(crate) fn say_unsynced(err: &impl Print, path: &[u8], why: Error) {
    say(
        err,
        b"merge: the store is replaced, but may be lost if the machine stops soon, as its directory cannot be synced; sync it: ",
    );
    say_why(err, path, why);
}

// Says that standard output cannot be written.
fn say_unwritten(err: &impl Print, why: Error) {
    say_why(err, b"merge: cannot write to standard output", why);
}

// `refused`, a refusal's number and its place, on standard output.
fn say_refused(rt: &impl Print, err: &impl Print, number: u64, place: u64) {
    let mut out = [0u8; 64];
    let n = put_refused(number, place, &mut out);
    if let Err(why) = rt.write_all(upto(&out, n)) {
        say_unwritten(err, why);
    }
}

impl Failure {
    // Says it: a refusal on standard output, all else in a line on standard error. Where that cannot be written there is nobody to tell.
    pub(crate) fn say(self, rt: &(impl Env + Print), err: &impl Print) {
        match self {
            Failure::WrongWords => say(
                err,
                b"merge: wrong words; say: merge new STORE, merge add STORE FILE FUNCTION BUDGET RECORDS, merge join STORE OTHER.. or merge show STORE [APPLIANCE]\n",
            ),
            Failure::NoBudget => say(
                err,
                b"merge: the budget is not a decimal number from 0 on; say: merge add STORE FILE FUNCTION BUDGET RECORDS\n",
            ),
            Failure::NoAppliance => say(
                err,
                b"merge: the appliance is not a decimal number from 0 to 18446744073709551615; say: merge show STORE [APPLIANCE]\n",
            ),
            Failure::Taken => say_of(
                rt,
                err,
                b"merge: ",
                crate::STORE,
                b" is there already; name another file, or remove that one first\n",
            ),
            Failure::LongName => say_of(
                rt,
                err,
                b"merge: the name ",
                crate::STORE,
                b" is too long; name the store from its own directory\n",
            ),
            Failure::NoFile(LoadError::NoName) => say(
                err,
                b"merge: the name of a file is an empty word; say the name of a file\n",
            ),
            Failure::NoFile(LoadError::Unread(i, why)) => {
                say_why_of(rt, err, b"merge: cannot read ", i, why);
            }
            Failure::OtherLength(i) => say_of(
                rt,
                err,
                b"merge: ",
                i,
                b" is no store, which has 40968 bytes; name a store, or begin one: merge new STORE\n",
            ),
            Failure::NoStore(i) => say_of(
                rt,
                err,
                b"merge: ",
                i,
                b" is no store, though it is as long as one; take a copy that was kept, or begin one: merge new STORE\n",
            ),
            Failure::BadLines => {}
            Failure::Refused(number, place) => say_refused(rt, err, number, place),
            Failure::Kept(why) => say_why_of(
                rt,
                err,
                b"merge: nothing was merged, and the store is as it was; see that its directory can be written and has room: ",
                crate::STORE,
                why,
            ),
            Failure::Unwritten(why) => say_unwritten(err, why),
        }
    }
}
