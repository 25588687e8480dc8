// Why the tool prints no answer.
use loading::{LoadError, WORD, say, say_why, word};
use std::env::Env;
use std::io::{Error, Print};

#[derive(Drop)]
pub(crate) enum Failure {
    WrongWords,
    NoBudget,
    NoArgument,
    NoText(LoadError),
    Unwritten(Error),
}

impl From<LoadError> for Failure {
    fn from(why: LoadError) -> Failure {
        Failure::NoText(why)
    }
}

impl Failure {
    // Says it in a line. Where that cannot be written there is nobody to tell.
    pub(crate) fn say(self, rt: &impl Env, err: &impl Print) {
        match self {
            Failure::WrongWords => say(
                err,
                b"ial: wrong words; say: ial list FILE, ial write FILE, ial run FILE FUNCTION BUDGET [ARG..] or ial translate FILE FUNCTION\n",
            ),
            Failure::NoBudget => say(
                err,
                b"ial: the budget is not a decimal number from 0 on; say: ial run FILE FUNCTION BUDGET [ARG..]\n",
            ),
            Failure::NoArgument => say(
                err,
                b"ial: an argument is not a decimal number; say: ial run FILE FUNCTION BUDGET [ARG..]\n",
            ),
            Failure::NoText(LoadError::NoName) => say(
                err,
                b"ial: FILE is an empty word; say the name of a file that holds a text\n",
            ),
            Failure::NoText(LoadError::Unread(i, why)) => {
                let mut path = [0u8; WORD];
                say(err, b"ial: cannot read ");
                say_why(err, word(rt, i, &mut path).unwrap_or(b""), why);
            }
            Failure::Unwritten(why) => {
                say_why(err, b"ial: cannot write to standard output", why);
            }
        }
    }
}
