// The library's answers in words.
use crate::files::{say, say_number};
use ial::{Ran, Refusal, Stop};
use std::io::Print;

pub(crate) fn say_refused(rt: &impl Print, e: Refusal) {
    say_number(rt, b"refused ", u64::from(u8::from(e.reason)));
    say_number(rt, b" at ", e.place as u64);
}

fn say_steps(rt: &impl Print, steps: u64) {
    say_number(rt, b", ", steps);
    say(rt, b" steps");
}

// The answer of a call that fills a table or judges one.
pub(crate) fn say_verdict(rt: &impl Print, v: Result<(), Refusal>, accepted: &[u8]) {
    match v {
        Err(e) => say_refused(rt, e),
        Ok(()) => say(rt, accepted),
    }
}

fn say_returned(rt: &impl Print, value: u64, steps: u64) {
    say_number(rt, b"returned ", value);
    say_steps(rt, steps);
}

fn say_left(rt: &impl Print, steps: u64) {
    say(rt, b"left");
    say_steps(rt, steps);
}

fn say_stopped(rt: &impl Print, stop: Stop, place: usize, steps: u64) {
    say_number(rt, b"stopped ", u64::from(u8::from(stop)));
    say_number(rt, b" at ", place as u64);
    say_steps(rt, steps);
}

// The answer of a run.
pub(crate) fn say_ran(rt: &impl Print, r: Result<Ran, Refusal>) {
    match r {
        Ok(Ran::Returned { value, steps }) => say_returned(rt, value, steps),
        Ok(Ran::Left { steps }) => say_left(rt, steps),
        Ok(Ran::Stopped { stop, place, steps }) => say_stopped(rt, stop, place, steps),
        Err(e) => say_refused(rt, e),
    }
}

// The answer of a call that writes a text.
pub(crate) fn say_wrote(rt: &impl Print, w: Result<usize, Refusal>) {
    match w {
        Ok(n) => say_number(rt, b"wrote ", n as u64),
        Err(e) => say_refused(rt, e),
    }
}
