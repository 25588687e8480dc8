// A script's records, one after the other, on a source table and on a table for translations.
use crate::calls::{check, list, read, run, translate, write};
use crate::files::{load, say};
use crate::records::{Record, count, part, script_record};
use crate::tables::{ROOM, fill_gaps, put_cells};
use loading::upto;
use std::io::Print;
use std::rt::Files;

// The longest script.
const SCRIPT: usize = 262144;

// A record that changes the source table.
fn change(rt: &impl Print, s: &[u8], r: Record, t: &mut [u8]) {
    let kind = r.kind;
    match kind {
        0 => read(rt, s, r, t),
        1 => put_cells(t, part(s, r.given_at, r.given_len)),
        _ => fill_gaps(t, part(s, r.given_at, r.given_len), r.budget),
    }
}

// A record that leaves it as it is.
fn ask(rt: &impl Print, s: &[u8], r: Record, t: &[u8], translated: &[u8]) {
    let kind = r.kind;
    match kind {
        4 => list(rt, s, r),
        5 => check(rt, r, t),
        6 => run(rt, s, r, t),
        7 => run(rt, s, r, translated),
        8 => write(rt, s, r, t),
        _ => write(rt, s, r, translated),
    }
}

fn play(rt: &impl Print, s: &[u8], r: Record, t: &mut [u8], translated: &mut [u8]) {
    say(rt, part(s, r.label_at, r.label_len));
    let kind = r.kind;
    match kind {
        0..=2 => change(rt, s, r, t),
        3 => translate(rt, s, r, t, translated),
        _ => ask(rt, s, r, t, translated),
    }
}

fn play_all(rt: &impl Print, s: &[u8], t: &mut [u8], translated: &mut [u8]) {
    let n = count(s);
    let mut i = 0;
    while i < n {
        play(rt, s, script_record(s, i), t, translated);
        i += 1;
    }
}

// The script of this name.
pub(crate) fn script(rt: &(impl Files + Print), name: &[u8]) {
    let mut s = [0u8; SCRIPT];
    let n = load(rt, name, &mut s);
    if SCRIPT < n {
        say(rt, name);
        say(rt, b" cannot be read\n");
        return;
    }
    let mut t = [0u8; ROOM];
    let mut translated = [0u8; ROOM];
    play_all(rt, upto(&s, n), &mut t, &mut translated);
}
