// Runs the library by scripts, and prints what it answers: on the outside vectors, and on texts and tables made by documents 01 and 02. `expected.py` makes the
// scripts, and what must be printed, with no code of the library.
#![tactic(auto)]

mod calls;
mod files;
mod records;
mod saying;
mod scripts;
mod tables;

use scripts::script;
use std::io::Print;
use std::rt::Files;

// The script of vector i.
fn path(i: usize) -> [u8; 9] {
    let d = 48 + (i / 100 % 10) as u8;
    let e = 48 + (i / 10 % 10) as u8;
    let f = 48 + (i % 10) as u8;
    [48, d, e, f, 46, 99, 97, 115, 101]
}

fn vectors(rt: &(impl Files + Print)) {
    let mut i = 0;
    while i < 320 {
        script(rt, &path(i));
        i += 1;
    }
}

fn main(rt: HostRuntime) {
    vectors(&rt);
    script(&rt, b"papers.case");
    script(&rt, b"runs.case");
    script(&rt, b"translations.case");
    script(&rt, b"translated_sizes.case");
    script(&rt, b"sizes.case");
    script(&rt, b"texts.case");
    script(&rt, b"faults.case");
    script(&rt, b"names.case");
    script(&rt, b"texts_written.case");
    script(&rt, b"limits_written.case");
    script(&rt, b"vectors_named_0.case");
    script(&rt, b"vectors_named_1.case");
    script(&rt, b"vectors_written_0.case");
    script(&rt, b"vectors_written_1.case");
}
