// The numbers of made names and the flags of given ones, for registers and blocks alike. `first` is the first byte of the kind's prefix, and the length cells of the
// names stand `stride` apart, from cell `at` on.
ghost use Rattle.std.specs.Prelude.{◌≡◌, ◌&&◌, not, ◌+◌, ◌<◌, ◌≤◌, eqb, length, replicate, drop};
ghost use Rattle.laws.specs.Lists.{empty, sum};
ghost use Rattle.language.specs.Table.{name_at, register_count, block_count, decode_function, InTable};
ghost use Rattle.naming.specs.Numbers.{prefix_of};
ghost use Rattle.naming.specs.Numbered.{plain_flag, Marked, Free, Numbered, RegistersNumbered, BlocksNumbered};
ghost use Rattle.language.specs.Programs.{max_blocks, max_registers};
ghost use Rattle.vocabulary.specs.Classes.{class_table};
ghost use Rattle.table.specs.Named.{NameWithin, NamesWithin};

use crate::suffixes::{OTHER, number};
use table::{
    BLOCK_LENGTH, BLOCK_NAMES_OFFSET, REGISTER_LENGTH, REGISTER_NAMES_OFFSET, block_count,
    function_entry, name_at, register_count,
};
use vocabulary::{classes, plain_name};

// The first byte of `p.` and of `e.`.
const REGISTER_PREFIX: u8 = 112;

const BLOCK_PREFIX: u8 = 101;

// The flag of a given name that is spelled plainly: each is tested once, however often it is written.
pub const PLAIN: u16 = 1;

// No register keeps a name of no bytes: there are 256 at most.
// Kept, rule: `MadeNames.block_title` asks for the number of the name that stays unnamed.
const NO_REGISTER: usize = 256;

// Marks the numbers in use; cell 512 is marked for any other name.
fn mark(t: &[u8], at: usize, stride: usize, count: usize, first: u8, marks: &mut [u8])
    requires { NamesWithin t.now at stride count × (marks.old ≡ replicate 513 0) }
    ensures { Marked (prefix_of first) t.now at stride count marks.new }
{
    for i in 0..count {
        let j = number(name_at(t, at + stride * i), first).unwrap_or(OTHER);
        marks[j] = 1;
    }
}

// The first number from k on that is not marked.
fn free(marks: &[u8], k: usize) -> usize
    requires { (length marks.now ≡ 513) × (k + sum (drop k marks.now) < 512) }
    ensures { Free marks.now k result }
{
    let mut next = k;
    // Kept, plainer: `position` would answer an Option, and a free number is always there.
    while marks[next] != 0 {
        next += 1;
    }
    next
}

// Whether the name whose length is cell c has no bytes and is not the one that stays so.
fn unnamed(t: &[u8], c: usize, i: usize, kept: usize) -> bool
    requires { NameWithin t.now c }
    ensures { result ≡ (empty (name_at t.now c) && not (eqb i kept)) }
{
    t[c] == 0 && i != kept
}

// The flag of a given name.
fn plain_flag(name: &[u8], classes: &[u8; 256]) -> u16
    requires { classes.now ≡ class_table }
    ensures { result ≡ plain_flag name.now }
{
    u16::from(plain_name(name, classes))
}

// The numbers of the names that are made, in order, and the flags of the others; name `kept` is not made.
fn number_names(
    t: &[u8],
    at: usize,
    stride: usize,
    count: usize,
    first: u8,
    kept: usize,
    made: &mut [u16],
)
    requires { NamesWithin t.now at stride count × (count ≤ max_registers) × (count ≤ length made.old) }
    ensures { Numbered (prefix_of first) t.now at stride count kept made.new }
{
    let table = classes();
    let mut marks = [0u8; 513];
    mark(t, at, stride, count, first, &mut marks);
    let mut next = 0;
    for i in 0..count {
        let c = at + stride * i;
        if !unnamed(t, c, i, kept) {
            made[i] = plain_flag(name_at(t, c), &table);
            continue;
        }
        let j = free(&marks, next);
        made[i] = j as u16;
        next = j + 1;
    }
}

pub fn number_registers(t: &[u8], a: usize, made: &mut [u16])
    requires { (InTable t.now a) × (register_count t.now a ≤ max_registers) × (max_registers ≤ length made.old) }
    ensures { RegistersNumbered (decode_function t.now a) made.new }
{
    let count = register_count(t, a);
    number_names(
        t,
        a + REGISTER_NAMES_OFFSET,
        REGISTER_LENGTH,
        count,
        REGISTER_PREFIX,
        NO_REGISTER,
        made,
    );
}

pub fn number_blocks(t: &[u8], a: usize, made: &mut [u16])
    requires { (InTable t.now a) × (block_count t.now a ≤ max_blocks) × (max_blocks ≤ length made.old) }
    ensures { BlocksNumbered (decode_function t.now a) made.new }
{
    let count = block_count(t, a);
    let entry = function_entry(t, a);
    number_names(
        t,
        a + BLOCK_NAMES_OFFSET,
        BLOCK_LENGTH,
        count,
        BLOCK_PREFIX,
        entry,
        made,
    );
}
