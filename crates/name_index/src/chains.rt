// Names in chains, one for each hash: `last[h]` is 1 more than the number of the latest name of hash h, `before[i]` the same for the one
// before name i, and 0 ends a chain. `last` has HEADS places, `before` table::MAX_REGISTERS.
ghost use Rattle.std.specs.Prelude.{◌≡◌, [], ◌+◌, ◌-◌, ◌*◌, ◌<◌, ◌≤◌, length};
ghost use Rattle.laws.specs.Lists.{same as same_as};
ghost use Rattle.language.specs.Programs.{max_registers};
ghost use Rattle.language.specs.Table.{eight};
ghost use Rattle.table.specs.Named.{FindsName, NameWithin, NamesWithin};
ghost use Rattle.name_index.specs.Chains.{Indexed, Adds, IndexedIf};
ghost use Rattle.name_index.specs.Hashes.{heads, end_of};
ghost use Rattle.name_index.specs.Names.{names_in};

use crate::hashes::{end, hash};
use numbers::eight_at;
use table::name_at;

// Whether the other name is `name`, whose end is x: lengths and ends first, since they tell most names apart.
fn is_name(other: &[u8], name: &[u8], x: u64) -> bool
    requires { x ≡ end_of name.now }
    ensures { result ≡ same_as other.now name.now }
{
    if other.len() != name.len() {
        return false;
    }
    if end(other) != x {
        return false;
    }
    // The end has all of its bytes.
    if name.len() <= 8 {
        return true;
    }
    same_start(other, name)
}

// Whether a and b, of one length and with the same last eight bytes, are the same: eights from the start on, of which the last may reach into those.
fn same_start(a: &[u8], b: &[u8]) -> bool
    requires a_len { (length a.now ≡ length b.now) × (8 < length a.now) }
    requires a_value { eight a.now (length a.now - 8) ≡ eight b.now (length b.now - 8) }
    ensures { result ≡ same_as a.now b.now }
{
    let mut i = 0;
    while i < a.len() - 8 {
        if eight_at(a, i) != eight_at(b, i) {
            return false;
        }
        i += 8;
    }
    true
}

// `find` for a name of no bytes, which is in no chain: the first of `count` names that has none.
fn find_none(t: &[u8], at: usize, stride: usize, count: usize) -> Option<usize>
    requires { NamesWithin t.now at stride count }
    ensures { FindsName t.now at stride count [] result }
{
    for i in 0..count {
        let other = name_at(t, at + stride * i);
        let bytes = other.len();
        if bytes == 0 {
            return Some(i);
        }
    }
    None
}

// The first of `count` names that equals `name`. Their length cells stand `stride` apart, from cell `at` on. Neither
// `table::find_name` nor `table::same` is called: a call that takes slices makes the compiler keep them in memory.
pub fn find(
    t: &[u8],
    at: usize,
    stride: usize,
    count: usize,
    name: &[u8],
    last: &[u16],
    before: &[u16],
) -> Option<usize>
    requires names_within { NamesWithin t.now at stride count }
    requires indexed { Indexed (names_in t.now at stride count) last.now before.now }
    ensures { FindsName t.now at stride count name.now result }
{
    if name.is_empty() {
        return find_none(t, at, stride, count);
    }
    let x = end(name);
    // Kept, rule: 0 ends a chain in the definition `Chained`, and a place of a chain is one `u16`.
    let mut y = usize::from(last[hash(x)]);
    while y != 0 {
        let j = y - 1;
        if is_name(name_at(t, at + stride * j), name, x) {
            return Some(j);
        }
        y = usize::from(before[j]);
    }
    None
}

// Name n is put at the head of its chain.
pub fn add(n: usize, name: &[u8], last: &mut [u16], before: &mut [u16])
    requires { (n < max_registers) × (length last.old ≡ heads) × (length before.old ≡ max_registers) }
    ensures { Adds n name.now last.old before.old last.new before.new }
{
    let h = hash(end(name));
    before[n] = last[h];
    last[h] = (n + 1) as u16;
}

// Name i goes into its chain unless it is one of those before it, of which the answer tells. A name of no bytes is in no chain.
fn add_distinct(
    t: &[u8],
    at: usize,
    stride: usize,
    i: usize,
    last: &mut [u16],
    before: &mut [u16],
) -> bool
    requires name_within { NameWithin t.now (at + stride * i) × (i < max_registers) }
    requires indexed { Indexed (names_in t.now at stride i) last.old before.old }
    ensures { IndexedIf (names_in t.now at stride (i + 1)) last.new before.new result }
{
    let name = name_at(t, at + stride * i);
    if name.is_empty() {
        return true;
    }
    if find(t, at, stride, i, name, last, before).is_some() {
        return false;
    }
    add(i, name, last, before);
    true
}

// All of `count` names go into chains that have none, as long as each of one byte or more is new; whether all are is the answer.
pub fn index(
    t: &[u8],
    at: usize,
    stride: usize,
    count: usize,
    last: &mut [u16],
    before: &mut [u16],
) -> bool
    requires names_within { NamesWithin t.now at stride count × (count ≤ max_registers) }
    requires indexed { Indexed [] last.old before.old }
    ensures { IndexedIf (names_in t.now at stride count) last.new before.new result }
{
    for i in 0..count {
        if !add_distinct(t, at, stride, i, last, before) {
            return false;
        }
    }
    true
}
