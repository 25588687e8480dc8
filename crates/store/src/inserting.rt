// A record put into a store.
ghost use Rattle.std.specs.Prelude.{◌≡◌, ◌+◌, ◌≤◌, length};
ghost use Rattle.records.specs.Stores.{insert as inserted, store_length, HasRoom};
ghost use Rattle.records.specs.Answers.{Kept, kept_as};
ghost use Rattle.store.specs.Inserting.{over_at, inserted_at};

use crate::cells::{count, put_count, put_record, record_at};
use crate::search::{place, stands};
use crate::winner::beats;
use numbers::move_up;
use records::{APPLIANCES_OFFSET, CAPACITY, RECORD_LENGTH, Record};

// The winner of the record at place p and a newcomer of its appliance stays there; nothing is written where that is the one there.
fn put_over(s: &mut [u8], p: usize, r: Record)
    requires { HasRoom s.old (p + 1) }
    ensures { s.new ≡ over_at s.old p r }
{
    let e = record_at(s, p);
    if beats(r, e) {
        put_record(s, p, r);
    }
}

// A record of a new appliance goes in at place p of n; those from there on make room.
fn put_between(s: &mut [u8], n: usize, p: usize, r: Record)
    requires { (p ≤ n) × HasRoom s.old (n + 1) }
    ensures { s.new ≡ inserted_at s.old n p r }
{
    let from = APPLIANCES_OFFSET + RECORD_LENGTH * p;
    move_up(
        s,
        from,
        APPLIANCES_OFFSET + RECORD_LENGTH * n,
        RECORD_LENGTH,
    );
    put_record(s, p, r);
    put_count(s, n + 1);
}

// Merges r into a store, or answers false, and changes nothing, where there is no room: 60, "store full and appliance new".
pub fn insert(s: &mut [u8], r: Record) -> bool
    requires { length s.old ≡ store_length }
    ensures { Kept s.old (inserted r) (kept_as result s.new) }
{
    let n = count(s);
    let p = place(s, n, r.appliance);
    if stands(s, n, p, r.appliance) {
        put_over(s, p, r);
        return true;
    }
    if n == CAPACITY {
        return false;
    }
    put_between(s, n, p, r);
    true
}
