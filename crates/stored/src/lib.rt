// Whether bytes are a store's: what a program asks of a file before it believes it.
#![tactic(auto)]

ghost use Rattle.std.specs.Prelude.{◌+◌};
ghost use Rattle.records.specs.Records.{SizedRecord};
ghost use Rattle.stored.specs.Known.{Tells, RecordFollows, AllFollow, IsStore};
ghost use Rattle.records.specs.Stores.{HasRoom};

use check::same;
use joining::join;
use records::{Record, STORE_LENGTH};
use store::{appliance_at, count, record_at};

// A record's verdict is a pass or a fail.
fn is_record(r: Record) -> bool
    ensures { Tells result (SizedRecord r) }
{
    r.fail < 2
}

// Record i is one, and its appliance number is greater than that of the record before.
fn follows(s: &[u8], i: usize) -> bool
    requires { HasRoom s.now (i + 1) }
    ensures { Tells result (RecordFollows s.now i) }
{
    if !is_record(record_at(s, i)) {
        return false;
    }
    if i == 0 {
        return true;
    }
    appliance_at(s, i - 1) < appliance_at(s, i)
}

// The first n do.
fn all_follow(s: &[u8], n: usize) -> bool
    requires { HasRoom s.now n }
    ensures { Tells result (AllFollow s.now n) }
{
    for i in 0..n {
        if !follows(s, i) {
            return false;
        }
    }
    true
}

// The bytes hold some records: their records rise, and merged into an empty store they are these bytes again.
pub fn is_store(s: &[u8]) -> bool
    ensures { Tells result (IsStore s.now) }
{
    if s.len() != STORE_LENGTH {
        return false;
    }
    if !all_follow(s, count(s)) {
        return false;
    }
    let mut again = [0u8; STORE_LENGTH];
    join(&mut again, s);
    same(&again, s)
}
