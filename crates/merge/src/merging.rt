// Merging into a lent store: a record, and a store.
ghost use Rattle.std.specs.Prelude.{◌≡◌, [], eqb, length};
ghost use Rattle.records.specs.Stores.{insert as inserted, store_length};
ghost use Rattle.records.specs.Answers.{kept_as, Kept, IfLent};
ghost use Rattle.merge.specs.Calls.{test, merged_verdict, merged_of, EmptyCalled, RecordCalled, StoreCalled};

use crate::figures::Merged;
use crate::judging::judge;
use joining::join;
use numbers::zero;
use records::{Record, STORE_LENGTH};
use store::insert;

// Done, or 60 where there is no room.
pub(crate) fn done(room: bool) -> Merged
    ensures { merged_verdict result ≡ (kept_as room []).answer }
{
    if room {
        return Merged {
            number: 0,
            place: 0,
        };
    }
    Merged {
        number: 60,
        place: 0,
    }
}

// Empties a store: 22 for one of another length.
#[unsafe(no_mangle)]
pub extern "C" fn merge_empty(store: &mut [u8]) -> Merged
    ensures { EmptyCalled store.old result store.new }
{
    if store.len() != STORE_LENGTH {
        return Merged {
            number: 22,
            place: 0,
        };
    }
    zero(store);
    Merged {
        number: 0,
        place: 0,
    }
}

// A record that has its verdict: 60, or 22 for a store of another length.
fn put(store: &mut [u8], r: Record) -> Merged
    ensures { IfLent (eqb (length store.old) store_length) store.old (Kept store.old (inserted r)) (merged_of result store.new) }
{
    if store.len() != STORE_LENGTH {
        return Merged {
            number: 22,
            place: 0,
        };
    }
    done(insert(store, r))
}

// Merges a record into a store, with its verdict by function number `function` of a table, run on the reading for at most `budget` steps: 9 to 17,
// 61, then 22 for a store of another length, else 60. A refusal leaves the store unchanged.
#[unsafe(no_mangle)]
pub extern "C" fn merge_record(
    store: &mut [u8],
    table: &[u8],
    function: u64,
    budget: u64,
    appliance: u64,
    time: u64,
    tablet: u64,
    reading: u64,
) -> Merged
    ensures { RecordCalled table.now function budget (test appliance time tablet reading) store.old result store.new }
{
    match judge(table, function, budget, reading) {
        Ok(fail) => put(
            store,
            Record {
                appliance,
                time,
                fail: u64::from(fail),
                tablet,
                reading,
            },
        ),
        Err(e) => Merged {
            number: u64::from(u8::from(e.reason)),
            place: e.place as u64,
        },
    }
}

// Merges a store into a store, all or nothing: 60 exactly if they hold more than 1,024 appliances together, 22 where one is of another length. A
// refusal leaves the store unchanged.
#[unsafe(no_mangle)]
pub extern "C" fn merge_store(store: &mut [u8], other: &[u8]) -> Merged
    ensures { StoreCalled other.now store.old result store.new }
{
    if store.len() != STORE_LENGTH {
        return Merged {
            number: 22,
            place: 0,
        };
    }
    if other.len() != STORE_LENGTH {
        return Merged {
            number: 22,
            place: 0,
        };
    }
    done(join(store, other))
}
