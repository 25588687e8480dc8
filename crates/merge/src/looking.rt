// Looking into a lent store: an appliance's record, and the n-th.
ghost use Rattle.std.specs.Prelude.{◌≡◌, length};
ghost use Rattle.records.specs.Stores.{store_length};
ghost use Rattle.records.specs.Answers.{Looked};
ghost use Rattle.store.specs.Places.{looked_at};
ghost use Rattle.merge.specs.Calls.{look_of, LookCalled, NthCalled};

use crate::figures::Look;
use records::STORE_LENGTH;
use store::{count, find, record_at};

// No record, or a refusal.
fn nothing(number: u64) -> Look
    ensures { result ≡ record { number = number; found = 0; appliance = 0; time = 0; fail = 0; tablet = 0; reading = 0 } }
{
    Look {
        number,
        found: 0,
        appliance: 0,
        time: 0,
        fail: 0,
        tablet: 0,
        reading: 0,
    }
}

// The record at a place, if there is one.
fn told(s: &[u8], p: usize) -> Look
    requires { length s.now ≡ store_length }
    ensures { result ≡ look_of (Looked.looked (looked_at s.now p)) }
{
    if count(s) <= p {
        return nothing(0);
    }
    let e = record_at(s, p);
    Look {
        number: 0,
        found: 1,
        appliance: e.appliance,
        time: e.time,
        fail: e.fail,
        tablet: e.tablet,
        reading: e.reading,
    }
}

// The record of an appliance: the winner of those merged, or none. 22 for a store of another length.
#[unsafe(no_mangle)]
pub extern "C" fn merge_look(store: &[u8], appliance: u64) -> Look
    ensures { LookCalled store.now appliance result }
{
    if store.len() != STORE_LENGTH {
        return nothing(22);
    }
    told(store, find(store, appliance))
}

// The n-th record by rising appliance numbers, counted from 0, or none. 22 for a store of another length.
#[unsafe(no_mangle)]
pub extern "C" fn merge_nth(store: &[u8], n: u64) -> Look
    ensures { NthCalled store.now n result }
{
    if store.len() != STORE_LENGTH {
        return nothing(22);
    }
    told(store, n as usize)
}
