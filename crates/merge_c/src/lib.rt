// The merge for C and Rust: a static library over `merge` that exports its entry points. Each takes any input, and promises what the library's function of
// its name does.
#![tactic(auto)]

ghost use Rattle.merge.specs.Calls.{test, EmptyCalled, RecordCalled, RecordsCalled, StoreCalled, LookCalled, NthCalled};

use merge::{Look, Merged};

// Empties a store: 22 for one of another length.
#[unsafe(no_mangle)]
pub extern "C" fn merge_empty(store: &mut [u8]) -> Merged
    ensures { EmptyCalled store.old result store.new }
{
    merge::merge_empty(store)
}

// Merges a record into a store, with its verdict by function number `function` of a table, run on the reading for at most `budget` steps: 9 to 17,
// 61, then 22 for a store of another length, else 60. A refusal leaves the store unchanged.
#[unsafe(no_mangle)]
pub extern "C" fn merge_record(
    store: &mut [u8],
    table: &[u8],
    function: u64,
    budget: u64,
    appliance: u64,
    time: u64,
    tablet: u64,
    reading: u64,
) -> Merged
    ensures { RecordCalled table.now function budget (test appliance time tablet reading) store.old result store.new }
{
    merge::merge_record(
        store, table, function, budget, appliance, time, tablet, reading,
    )
}

// Merges many records into a store, all or nothing, with the verdicts by one function of a table: four numbers a record, its appliance, time, tablet
// and reading. 9 to 17, 61, then 22 for a store of another length or numbers left over, else 60. A refusal leaves the store unchanged.
#[unsafe(no_mangle)]
pub extern "C" fn merge_records(
    store: &mut [u8],
    table: &[u8],
    function: u64,
    budget: u64,
    records: &[u64],
) -> Merged
    ensures { RecordsCalled table.now function budget records.now store.old result store.new }
{
    merge::merge_records(store, table, function, budget, records)
}

// Merges a store into a store, all or nothing: 60 exactly if they hold more than 1,024 appliances together, 22 where one is of another length. A
// refusal leaves the store unchanged.
#[unsafe(no_mangle)]
pub extern "C" fn merge_store(store: &mut [u8], other: &[u8]) -> Merged
    ensures { StoreCalled other.now store.old result store.new }
{
    merge::merge_store(store, other)
}

// The record of an appliance: the winner of those merged, or none. 22 for a store of another length.
#[unsafe(no_mangle)]
pub extern "C" fn merge_look(store: &[u8], appliance: u64) -> Look
    ensures { LookCalled store.now appliance result }
{
    merge::merge_look(store, appliance)
}

// The n-th record by rising appliance numbers, counted from 0, or none. 22 for a store of another length.
#[unsafe(no_mangle)]
pub extern "C" fn merge_nth(store: &[u8], n: u64) -> Look
    ensures { NthCalled store.now n result }
{
    merge::merge_nth(store, n)
}
