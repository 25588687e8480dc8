// Merging many records at once: the table is checked once for up to 64 of them.
ghost use Rattle.std.specs.Prelude.{◌≡◌, cond, map, ◌+◌, ◌-◌, ◌*◌, ◌%◌, ◌<◌, ◌≤◌, ltb, length};
ghost use Rattle.language.specs.Programs.{max_registers};
ghost use Rattle.records.specs.Records.{SizedRecord};
ghost use Rattle.records.specs.Stores.{inserts, store_length};
ghost use Rattle.records.specs.Limits.{judged_test};
ghost use Rattle.records.specs.Answers.{tests_of, Kept};
ghost use Rattle.merge.specs.Calls.{merged_of, RecordsCalled};
ghost use Rattle.merge.specs.Tries.{readings_of, record_by, records_by, Tried};

use crate::figures::Merged;
use crate::judging::{REGISTERS, failed, is_limit};
use crate::merging::done;
use ial::{ial_check, ial_run_each};
use numbers::put_bytes;
use records::{Record, STORE_LENGTH};
use store::insert;

// The records that are judged at once, and the numbers that say them, four each; as many are answered.
const AT_ONCE: usize = 64;

const NUMBERS: usize = 256;

// The readings of the tests in these numbers.
fn take_readings(tests: &[u64], out: &mut [u64])
    requires { length tests.now ≡ 4 * length out.old }
    ensures { out.new ≡ readings_of tests.now }
{
    let mut j = 0;
    while j < out.len() {
        out[j] = tests[4 * j + 3];
        j += 1;
    }
}

// A record of these numbers.
fn record_of(appliance: u64, time: u64, fail: u64, tablet: u64, reading: u64) -> Record
    requires { fail < 2 }
    ensures { (result ≡ record { appliance = appliance; time = time; fail = fail; tablet = tablet; reading = reading }) × SizedRecord result }
{
    Record {
        appliance,
        time,
        fail,
        tablet,
        reading,
    }
}

// Test j with the verdict that its run's answer says.
fn judged_record(tests: &[u64], answers: &[u64], j: usize) -> Record
    requires { (4 * j + 4 ≤ length tests.now) × (4 * j + 4 ≤ length answers.now) }
    ensures { (result ≡ record_by tests.now answers.now j) × SizedRecord result }
{
    record_of(
        tests[4 * j],
        tests[4 * j + 1],
        u64::from(failed(answers[4 * j + 2])),
        tests[4 * j + 2],
        tests[4 * j + 3],
    )
}

// Puts the tests into a store one after the other, as far as there is room: whether there was for all.
fn insert_all(s: &mut [u8], tests: &[u64], answers: &[u64]) -> bool
    requires s_len { length s.old ≡ store_length }
    requires answers_len { length answers.now ≡ length tests.now }
    ensures { Tried s.old (inserts (records_by tests.now answers.now)) result s.new }
{
    let n = tests.len() / 4;
    let mut j = 0;
    while j < n {
        if !insert(s, judged_record(tests, answers, j)) {
            return false;
        }
        j += 1;
    }
    true
}

// Judges and puts the tests, with lent numbers for their readings, the answers of their runs and the registers.
fn put_some(
    s: &mut [u8],
    table: &[u8],
    function: u64,
    budget: u64,
    tests: &[u64],
    readings: &mut [u64],
    answers: &mut [u64],
    registers: &mut [u64],
) -> bool
    requires s_len { (length s.old ≡ store_length) × (length tests.now % 4 ≡ 0) }
    requires tests_len_bound { (length tests.now ≤ 4 * length readings.old) × (length tests.now ≤ length answers.old) × (length registers.old ≡ max_registers) }
    ensures { Tried s.old (inserts (map (judged_test table.now function budget) (tests_of tests.now))) result s.new }
{
    let k = tests.len();
    let n = k / 4;
    take_readings(tests, &mut readings[..n]);
    ial_run_each(
        table,
        function,
        &readings[..n],
        budget,
        registers,
        &mut answers[..k],
    );
    insert_all(s, tests, &answers[..k])
}

// Judges and puts up to 64 tests, with a function that is a limit function.
fn merge_some(s: &mut [u8], table: &[u8], function: u64, budget: u64, tests: &[u64]) -> bool
    requires s_len { length s.old ≡ store_length }
    requires tests_len_bound { (length tests.now ≤ 256) × (length tests.now % 4 ≡ 0) }
    ensures { Tried s.old (inserts (map (judged_test table.now function budget) (tests_of tests.now))) result s.new }
{
    let mut readings = [0u64; AT_ONCE];
    let mut answers = [0u64; NUMBERS];
    let mut registers = [0u64; REGISTERS];
    put_some(
        s,
        table,
        function,
        budget,
        tests,
        &mut readings,
        &mut answers,
        &mut registers,
    )
}

// Where the next 64 tests end.
fn some_end(k: usize, n: usize) -> usize
    requires { (k ≤ n) × (n < 2305843009213693952) }
    ensures { result ≡ cond (ltb (n - k) 256) n (k + 256) }
{
    if n - k < NUMBERS {
        return n;
    }
    k + NUMBERS
}

// Puts all tests into a copy of the store: whether there was room for all.
fn fill_aside(
    store: &[u8],
    aside: &mut [u8],
    table: &[u8],
    function: u64,
    budget: u64,
    records: &[u64],
) -> bool
    requires { (length store.now ≡ store_length) × (length aside.old ≡ store_length) × (length records.now % 4 ≡ 0) }
    ensures { Tried store.now (inserts (map (judged_test table.now function budget) (tests_of records.now))) result aside.new }
{
    put_bytes(aside, 0, store);
    let mut k = 0;
    while k < records.len() {
        let e = some_end(k, records.len());
        if !merge_some(aside, table, function, budget, &records[k..e]) {
            return false;
        }
        k = e;
    }
    true
}

// All tests at once: the copy that they were put into takes the store's place if there was room for all.
fn merge_all(store: &mut [u8], table: &[u8], function: u64, budget: u64, records: &[u64]) -> Merged
    requires { (length store.old ≡ store_length) × (length records.now % 4 ≡ 0) }
    ensures { Kept store.old (inserts (map (judged_test table.now function budget) (tests_of records.now))) (merged_of result store.new) }
{
    let mut aside = [0u8; STORE_LENGTH];
    if !fill_aside(store, &mut aside, table, function, budget, records) {
        return done(false);
    }
    put_bytes(store, 0, &aside);
    done(true)
}

// Merges many records into a store, all or nothing, with the verdicts by one function of a table: four numbers a record, its appliance, time, tablet
// and reading. 9 to 17, 61, then 22 for a store of another length or numbers left over, else 60. A refusal leaves the store unchanged.
#[unsafe(no_mangle)]
pub extern "C" fn merge_records(
    store: &mut [u8],
    table: &[u8],
    function: u64,
    budget: u64,
    records: &[u64],
) -> Merged
    ensures { RecordsCalled table.now function budget records.now store.old result store.new }
{
    let checked = ial_check(table);
    if checked.number != 0 {
        return Merged {
            number: checked.number,
            place: checked.place,
        };
    }
    if !is_limit(table, function) {
        return Merged {
            number: 61,
            place: 0,
        };
    }
    if store.len() != STORE_LENGTH {
        return Merged {
            number: 22,
            place: 0,
        };
    }
    if records.len() % 4 != 0 {
        return Merged {
            number: 22,
            place: 0,
        };
    }
    merge_all(store, table, function, budget, records)
}
