// The count and the records of a store, read and put.
ghost use Rattle.std.specs.Prelude.{◌≡◌, ◌+◌, ◌≤◌, length};
ghost use Rattle.std.proofs.lemmas.List.Edits.{sets};
ghost use Rattle.language.specs.Table.{eight_bytes};
ghost use Rattle.records.specs.Stores.{capacity, count_of, record_at, record_cells, record_offset, HasRoom};

use numbers::{eight_at, put_eight};
use records::{
    APPLIANCES_OFFSET, CAPACITY, FAILS_OFFSET, READINGS_OFFSET, RECORD_LENGTH, Record,
    TABLETS_OFFSET, TIMES_OFFSET,
};

// How many records there are; forged bytes say no more than 1,024.
pub fn count(s: &[u8]) -> usize
    requires { 8 ≤ length s.now }
    ensures { (result ≡ count_of s.now) × (result ≤ capacity) }
{
    let n = eight_at(s, 0);
    if (CAPACITY as u64) < n {
        return CAPACITY;
    }
    n as usize
}

// The appliance of record i, which a search compares.
pub fn appliance_at(s: &[u8], i: usize) -> u64
    requires { HasRoom s.now (i + 1) }
    ensures { result ≡ (record_at s.now i).appliance }
{
    eight_at(s, APPLIANCES_OFFSET + RECORD_LENGTH * i)
}

// Record i.
pub fn record_at(s: &[u8], i: usize) -> Record
    requires { HasRoom s.now (i + 1) }
    ensures { result ≡ record_at s.now i }
{
    Record {
        appliance: eight_at(s, APPLIANCES_OFFSET + RECORD_LENGTH * i),
        time: eight_at(s, TIMES_OFFSET + RECORD_LENGTH * i),
        fail: eight_at(s, FAILS_OFFSET + RECORD_LENGTH * i),
        tablet: eight_at(s, TABLETS_OFFSET + RECORD_LENGTH * i),
        reading: eight_at(s, READINGS_OFFSET + RECORD_LENGTH * i),
    }
}

// The count becomes n.
pub fn put_count(s: &mut [u8], n: usize)
    requires { 8 ≤ length s.old }
    ensures { s.new ≡ sets s.old 0 (eight_bytes n) }
{
    put_eight(s, 0, n as u64);
}

// Record i becomes r.
pub fn put_record(s: &mut [u8], i: usize, r: Record)
    requires { HasRoom s.old (i + 1) }
    ensures { s.new ≡ sets s.old (record_offset i) (record_cells r) }
{
    let k = APPLIANCES_OFFSET + RECORD_LENGTH * i;
    put_eight(s, k, r.appliance);
    put_eight(s, k + 8, r.time);
    put_eight(s, k + 16, r.fail);
    put_eight(s, k + 24, r.tablet);
    put_eight(s, k + 32, r.reading);
}
