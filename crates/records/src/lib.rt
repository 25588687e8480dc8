// A record of a test, and the layout of a store. What a record means, which of two wins and what a store holds is defined in specs/; this crate has no
// functions.
#![tactic(auto)]

mod layout;

pub use layout::{
    APPLIANCES_OFFSET, CAPACITY, FAILS_OFFSET, NUMBER_LENGTH, READINGS_OFFSET, RECORD_LENGTH,
    STORE_LENGTH, TABLETS_OFFSET, TIMES_OFFSET,
};

// "A record has appliance number, test time and tablet number (each below 2^64), reading and verdict": `fail` is 1 for a fail and 0 for a pass,
// the reading is two's complement.
#[derive(Clone, Copy)]
pub struct Record {
    pub appliance: u64,
    pub time: u64,
    pub fail: u64,
    pub tablet: u64,
    pub reading: u64,
}
