// A store's layout in numbers, each from the parts: `Stores` says the same, and docs/STORE.md shows it byte by byte.

// "A store holds 1,024 appliances"
pub const CAPACITY: usize = 1024;

pub const NUMBER_LENGTH: usize = 8;

pub const RECORD_LENGTH: usize = 5 * NUMBER_LENGTH;

pub const STORE_LENGTH: usize = NUMBER_LENGTH + CAPACITY * RECORD_LENGTH;

// The columns: where the number of the first record stands.
pub const APPLIANCES_OFFSET: usize = NUMBER_LENGTH;

pub const TIMES_OFFSET: usize = APPLIANCES_OFFSET + NUMBER_LENGTH;

pub const FAILS_OFFSET: usize = TIMES_OFFSET + NUMBER_LENGTH;

pub const TABLETS_OFFSET: usize = FAILS_OFFSET + NUMBER_LENGTH;

pub const READINGS_OFFSET: usize = TABLETS_OFFSET + NUMBER_LENGTH;
