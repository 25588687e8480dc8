// What the entry points answer, in numbers, for C and Rust as well.

// What a merge answers: 0 0 where it is done, or a refusal's number and its place.
#[repr(C)]
#[derive(Clone, Copy)]
pub struct Merged {
    pub number: u64,
    pub place: u64,
}

// What a look-up answers: 22 for a store of another length; else whether there is a record (1 or 0), and its numbers. All others are 0.
#[repr(C)]
#[derive(Clone, Copy)]
pub struct Look {
    pub number: u64,
    pub found: u64,
    pub appliance: u64,
    pub time: u64,
    pub fail: u64,
    pub tablet: u64,
    pub reading: u64,
}
