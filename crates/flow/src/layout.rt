// Where each kind of number stands, from the parts: `Layout` says the same.
use table::{MAX_BLOCKS, MAX_REGISTERS};

pub const HOMES_OFFSET: usize = MAX_REGISTERS;

pub const PHIS_OFFSET: usize = HOMES_OFFSET + MAX_REGISTERS;

pub const FLOW_LENGTH: usize = PHIS_OFFSET + MAX_BLOCKS;
