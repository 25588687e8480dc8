// The names that a text gives to what a table leaves unnamed, as numbers: "Unnamed registers are called `p.` and unnamed blocks
// but entry `e.`, with the smallest decimal numbers not in use by that kind in the function, in table order from 0."
#![tactic(auto)]

mod made;
mod suffixes;

pub use made::{PLAIN, number_blocks, number_registers};
