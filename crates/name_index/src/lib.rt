// Names of a table found by hash chains: one looked up, one added, all of them put into chains.
#![tactic(auto)]

mod chains;
mod hashes;

pub use chains::{add, find, index};
pub use hashes::HEADS;
