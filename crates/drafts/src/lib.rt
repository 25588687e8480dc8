// What is read so far: the function in hand in numbers, its cells and names in what is lent. One method for each act of the grammar; none
// knows the text, and a name comes as bytes that may stand anywhere.
#![tactic(auto)]

mod acts;
mod ending;
mod rows;
mod state;

pub use state::{Blocks, Draft, Fault, Head, NAMES_LENGTH, PENDING_LENGTH, Parts};
