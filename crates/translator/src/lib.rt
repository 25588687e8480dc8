// The translation out of ssa, from a lent table to a lent table. A function that passes its check and is prepared (`flow`) goes in;
// what comes out is the table of document 01's translation of it.
#![tactic(auto)]

mod edges;
mod kept;
mod prepared;
mod registers;
mod sizes;
mod translate;

pub use sizes::fits;
pub use translate::translate_into;
