// What the bytes of a text are: the class of each, plain names, and the words, from their letters to their numbers and back.
#![tactic(auto)]

mod candidates;
mod class_table;
pub mod kinds;
mod lookup;
mod plain;
mod spellings;

pub use class_table::classes;
pub use lookup::word;
pub use plain::plain_name;
pub use spellings::{letter_count, letters};
