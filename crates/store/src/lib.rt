// A store in lent bytes: its records read, put, looked for and inserted. What a store holds is defined in `records`; docs/STORE.md states the
// layout.
#![tactic(auto)]

mod cells;
mod inserting;
mod search;
mod winner;

pub use cells::{appliance_at, count, put_count, put_record, record_at};
pub use inserting::insert;
pub use search::find;
pub use winner::beats;
