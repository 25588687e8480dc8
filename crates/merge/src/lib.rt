// The merge: a store holds of each appliance the record that wins, in whatever order records and stores come (document 02, A8). Its entry points take any
// input; none asks anything of its caller. Of the library below they see the entry points' promises alone.
#![tactic(auto)]

mod figures;
mod judging;
mod looking;
mod many;
mod merging;

pub use figures::{Look, Merged};
pub use looking::{merge_look, merge_nth};
pub use many::merge_records;
pub use merging::{merge_empty, merge_record, merge_store};
