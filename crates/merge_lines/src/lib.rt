// The lines of the merge: a test as four numbers, a record as it is shown, and what was merged or refused.
#![tactic(auto)]

mod shown;
mod told;

// How many bytes the line of a record takes at most: `record_most` says the same.
pub const RECORD_MOST: usize = 90;

pub use shown::{put_merged, put_record, put_refused};
pub use told::{Line, first, line_numbers, number};
