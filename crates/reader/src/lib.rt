// Bytes to a table: answers 2 to 8. A text is begun, fed and closed: where reading stands between two bytes is a value, and what has been
// read stands in what is lent.
#![tactic(auto)]

mod reading;
mod taking;
mod telling;
mod tokens;

pub use drafts::Fault;
pub use reading::{Progress, begin};
pub use taking::{Reader, Step};
pub use telling::{feed, judge_text, read_text};
