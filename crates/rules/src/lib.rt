// The rules of a row, 9 to 16, over what is prepared of its function once (`flow`).
#![tactic(auto)]

mod entries;
mod faults;
mod ranges;

pub use faults::form_fault;
pub use ranges::in_range;
