// The words of a call: which function a word means, which budget, and which arguments, by meaning.
#![tactic(auto)]

mod arguments;
mod words;

pub use arguments::{fill_arguments, keep_argument};
pub use decimal::Decimal;
pub use words::{function_number, read_budget};
