// Tokens as text: each put down on a page with the space behind it.
#![tactic(auto)]

mod digits;
mod names;
mod spellings;
mod word_tokens;

pub use digits::put_number;
pub use names::{put_block, put_name, put_register};
pub use spellings::put_spelling;
pub use word_tokens::{put_result, put_type, put_word};
