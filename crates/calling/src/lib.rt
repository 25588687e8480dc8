// What the tool prints: the listing of a text, its functions or a translation as text, and a call in words (a function, a budget and arguments)
// with the line of its answer.
// Four functions have a table in their own frame and are not compiled into their callers: there it would lie in a frame that is touched, page by
// page, for what else a program does too.
#![tactic(auto)]

mod accepting;
mod listings;
mod runs;
mod texts;
mod translations;
mod words;

pub use listing::LISTING_MOST;
pub use listings::list_text;
pub use runs::run_text;
pub use texts::write_text;
pub use translations::translate_text;
pub use words::function_in;
