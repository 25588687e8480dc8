// Names as a table holds them: whether some text spells one, and whether none of them stands twice.
#![tactic(auto)]

mod names;
mod twice;

pub use names::{all_spellable, spellable};
pub use twice::distinct_names;
