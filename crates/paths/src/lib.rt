// 17: "ssa: some path from entry reaches the use without an assignment", for a function whose rows break none of 9 to 16.
#![tactic(auto)]

mod sets;
mod uses;

pub use uses::first_late;
