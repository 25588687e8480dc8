// The rows and blocks of a function as text: "Each line is a declaration, an instruction, a head with its `{` or a `}`, ended by LF; one space
// between tokens". `registers` and `blocks` hold the numbers of the made names.
#![tactic(auto)]

mod blocks;
mod operands;
mod rows;

pub use blocks::put_blocks;
