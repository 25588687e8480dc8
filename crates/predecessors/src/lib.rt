// The predecessors of a function's blocks, as its table keeps them: put down, compared, looked up. Reading and translating put them down, the
// check compares them, and from then on nobody asks a terminator who goes where.
#![tactic(auto)]

mod comparing;
mod ends;
mod lists;
mod ranks;

pub use comparing::predecessors_kept;
pub use lists::put_predecessors;
pub use ranks::rank;
