// Numbers of one, two, four and eight bytes, low byte first, in lent bytes, and bytes put, moved and zeroed. Nothing of IAL is in them but the
// definitions that they share with `language`'s Table.
#![tactic(auto)]

mod moves;
mod reads;
mod stores;

pub use moves::move_up;
pub use reads::{eight_at, four_at, two_at};
pub use stores::{put_bytes, put_eight, put_four, put_two, zero, zero_part};
