// What a call answers: a `Result` with why it is refused, of a run how it ended, the four numbers of that at the C boundary, and places. Every crate that answers
// stands above this one.
#![tactic(auto)]

ghost use Rattle.std.specs.Prelude.{◌≡◌, Err};

mod figures;
mod places;
mod reasons;

pub use figures::Answer;
pub use places::row_place;
pub use reasons::{Reason, Refusal, Stop};

// How a run ends, each time with the steps taken: with a returned value, by a return without one, or by a stop at a place.
#[derive(Clone, Copy)]
pub enum Ran {
    Returned {
        value: u64,
        steps: u64,
    },
    Left {
        steps: u64,
    },
    Stopped {
        stop: Stop,
        place: usize,
        steps: u64,
    },
}

// A refusal for this reason, at this place.
pub fn refuse<T>(reason: Reason, place: usize) -> Result<T, Refusal>
    ensures { result ≡ Err (record { reason = reason; place = place }) }
{
    Err(Refusal { reason, place })
}
