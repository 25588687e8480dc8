// The four numbers of an answer, for C and Rust.
ghost use Rattle.std.specs.Prelude.{◌≡◌, ◌+◌, ◌≤◌, Ok, length};
ghost use Rattle.std.proofs.lemmas.List.Edits.{sets};
ghost use Rattle.language.specs.Answers.{verdict_numbers, ran_numbers, wrote_numbers, number_cells};
ghost use Rattle.answers.specs.Cases.{verdict_of, ran_of, wrote_of};
ghost use Rattle.answers.specs.Numbers.{numbers_of};
ghost use Rattle.answers.specs.Reasons.{reason_number};

use crate::{Ran, Refusal};

// "Unstated numbers of an answer are 0."
#[repr(C)]
#[derive(Clone, Copy)]
pub struct Answer {
    pub number: u64,
    pub place: u64,
    pub value: u64,
    pub steps: u64,
}

// All four numbers 0.
const DONE: Answer = Answer {
    number: 0,
    place: 0,
    value: 0,
    steps: 0,
};

// The numbers of a refusal.
impl From<Refusal> for Answer {
    ghost from_gives = { λ e a. numbers_of a ≡ record { number = reason_number e.reason; place = e.place; value = 0; steps = 0 } };

    fn from(e: Refusal) -> Answer {
        Answer {
            number: u64::from(u8::from(e.reason)),
            place: e.place as u64,
            ..DONE
        }
    }
}

// The numbers of an answer that is done or refused.
impl From<Result<(), Refusal>> for Answer {
    ghost from_gives = { λ r a. numbers_of a ≡ verdict_numbers (verdict_of r) };

    fn from(r: Result<(), Refusal>) -> Answer {
        match r {
            Ok(()) => DONE,
            Err(e) => e.into(),
        }
    }
}

// The numbers of a run that ended.
impl From<Ran> for Answer {
    ghost from_gives = { λ x a. numbers_of a ≡ ran_numbers (ran_of (Ok x)) };

    fn from(x: Ran) -> Answer {
        match x {
            Ran::Returned { value, steps } => Answer {
                value,
                steps,
                ..DONE
            },
            Ran::Left { steps } => Answer { steps, ..DONE },
            Ran::Stopped { stop, place, steps } => Answer {
                number: u64::from(u8::from(stop)),
                place: place as u64,
                steps,
                ..DONE
            },
        }
    }
}

// The numbers of what a run answers.
impl From<Result<Ran, Refusal>> for Answer {
    ghost from_gives = { λ r a. numbers_of a ≡ ran_numbers (ran_of r) };

    fn from(r: Result<Ran, Refusal>) -> Answer {
        match r {
            Ok(x) => x.into(),
            Err(e) => e.into(),
        }
    }
}

// The numbers of what writing answers: "The answer is the text's length".
impl From<Result<usize, Refusal>> for Answer {
    ghost from_gives = { λ r a. numbers_of a ≡ wrote_numbers (wrote_of r) };

    fn from(r: Result<usize, Refusal>) -> Answer {
        match r {
            Ok(n) => Answer {
                value: n as u64,
                ..DONE
            },
            Err(e) => e.into(),
        }
    }
}

impl Answer {
    // The four numbers, from number k on.
    pub fn put(self, out: &mut [u64], k: usize)
        requires { k + 4 ≤ length out.old }
        ensures { out.new ≡ sets out.old k (number_cells (numbers_of self)) }
    {
        out[k] = self.number;
        out[k + 1] = self.place;
        out[k + 2] = self.value;
        out[k + 3] = self.steps;
    }
}
