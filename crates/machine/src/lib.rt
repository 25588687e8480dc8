// The step and the run of a function of a checked table.
#![tactic(auto)]

mod phis;
mod places;
mod runs;
mod starts;

pub use phis::{STAGED, take_phis};
pub use places::{Outcome, Place};
pub use runs::{Run, first_place, run_from};
pub use starts::{first_unfit, start};
