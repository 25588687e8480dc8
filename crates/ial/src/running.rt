// Running a function of a lent table.
ghost use Rattle.std.specs.Prelude.{◌≡◌, ◌<◌, Ok, length};
ghost use Rattle.language.specs.Checking.{Verdict as Verdictᴸ};
ghost use Rattle.language.specs.Table.{function_count, decode};
ghost use Rattle.language.specs.Answers.{zeros, check_answer, run_function};
ghost use Rattle.machine.specs.Runs.{ran_in};
ghost use Rattle.answers.specs.Cases.{ran_of};
ghost use Rattle.answers.specs.Lent.{finished_of};
ghost use Rattle.ial.specs.Runs.{stop_place, RunsTo};
ghost use Rattle.ial.specs.Calls.{RunCalled};

use answers::{Ran, Reason, Refusal, Stop, refuse, row_place};
use checker::check_table;
use interpreter::run_on;
use machine::{Outcome, Run, STAGED, first_unfit, start};
use table::{function_at, function_count, function_params, register_count};

// The answer of a run of function i: 43, "budget used up" where it is still going.
fn answer_of(i: usize, r: Run) -> Ran
    requires { stop_place (ran_in i r) < 32768 }
    ensures { ran_of (Ok result) ≡ ran_in i r }
{
    match r {
        Run::Going(p) => Ran::Stopped {
            stop: Stop::BudgetUsedUp,
            place: row_place(i, p.row),
            steps: p.steps,
        },
        Run::Ended(o, p) => match o {
            Outcome::Returned(value) => Ran::Returned {
                value,
                steps: p.steps,
            },
            Outcome::Left => Ran::Left { steps: p.steps },
            Outcome::Stopped(stop) => Ran::Stopped {
                stop,
                place: row_place(i, p.row),
                steps: p.steps,
            },
        },
    }
}

// A function of a table that passes its check: "running then 20, 22". The registers may hold anything; where they
// are all zero, a refusal leaves them so. This is the one place that calls `run_on`, for a run and for many.
pub fn run_within(
    t: &[u8],
    i: usize,
    args: &[u64],
    budget: u64,
    taken: &mut [u64],
    registers: &mut [u64],
) -> Result<Ran, Refusal>
    requires t_value { check_answer t.now ≡ Verdictᴸ.accepted }
    requires i_bound { i < function_count t.now }
    requires taken_nonzero { 0 < length taken.old }
    ensures { RunsTo (decode t.now) i args.now budget registers.old result registers.new }
{
    let a = function_at(i);
    if args.len() != function_params(t, a) {
        return refuse(Reason::ArgumentsWrong, args.len());
    }
    if let Some(unfit) = first_unfit(t, a, args) {
        return refuse(Reason::ArgumentsWrong, unfit);
    }
    if registers.len() < register_count(t, a) {
        return refuse(Reason::LengthWrong, 0);
    }
    Ok(answer_of(i, run_on(t, a, args, budget, taken, registers)))
}

// A table that passes its check: "then 21; running then 20, 22".
fn run_checked(
    t: &[u8],
    function: u64,
    args: &[u64],
    budget: u64,
    registers: &mut [u64],
) -> Result<Ran, Refusal>
    requires t_value { check_answer t.now ≡ Verdictᴸ.accepted }
    requires registers_value { registers.old ≡ zeros (length registers.old) }
    ensures { finished_of result registers.new ≡ run_function (decode t.now) function args.now budget (length registers.old) }
{
    if function_count(t) as u64 <= function {
        return refuse(Reason::NoSuchFunction, 0);
    }
    let i = function as usize;
    let mut taken = [0u64; STAGED];
    run_within(t, i, args, budget, &mut taken, registers)
}

// Runs a function of a lent table on arguments, for at most `budget` steps: 9 to 17, 21, 20, 22; 40 to 43. The lent registers hold the
// function's registers afterwards, and 0 past them; after a refusal they are all zero.
pub fn run(
    t: &[u8],
    function: u64,
    args: &[u64],
    budget: u64,
    registers: &mut [u64],
) -> Result<Ran, Refusal>
    ensures { RunCalled t.now function args.now budget (length registers.old) result registers.new }
{
    start(&[], registers);
    check_table(t)?;
    run_checked(t, function, args, budget, registers)
}
