// Running a function of a lent table on many arguments, each by itself: the table is checked and the scratch of the phi
// cleared once.
ghost use Rattle.std.specs.Prelude.{◌≡◌, [], ◌∷◌, ◌*◌, ◌<◌, eqb, length};
ghost use Rattle.language.specs.Checking.{Verdict as Verdictᴸ};
ghost use Rattle.language.specs.Table.{function_count, decode};
ghost use Rattle.language.specs.Answers.{check_answer, ran_numbers, run_function, run_each};
ghost use Rattle.answers.specs.Numbers.{numbers_of};
ghost use Rattle.ial.specs.Runs.{cells_from};
ghost use Rattle.ial.specs.Calls.{RunEachCalled};

use crate::running::run_within;
use answers::{Answer, Reason, Refusal, refuse};
use checker::check_table;
use machine::{STAGED, start};
use table::function_count;

// One answer for every argument.
fn same_each(x: Answer, args: &[u64], out: &mut [u64])
    requires { length out.old ≡ 4 * length args.now }
    ensures { out.new ≡ cells_from (λ a. numbers_of x) args.now }
{
    for k in 0..args.len() {
        x.put(out, 4 * k);
    }
}

// A function of a table that passes its check: a run for every argument, whatever the registers hold.
fn run_all(
    t: &[u8],
    i: usize,
    args: &[u64],
    budget: u64,
    taken: &mut [u64],
    registers: &mut [u64],
    out: &mut [u64],
)
    requires t_value { check_answer t.now ≡ Verdictᴸ.accepted }
    requires i_bound { i < function_count t.now }
    requires taken_nonzero { 0 < length taken.old }
    requires out_len { length out.old ≡ 4 * length args.now }
    ensures { out.new ≡ cells_from (λ a. ran_numbers (run_function (decode t.now) i (a ∷ []) budget (length registers.old)).answer) args.now }
{
    for (k, &arg) in args.iter().enumerate() {
        let r = run_within(t, i, &[arg], budget, taken, registers);
        Answer::from(r).put(out, 4 * k);
    }
}

// A table that passes its check: 21 for every argument, or its run.
fn each_checked(
    t: &[u8],
    function: u64,
    args: &[u64],
    budget: u64,
    registers: &mut [u64],
    out: &mut [u64],
)
    requires t_value { check_answer t.now ≡ Verdictᴸ.accepted }
    requires out_len { length out.old ≡ 4 * length args.now }
    ensures { out.new ≡ cells_from (λ a. ran_numbers (run_function (decode t.now) function (a ∷ []) budget (length registers.old)).answer) args.now }
{
    if function_count(t) as u64 <= function {
        let missing = Refusal {
            reason: Reason::NoSuchFunction,
            place: 0,
        };
        same_each(missing.into(), args, out);
        return;
    }
    let i = function as usize;
    let mut taken = [0u64; STAGED];
    run_all(t, i, args, budget, &mut taken, registers, out);
}

// What `run` answers for every argument.
fn each(t: &[u8], function: u64, args: &[u64], budget: u64, registers: &mut [u64], out: &mut [u64])
    requires { length out.old ≡ 4 * length args.now }
    ensures { out.new ≡ run_each t.now function args.now budget (length registers.old) }
{
    match check_table(t) {
        Err(e) => same_each(e.into(), args, out),
        Ok(()) => each_checked(t, function, args, budget, registers, out),
    }
}

// Whether there are four numbers for each of n.
fn four_each(m: usize, n: usize) -> bool
    ensures { result ≡ eqb m (4 * n) }
{
    if m % 4 != 0 {
        return false;
    }
    m / 4 == n
}

// Runs a function of a lent table on each of many arguments alone, for at most `budget` steps each: four numbers for each, as `ial_run` answers
// them. 22 where not four for each were lent, which are all zero then. The lent registers are all zero afterwards.
pub fn run_each(
    t: &[u8],
    function: u64,
    args: &[u64],
    budget: u64,
    registers: &mut [u64],
    out: &mut [u64],
) -> Result<(), Refusal>
    ensures { RunEachCalled t.now function args.now budget (length registers.old) (length out.old) result out.new registers.new }
{
    if !four_each(out.len(), args.len()) {
        start(&[], registers);
        start(&[], out);
        return refuse(Reason::LengthWrong, 0);
    }
    each(t, function, args, budget, registers, out);
    start(&[], registers);
    Ok(())
}
