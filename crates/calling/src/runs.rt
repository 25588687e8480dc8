// What is printed of a run: the text is read and checked, the function is found and called by meaning.
ghost use Rattle.std.specs.Prelude.{◌≡◌, ◌≤◌, length, get_or};
ghost use Rattle.language.specs.Checking.{Verdict as Verdictᴸ};
ghost use Rattle.language.specs.Programs.{no_function, max_registers};
ghost use Rattle.language.specs.Table.{decode};
ghost use Rattle.language.specs.Answers.{check_answer, run_function};
ghost use Rattle.decimal.specs.Writing.{Written};
ghost use Rattle.answers.specs.Cases.{ran_of};
ghost use Rattle.call_words.specs.Arguments.{given_of};
ghost use Rattle.calling.specs.Calls.{call_function, run_line, run_printed};
ghost use Rattle.answer_lines.specs.Lines.{ran_most};

use crate::accepting::accept;
use answer_lines::{put_answer, put_refusal};
use call_words::{Decimal, fill_arguments, function_number};
use ial::{Ran, Reason, Refusal, refuse, run};
use table::{
    MAX_REGISTERS, TABLE_LENGTH, function_at, function_count, function_params, function_result,
};

// The return type of a function, 0 for one that is not there.
fn result_of(t: &[u8], function: u64) -> u8
    requires { check_answer t.now ≡ Verdictᴸ.accepted }
    ensures { result ≡ (get_or (decode t.now) function no_function).result }
{
    if function_count(t) as u64 <= function {
        return 0;
    }
    function_result(t, function_at(function as usize))
}

// The run with registers that any function fits.
fn run_here(t: &[u8], function: u64, args: &[u64], budget: u64) -> Result<Ran, Refusal>
    requires { check_answer t.now ≡ Verdictᴸ.accepted }
    ensures { ran_of result ≡ (run_function (decode t.now) function args.now budget 256).answer }
{
    let mut registers = [0u64; MAX_REGISTERS];
    run(t, function, args, budget, &mut registers)
}

// A call by meaning: 21, then 20 with the count, then 20 with the first argument outside its range, then the run.
fn call(
    t: &[u8],
    function: u64,
    count: usize,
    kept: &[Option<Decimal>],
    budget: u64,
) -> Result<Ran, Refusal>
    requires t_value { check_answer t.now ≡ Verdictᴸ.accepted }
    requires kept_len { length kept.now ≡ max_registers }
    ensures { ran_of result ≡ call_function (decode t.now) function (given_of count kept.now) budget }
{
    if function_count(t) as u64 <= function {
        return refuse(Reason::NoSuchFunction, 0);
    }
    let a = function_at(function as usize);
    if count != function_params(t, a) {
        return refuse(Reason::ArgumentsWrong, count);
    }
    let mut args = [0u64; MAX_REGISTERS];
    if let Err(outside) = fill_arguments(t, a, count, kept, &mut args) {
        return refuse(Reason::ArgumentsWrong, outside);
    }
    run_here(t, function, &args[..count], budget)
}

// What is printed of a run in an accepted table.
fn run_checked(
    t: &[u8],
    word: &[u8],
    count: usize,
    kept: &[Option<Decimal>],
    budget: u64,
    out: &mut [u8],
) -> usize
    requires t_value { check_answer t.now ≡ Verdictᴸ.accepted }
    requires lengths { (length kept.now ≡ max_registers) × (ran_most ≤ length out.old) }
    ensures { Written out.old 0 (run_line (decode t.now) word.now (given_of count kept.now) budget) out.new result × (result ≤ ran_most) }
{
    let i = function_number(t, word);
    put_answer(result_of(t, i), call(t, i, count, kept, budget), out)
}

// What is printed of a run: `count` arguments were given, of which the first 256 are kept.
#[inline(never)]
pub fn run_text(
    text: &[u8],
    word: &[u8],
    count: usize,
    kept: &[Option<Decimal>],
    budget: u64,
    out: &mut [u8],
) -> usize
    requires { (length kept.now ≡ max_registers) × (ran_most ≤ length out.old) }
    ensures { Written out.old 0 (run_printed text.now word.now (given_of count kept.now) budget) out.new result × (result ≤ ran_most) }
{
    let mut t = [0u8; TABLE_LENGTH];
    match accept(text, &mut t) {
        Err(e) => put_refusal(e, out),
        Ok(()) => run_checked(&t, word, count, kept, budget, out),
    }
}
