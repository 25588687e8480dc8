// The verdict on a reading, by a run of the limit function.
ghost use Rattle.std.specs.Prelude.{◌≡◌, not, [], ◌∷◌, eqb};
ghost use Rattle.language.specs.Instructions.{int64, uint};
ghost use Rattle.language.specs.Checking.{Verdict};
ghost use Rattle.language.specs.Answers.{check_answer, signature_answer};
ghost use Rattle.answers.specs.Reasons.{reason_number};
ghost use Rattle.merge.specs.Rulings.{Ruled, refused_by};

use ial::{Ran, Reason, Refusal, check, has_signature, run, types};

// As many registers as any function has.
pub(crate) const REGISTERS: usize = 256;

// "Result 1 is pass; any .. other result is fail."
pub(crate) fn failed(value: u64) -> bool
    ensures { result ≡ not (eqb value 1) }
{
    value != 1
}

// Whether the function has the limit function's signature: "one `int64` parameter, the reading; result `uint`".
pub(crate) fn is_limit(table: &[u8], function: u64) -> bool
    ensures { result ≡ signature_answer table.now function uint (int64 ∷ []) }
{
    has_signature(table, function, types::UINT, &[types::INT64])
}

// The refusal of a function that is no limit function: the check's, or 61.
fn refusal(table: &[u8]) -> Refusal
    ensures { Verdict.refused (reason_number result.reason) result.place ≡ refused_by (check_answer table.now) }
{
    match check(table) {
        Err(e) => e,
        Ok(()) => Refusal {
            reason: Reason::NoLimitFunction,
            place: 0,
        },
    }
}

// Whether function number `function` of a table fails a reading, for at most `budget` steps; or 9 to 17, 61. A function of another signature is not run.
pub(crate) fn judge(table: &[u8], function: u64, budget: u64, reading: u64) -> Result<bool, Refusal>
    ensures { Ruled table.now function budget reading result }
{
    if !is_limit(table, function) {
        return Err(refusal(table));
    }
    let mut registers = [0u64; REGISTERS];
    let x = run(table, function, &[reading], budget, &mut registers)?;
    Ok(match x {
        Ran::Returned { value, .. } => failed(value),
        Ran::Left { .. } => true,
        Ran::Stopped { .. } => true,
    })
}
