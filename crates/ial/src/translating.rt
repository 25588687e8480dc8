// Translating a function of a lent table out of ssa.
ghost use Rattle.std.specs.Prelude.{◌≡◌, length};
ghost use Rattle.language.specs.Checking.{Verdict as Verdictᴸ};
ghost use Rattle.language.specs.Table.{decode};
ghost use Rattle.language.specs.Answers.{zeros, check_answer, translate_function};
ghost use Rattle.answers.specs.Lent.{filled_of};
ghost use Rattle.ial.specs.Calls.{TranslateCalled};

use answers::{Reason, Refusal, refuse};
use checker::check_table;
use flow::{FLOW_LENGTH, prepare};
use numbers::zero;
use table::{TABLE_LENGTH, function_at, function_count, function_ssa};
use translator::{fits, translate_into};

// A table that passes its check: "then 21; .. translating then 30, 31, 22".
fn translate_checked(t: &[u8], function: u64, out: &mut [u8]) -> Result<(), Refusal>
    requires t_value { check_answer t.now ≡ Verdictᴸ.accepted }
    requires out_value { out.old ≡ zeros (length out.old) }
    ensures { filled_of result out.new ≡ translate_function (decode t.now) function (length out.old) }
{
    if function_count(t) as u64 <= function {
        return refuse(Reason::NoSuchFunction, 0);
    }
    let a = function_at(function as usize);
    if function_ssa(t, a) != 1 {
        return refuse(Reason::NotSsa, 0);
    }
    let mut m = [0u16; FLOW_LENGTH];
    prepare(t, a, &mut m);
    if !fits(t, a, &m) {
        return refuse(Reason::TranslationTooLarge, 0);
    }
    if out.len() != TABLE_LENGTH {
        return refuse(Reason::LengthWrong, 0);
    }
    translate_into(t, a, &m, out);
    Ok(())
}

// Translates a function of a lent table out of ssa, to a lent table of that function alone: 9 to 17, 21, 30, 31, 22. After a refusal the
// output is all zero.
pub fn translate(t: &[u8], function: u64, out: &mut [u8]) -> Result<(), Refusal>
    ensures { TranslateCalled t.now function (length out.old) result out.new }
{
    zero(out);
    check_table(t)?;
    translate_checked(t, function, out)
}
