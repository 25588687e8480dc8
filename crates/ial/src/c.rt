// The entry points for C and Rust: numbers and slices, with an answer of four numbers.
ghost use Rattle.std.specs.Prelude.{length};
ghost use Rattle.ial.specs.Calls.{ReadLinked, CheckLinked, SignatureLinked, RunLinked, RunEachLinked, TranslateLinked, WriteLinked};

use crate::{check, has_signature, read, run, run_each, translate, write};
use answers::Answer;

// Reads a text into a lent table: 1 to 8, and 22 last. After a refusal the table is all zero.
#[unsafe(no_mangle)]
pub extern "C" fn ial_read(text: &[u8], out: &mut [u8]) -> Answer
    ensures { ReadLinked text.now (length out.old) result out.new }
{
    read(text, out).into()
}

// Checks a lent table: all four numbers are 0 exactly if none of 9 to 17 holds.
#[unsafe(no_mangle)]
pub extern "C" fn ial_check(table: &[u8]) -> Answer
    ensures { CheckLinked table.now result }
{
    check(table).into()
}

// Whether a function of a lent table gives a result of this type and takes parameters of these, 1 or 0. Nothing else of the table is checked.
#[unsafe(no_mangle)]
pub extern "C" fn ial_has_signature(table: &[u8], function: u64, res: u8, types: &[u8]) -> u64
    ensures { SignatureLinked table.now function res types.now result }
{
    u64::from(has_signature(table, function, res, types))
}

// Runs a function of a lent table on arguments, for at most `budget` steps: 9 to 17, 21, 20, 22; 40 to 43. After a refusal the lent
// registers are all zero.
#[unsafe(no_mangle)]
pub extern "C" fn ial_run(
    table: &[u8],
    function: u64,
    arguments: &[u64],
    budget: u64,
    registers: &mut [u64],
) -> Answer
    ensures { RunLinked table.now function arguments.now budget (length registers.old) result registers.new }
{
    run(table, function, arguments, budget, registers).into()
}

// Runs a function of a lent table on each of many arguments alone, for at most `budget` steps each: for each the four numbers that `ial_run`
// answers, one after the other. 22 where not four for each argument were lent, which are all zero then. The lent registers are all zero afterwards.
#[unsafe(no_mangle)]
pub extern "C" fn ial_run_each(
    table: &[u8],
    function: u64,
    arguments: &[u64],
    budget: u64,
    registers: &mut [u64],
    out: &mut [u64],
) -> Answer
    ensures { RunEachLinked table.now function arguments.now budget (length registers.old) (length out.old) result out.new registers.new }
{
    run_each(table, function, arguments, budget, registers, out).into()
}

// Translates a function of a lent table out of ssa, to a lent table of that function alone: 9 to 17, 21, 30, 31, 22. After a refusal the
// output is all zero.
#[unsafe(no_mangle)]
pub extern "C" fn ial_translate(table: &[u8], function: u64, out: &mut [u8]) -> Answer
    ensures { TranslateLinked table.now function (length out.old) result out.new }
{
    translate(table, function, out).into()
}

// Writes a lent table as text to a lent buffer, with made names for what has none: 9 to 17, 33, 32. Past the text the buffer is zero; after a
// refusal it is all zero.
#[unsafe(no_mangle)]
pub extern "C" fn ial_write(table: &[u8], out: &mut [u8]) -> Answer
    ensures { WriteLinked table.now (length out.old) result out.new }
{
    write(table, out).into()
}
