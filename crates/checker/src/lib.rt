// The check of a lent table, 9 to 17: functions in order, lowest number first, then earliest row.
#![tactic(auto)]

ghost use Rattle.std.specs.Prelude.{◌≡◌, [], ◌∷◌, ◌<◌, T, length};
ghost use Rattle.language.specs.Programs.{is_ssa, max_functions};
ghost use Rattle.language.specs.Table.{function_at, decode_function, table_length};
ghost use Rattle.language.specs.Checking.{breaks17, rows_that, first_fault, judge};
ghost use Rattle.language.specs.Answers.{check_answer};
ghost use Rattle.flow.specs.Layout.{flow_length};
ghost use Rattle.flow.specs.Sized.{Sized};
ghost use Rattle.rules.specs.Cells.{SsaPrepared};
ghost use Rattle.paths.specs.Formed.{Formed};
ghost use Rattle.answers.specs.Cases.{verdict_of};
ghost use Rattle.checker.specs.Parts.{table_names_before};

mod forms;
mod sound;

use answers::{Reason, Refusal, refuse, row_place};
use flow::FLOW_LENGTH;
use forms::{note_blocks, prepare_ssa};
use paths::first_late;
use sound::sound_at;
use table::{MAX_FUNCTIONS, TABLE_LENGTH, block_count, function_at, function_count, function_ssa};

// 17 of function i, where it breaks none of 9 to 16.
fn check_paths(t: &[u8], i: usize, a: usize, m: &[u16]) -> Result<(), Refusal>
    requires sized { Sized t.now a × SsaPrepared (decode_function t.now a) m.now × (i < max_functions) }
    requires formed { T (is_ssa (decode_function t.now a)) → Formed (decode_function t.now a) }
    ensures { verdict_of result ≡ first_fault i 17 (rows_that (decode_function t.now a) (breaks17 (decode_function t.now a)) ∷ []) }
{
    if function_ssa(t, a) != 1 {
        return Ok(());
    }
    if let Some(row) = first_late(t, a, m) {
        return refuse(Reason::LateAssigned, row_place(i, row));
    }
    Ok(())
}

// Function i, from 9 to 17.
fn check_function(t: &[u8], i: usize, m: &mut [u16]) -> Result<(), Refusal>
    requires { (length t.now ≡ table_length) × (i < max_functions) × (length m.old ≡ flow_length) }
    ensures { verdict_of result ≡ judge (table_names_before t.now i) i (decode_function t.now (function_at i)) }
{
    let a = function_at(i);
    if !sound_at(t, i, a) {
        return refuse(Reason::TableUnsound, i);
    }
    prepare_ssa(t, a, m);
    let low = note_blocks(t, a, m, block_count(t, a));
    if let Some(fault) = low {
        return refuse(fault.reason, row_place(i, fault.row));
    }
    check_paths(t, i, a, m)
}

// The check of any lent table: 9 at 0 for another length or too many functions, then each function.
pub fn check_table(t: &[u8]) -> Result<(), Refusal>
    ensures { verdict_of result ≡ check_answer t.now }
{
    if t.len() != TABLE_LENGTH {
        return refuse(Reason::TableUnsound, 0);
    }
    let n = function_count(t);
    if MAX_FUNCTIONS < n {
        return refuse(Reason::TableUnsound, 0);
    }
    let mut m = [0u16; FLOW_LENGTH];
    for i in 0..n {
        check_function(t, i, &mut m)?;
    }
    Ok(())
}
