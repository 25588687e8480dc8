// 10 to 16 of a function's rows, in one pass: of each row the lowest number that it breaks, of all rows the lowest of those.
ghost use Rattle.std.specs.Prelude.{◌≡◌, ◌<◌, ◌≤◌, length};
ghost use Rattle.language.specs.Table.{block_count, decode_function};
ghost use Rattle.flow.specs.Layout.{flow_length};
ghost use Rattle.flow.specs.Sized.{Preparable};
ghost use Rattle.rules.specs.Cells.{SsaPrepared};
ghost use Rattle.checker.specs.Notes.{RowsRanged, noted, noted_in, noted_of};
ghost use Rattle.language.specs.Programs.{max_rows};
ghost use Rattle.answers.specs.Reasons.{reason_number};
ghost use Rattle.checker.specs.Lows.{low_of, IsOfRow};

use answers::Reason;
use flow::prepare;
use rules::form_fault;
use table::{block_first, block_rows, function_ssa};

// What the tests of rows ask for, whatever stood in m before: in functions that are not marked ssa nothing.
pub fn prepare_ssa(t: &[u8], a: usize, m: &mut [u16])
    requires { Preparable t.now a × (length m.old ≡ flow_length) }
    ensures { SsaPrepared (decode_function t.now a) m.new }
{
    if function_ssa(t, a) != 1 {
        return;
    }
    prepare(t, a, m);
}

// What of 10 to 16 is broken, and by which row.
#[derive(Clone, Copy)]
pub struct Fault {
    pub reason: Reason,
    pub row: usize,
}

// The lowest fault noted so far, and one more in a later row: the former, unless this is lower.
fn noted(low: Option<Fault>, reason: Reason, row: usize) -> Option<Fault>
    requires { (reason_number reason < 17) × (row ≤ max_rows) × IsOfRow low }
    ensures { (low_of result ≡ noted (low_of low) (reason_number reason) row) × IsOfRow result }
{
    let Some(fault) = low else {
        return Some(Fault { reason, row });
    };
    if u8::from(reason) < u8::from(fault.reason) {
        return Some(Fault { reason, row });
    }
    low
}

// What is noted of the rows of block b. "A block with no rows is placed at the row where it would begin": 10.
fn note_block(t: &[u8], a: usize, m: &[u16], b: usize, low: Option<Fault>) -> Option<Fault>
    requires rows_ranged { RowsRanged t.now a m.now }
    requires b_bound { (b < block_count t.now a) × IsOfRow low }
    ensures { (low_of result ≡ noted_in (decode_function t.now a) (low_of low) b) × IsOfRow result }
{
    let first = block_first(t, a, b);
    let rows = block_rows(t, a, b);
    if rows == 0 {
        return noted(low, Reason::TerminatorMisplaced, first);
    }
    let mut x = low;
    for j in 0..rows {
        let Some(reason) = form_fault(t, a, m, b, j, first + j) else {
            continue;
        };
        x = noted(x, reason, first + j);
    }
    x
}

// What is noted of all rows.
pub fn note_blocks(t: &[u8], a: usize, m: &[u16], blocks: usize) -> Option<Fault>
    requires rows_ranged { RowsRanged t.now a m.now }
    requires blocks_value { blocks ≡ block_count t.now a }
    ensures { (low_of result ≡ noted_of (decode_function t.now a)) × IsOfRow result }
{
    let mut x = None;
    for b in 0..blocks {
        x = note_block(t, a, m, b, x);
    }
    x
}
