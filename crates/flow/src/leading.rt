// The leading phi of each block.
ghost use Rattle.std.specs.Prelude.{◌≡◌, map, ◌+◌, ◌≤◌, length};
ghost use Rattle.laws.specs.Lists.{from, leading};
ghost use Rattle.language.specs.Programs.{is_phi, max_rows};
ghost use Rattle.language.specs.Table.{block_count, decode_row, decode_function, InTable};
ghost use Rattle.flow.specs.Layout.{flow_length};
ghost use Rattle.flow.specs.Sized.{Preparable};
ghost use Rattle.flow.specs.Leading.{Led};

use crate::layout::PHIS_OFFSET;
use instructions::ops;
use table::{block_count, block_first, block_rows, row_op};

// How many of `rows` rows from `first` on are phi before the first other.
pub fn leading_phis(t: &[u8], a: usize, first: usize, rows: usize) -> usize
    requires { (InTable t.now a) × (first + rows ≤ max_rows) }
    ensures { (result ≡ length (leading is_phi (map (decode_row t.now a) (from first rows)))) × (result ≤ rows) }
{
    for j in 0..rows {
        if row_op(t, a, first + j) != ops::PHI {
            return j;
        }
    }
    rows
}

// Those of all blocks.
pub fn prepare_leading(t: &[u8], a: usize, m: &mut [u16])
    requires { Preparable t.now a × (length m.old ≡ flow_length) }
    ensures { Led (decode_function t.now a) m.old m.new (block_count t.now a) }
{
    for b in 0..block_count(t, a) {
        let first = block_first(t, a, b);
        let rows = block_rows(t, a, b);
        m[PHIS_OFFSET + b] = leading_phis(t, a, first, rows) as u16;
    }
}
