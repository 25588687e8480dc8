// The blocks that a block goes to.
ghost use Rattle.std.specs.Prelude.{◌+◌, ◌<◌, ◌≤◌};
ghost use Rattle.language.specs.Programs.{max_blocks, max_rows};
ghost use Rattle.language.specs.Table.{block_count, block_first, block_rows, decode_function, InTable};
ghost use Rattle.predecessors.specs.Ends.{GoesOn, number_of};

use instructions::ops;
use table::{block_first, block_rows, jump_first, jump_second, row_op};

// The blocks that a block's last row names, each once.
#[derive(Clone, Copy)]
pub struct Targets {
    pub first: Option<usize>,
    pub second: Option<usize>,
}

// None.
const NOWHERE: Targets = Targets {
    first: None,
    second: None,
};

// Those of block x. "each once": a block named twice stands as the first alone.
pub fn ends(t: &[u8], a: usize, x: usize) -> Targets
    requires { (InTable t.now a) × (x < block_count t.now a) × (x < max_blocks) × (block_first t.now a x + block_rows t.now a x ≤ max_rows) }
    ensures { GoesOn (decode_function t.now a) x (number_of result.first) (number_of result.second) }
{
    let rows = block_rows(t, a, x);
    if rows == 0 {
        return NOWHERE;
    }
    let r = block_first(t, a, x) + rows - 1;
    let op = row_op(t, a, r);
    if op == ops::JUMP {
        return Targets {
            first: Some(jump_first(t, a, r)),
            second: None,
        };
    }
    if op != ops::JUMP_COND {
        return NOWHERE;
    }
    let y = jump_first(t, a, r);
    let z = jump_second(t, a, r);
    if y == z {
        return Targets {
            first: Some(y),
            second: None,
        };
    }
    Targets {
        first: Some(y),
        second: Some(z),
    }
}
