// The lists of a function's blocks, put down in one pass over its terminators.
ghost use Rattle.std.specs.Prelude.{◌≡◌, List, ℕ, ◌+◌, ◌<◌, ◌≤◌};
ghost use Rattle.language.specs.Programs.{Func, max_blocks};
ghost use Rattle.language.specs.Table.{block_count, predecessor_lists, InTable};
ghost use Rattle.predecessors.specs.Ranked.{lists_before};
ghost use Rattle.predecessors.specs.Listing.{FunctionStands, no_lists, next_listed};
ghost use Rattle.predecessors.specs.Ends.{number_of};

use crate::ends::ends;
use table::{
    BLOCK_LENGTH, MAX_BLOCKS, MAX_ROWS, PREDECESSORS_OFFSET, block_count, block_first, block_rows,
    predecessor_count,
};

// Block x goes to block y, if that is one of n: it is the next of y's predecessors. A list that is full stays so.
fn list(t: &mut [u8], a: usize, n: usize, y: Option<usize>, x: usize)
    requires { (InTable t.old a) × (n ≤ max_blocks) × (x < max_blocks) }
    ensures { t.new ≡ next_listed t.old a n (number_of y) x }
{
    let Some(y) = y else {
        return;
    };
    if n <= y {
        return;
    }
    let c = predecessor_count(t, a, y);
    if MAX_BLOCKS <= c {
        return;
    }
    let k = a + PREDECESSORS_OFFSET + BLOCK_LENGTH * y;
    t[k + 1 + c] = x as u8;
    t[k] = (c + 1) as u8;
}

// The blocks that block x goes to have it as a predecessor. A table of which it is not known that its rows are in sequence may say that they
// go on past the last.
fn list_block(t: &mut [u8], a: usize, n: usize, x: usize)
    requires { (InTable t.old a) × (n ≡ block_count t.old a) × (n ≤ max_blocks) × (x < n) }
    ensures a_unchanged { block_count t.new a ≡ block_count t.old a }
    ensures function_stands { (g : Func) (before behind : List ℕ) → FunctionStands t.old a (lists_before g x) g before behind → FunctionStands t.new a (lists_before g (x + 1)) g before behind }
{
    if MAX_ROWS < block_first(t, a, x) + block_rows(t, a, x) {
        return;
    }
    let e = ends(t, a, x);
    list(t, a, n, e.first, x);
    list(t, a, n, e.second, x);
}

// All lists of the function at a: of every function that stands there without lists, its own.
pub fn put_predecessors(t: &mut [u8], a: usize)
    requires { (InTable t.old a) × (block_count t.old a ≤ max_blocks) }
    ensures { (g : Func) (before behind : List ℕ) → FunctionStands t.old a (no_lists g) g before behind → FunctionStands t.new a (predecessor_lists g) g before behind }
{
    let n = block_count(t, a);
    for x in 0..n {
        list_block(t, a, n, x);
    }
}
