// The lists that a table keeps, compared with its terminators in one pass over these: 9 for any other.
ghost use Rattle.std.specs.Prelude.{◌≡◌, ℕ, ◌+◌, ◌<◌, ◌≤◌, eqb, length, get_or};
ghost use Rattle.laws.specs.Lists.{all, below};
ghost use Rattle.language.specs.Programs.{max_blocks, max_rows};
ghost use Rattle.language.specs.Table.{block_count, block_first, block_rows, predecessor_count, predecessors_kept, InTable};
ghost use Rattle.predecessors.specs.Comparing.{next_agrees, next_seen};
ghost use Rattle.predecessors.specs.Ends.{number_of};

use crate::ends::ends;
use table::{MAX_BLOCKS, predecessor, predecessor_count};

// Block x goes to block y, if that is one of n, and is the next of the predecessors that y keeps. Those seen so far are counted; whether y keeps as many
// is asked at the end.
fn agrees(t: &[u8], a: usize, n: usize, seen: &mut [u8], y: Option<usize>, x: usize) -> bool
    requires { (InTable t.now a) × (n ≤ max_blocks) × (length seen.old ≡ max_blocks) × (number_of y < n → get_or seen.old (number_of y) 0 < max_blocks) }
    ensures { (result ≡ next_agrees t.now a n seen.old (number_of y) x) × (seen.new ≡ next_seen n seen.old (number_of y)) }
{
    let Some(y) = y else {
        return true;
    };
    if n <= y {
        return true;
    }
    let c = usize::from(seen[y]);
    seen[y] = (c + 1) as u8;
    predecessor(t, a, y, c) == x
}

// Every block keeps as many as were seen.
fn counted(t: &[u8], a: usize, n: usize, seen: &[u8]) -> bool
    requires { (InTable t.now a) × (n ≤ max_blocks) × (length seen.now ≡ max_blocks) }
    ensures { result ≡ all (λ b. eqb (predecessor_count t.now a b) (get_or seen.now b 0)) (below n) }
{
    for b in 0..n {
        if predecessor_count(t, a, b) != usize::from(seen[b]) {
            return false;
        }
    }
    true
}

// Whether each of the n blocks of the function at a keeps the predecessors that document 01 gives it.
pub fn predecessors_kept(t: &[u8], a: usize, n: usize) -> bool
    requires in_table { (InTable t.now a) × (n ≡ block_count t.now a) × (n ≤ max_blocks) }
    requires by_index { (b : ℕ) → b < n → block_first t.now a b + block_rows t.now a b ≤ max_rows }
    ensures { result ≡ predecessors_kept t.now a }
{
    let mut seen = [0u8; MAX_BLOCKS];
    for x in 0..n {
        let e = ends(t, a, x);
        if !agrees(t, a, n, &mut seen, e.first, x) {
            return false;
        }
        if !agrees(t, a, n, &mut seen, e.second, x) {
            return false;
        }
    }
    counted(t, a, n, &seen)
}
