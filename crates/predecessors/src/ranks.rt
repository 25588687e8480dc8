// "The k-th phi entry belongs to the k-th predecessor."
ghost use Rattle.std.specs.Prelude.{◌≡◌, ℕ, ◌≤◌, ◌<◌, eqb};
ghost use Rattle.laws.specs.Lists.{position};
ghost use Rattle.language.specs.Programs.{max_blocks};
ghost use Rattle.language.specs.Table.{predecessor_count, predecessor_at, stored_predecessors, InTable};
ghost use Rattle.predecessors.specs.Ranked.{Ascending};

use table::{predecessor, predecessor_count};

// So few are looked at one by one; halving would not be quicker.
const FEW: usize = 4;

// How many of the n predecessors that block b keeps need not be looked at: they stand before block x.
fn skipped(t: &[u8], a: usize, b: usize, x: usize, n: usize) -> usize
    requires in_table { (InTable t.now a) × (b < max_blocks) × (n ≡ predecessor_count t.now a b) × (n < 256) }
    requires ascending { Ascending (stored_predecessors t.now a b) }
    ensures { (result ≤ n) × ((i : ℕ) → i < result → predecessor_at t.now a b i < x) }
{
    let mut low = 0;
    let mut high = n;
    while low + FEW < high {
        let middle = (low + high) / 2;
        if x < predecessor(t, a, b, middle) {
            high = middle;
            continue;
        }
        low = middle;
    }
    low
}

// The place of block x among the predecessors that block b keeps, or their number.
// Kept, plainer: a run comes from a block that is kept there, so an Option would give each caller a branch for None that is never taken.
pub fn rank(t: &[u8], a: usize, b: usize, x: usize) -> usize
    requires in_table { (InTable t.now a) × (b < max_blocks) }
    requires ascending { Ascending (stored_predecessors t.now a b) }
    ensures { (result ≡ position (λ z. eqb z x) (stored_predecessors t.now a b)) × (result < 256) }
{
    let n = predecessor_count(t, a, b);
    for k in skipped(t, a, b, x, n)..n {
        if predecessor(t, a, b, k) == x {
            return k;
        }
    }
    n
}
