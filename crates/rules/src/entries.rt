// A test of each of a phi's entries.
ghost use Rattle.std.specs.Prelude.{◌≡◌, Bool, ℕ, map, ◌+◌, ◌<◌, ◌≤◌};
ghost use Rattle.laws.specs.Lists.{all, from};
ghost use Rattle.language.specs.Programs.{max_entries};
ghost use Rattle.language.specs.Table.{phi_entry, InTable};

use table::phi_entry;

// Every one of `count` phi entries from `first` on passes a test, whose answer is that of p.
pub fn entries_pass<F: Fn(usize) -> bool>(
    t: &[u8],
    a: usize,
    first: usize,
    count: usize,
    passes: F,
) -> bool
    requires in_table { (InTable t.now a) × (first + count ≤ max_entries) }
    requires callable { (u : ℕ) → u < 256 → F.pre passes u }
    ensures { (p : ℕ → Bool) → ((u : ℕ) (b : Bool) → u < 256 → F.post passes u b → b ≡ p u) → result ≡ all p (map (phi_entry t.now a) (from first count)) }
{
    for i in first..first + count {
        if !passes(phi_entry(t, a, i)) {
            return false;
        }
    }
    true
}
