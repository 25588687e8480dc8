// What the translation looks up of what is kept and prepared of a function: pairs, and blocks in place of those that are named.
ghost use Rattle.std.specs.Prelude.{◌≡◌, ◌<◌, length};
ghost use Rattle.language.specs.Table.{stored_predecessors, InTable};
ghost use Rattle.predecessors.specs.Ranked.{Ascending};
ghost use Rattle.flow.specs.Layout.{flow_length};
ghost use Rattle.translator.specs.Source.{pairs_in, renamed_as};
ghost use Rattle.language.specs.Programs.{max_blocks};

use flow::phis;
use predecessors::rank;
use table::predecessor_count;

// The pairs of predecessor and block b: none if it has no phi.
pub fn pairs(t: &[u8], a: usize, m: &[u16], b: usize) -> usize
    requires { (InTable t.now a) × (length m.now ≡ flow_length) × (b < max_blocks) }
    ensures { (result ≡ pairs_in t.now a m.now b) × (result < 65536) }
{
    if phis(m, b) == 0 {
        return 0;
    }
    predecessor_count(t, a, b)
}

// The block that block x names in place of y: the edge block of the two, if y has phi.
pub fn renamed(t: &[u8], a: usize, m: &[u16], plan: &[u16], x: usize, y: usize) -> usize
    requires in_table { (InTable t.now a) × (length m.now ≡ flow_length) × (length plan.now ≡ max_blocks) × (y < max_blocks) }
    requires ascending { Ascending (stored_predecessors t.now a y) }
    ensures { (result ≡ renamed_as t.now a m.now plan.now x y) × (result < 131072) }
{
    if phis(m, y) == 0 {
        return y;
    }
    usize::from(plan[y]) + rank(t, a, y, x)
}
