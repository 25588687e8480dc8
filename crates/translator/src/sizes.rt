// "Translated size, for R registers, B blocks, P phi, E pairs of predecessor and phi block".
ghost use Rattle.std.specs.Prelude.{◌≡◌, length};
ghost use Rattle.language.specs.Table.{decode_function};
ghost use Rattle.language.specs.Translating.{translation_fits};
ghost use Rattle.theorems.specs.Clean.{Clean};
ghost use Rattle.flow.specs.Sized.{Sized};
ghost use Rattle.flow.specs.Prepared.{Prepared};
ghost use Rattle.translator.specs.Sizes.{sizes_of};
ghost use Rattle.translator.specs.Source.{TranslatableAt, Planned};
ghost use Rattle.language.specs.Programs.{max_blocks};

use crate::prepared::pairs;
use flow::phis;
use table::{MAX_BLOCKS, MAX_REGISTERS, MAX_ROWS, block_count, block_rows, register_count};

// The registers, blocks and rows of a translation.
#[derive(Clone, Copy)]
pub struct Sizes {
    pub registers: usize,
    pub blocks: usize,
    pub rows: usize,
}

// "R + P registers, B + E blocks, and the old instructions less P, plus 2p + 1 for each pair".
pub fn measure(t: &[u8], a: usize, m: &[u16]) -> Sizes
    requires sized { Sized t.now a }
    requires prepared { Prepared (decode_function t.now a) m.now }
    requires clean { Clean (decode_function t.now a) }
    ensures { result ≡ sizes_of (decode_function t.now a) }
{
    let n = block_count(t, a);
    let mut new = 0;
    let mut edges = 0;
    let mut rows = 0;
    for b in 0..n {
        let p = phis(m, b);
        let e = pairs(t, a, m, b);
        new += p;
        edges += e;
        rows += block_rows(t, a, b) + e * (2 * p + 1);
    }
    Sizes {
        registers: register_count(t, a) + new,
        blocks: n + edges,
        rows: rows - new,
    }
}

// "Answer 31 exactly if one is over its limit."
pub fn fits(t: &[u8], a: usize, m: &[u16]) -> bool
    requires sized { Sized t.now a }
    requires prepared { Prepared (decode_function t.now a) m.now }
    requires clean { Clean (decode_function t.now a) }
    ensures { result ≡ translation_fits (decode_function t.now a) }
{
    let s = measure(t, a, m);
    if MAX_REGISTERS < s.registers {
        return false;
    }
    if MAX_BLOCKS < s.blocks {
        return false;
    }
    s.rows <= MAX_ROWS
}

// The number of the first edge block of each block, were it to have phi.
pub fn plan_edges(t: &[u8], a: usize, m: &[u16], plan: &mut [u16])
    requires translatable_at { TranslatableAt t.now a }
    requires prepared { Prepared (decode_function t.now a) m.now }
    requires plan_len { length plan.old ≡ max_blocks }
    ensures { Planned (decode_function t.now a) plan.new }
{
    let n = block_count(t, a);
    let mut next = n;
    for y in 0..n {
        plan[y] = next as u16;
        next += pairs(t, a, m, y);
    }
}
