// The edge blocks: "it copies entries to new registers, then these to targets, each by row, and jumps to the phi block".
ghost use Rattle.std.specs.Prelude.{◌≡◌, ◌+◌, ◌*◌, ◌<◌};
ghost use Rattle.language.specs.Programs.{first_row};
ghost use Rattle.language.specs.Table.{block_count, decode_function};
ghost use Rattle.language.specs.Translating.{pairs_before, new_register};
ghost use Rattle.flow.specs.Layout.{phis_in};
ghost use Rattle.flow.specs.Prepared.{Prepared};
ghost use Rattle.translator.specs.Filling.{unlisted};
ghost use Rattle.translator.specs.Source.{TranslatableAt, translated, built, pairs_in, edge_number, Edge};

use crate::kept::put_place;
use crate::prepared::pairs;
use flow::phis;
use instructions::ops;
use table::{
    FIRST_FUNCTION, block_count, block_first, phi_entry, phi_first, put_row, register_count,
    row_target,
};

// The j-th entries of block y's phi, copied to registers n and on; as rows k and on.
fn copy_entries(
    t: &[u8],
    a: usize,
    m: &[u16],
    y: usize,
    j: usize,
    n: usize,
    out: &mut [u8],
    k: usize,
)
    requires translatable_at { TranslatableAt t.now a }
    requires prepared { Prepared (decode_function t.now a) m.now }
    requires edge { Edge t.now a m.now y j n k }
    requires out_value { out.old ≡ built t.now a (edge_number t.now a y j + 1) k }
    ensures { out.new ≡ built t.now a (edge_number t.now a y j + 1) (k + phis_in m.now y) }
{
    let p = phis(m, y);
    let first = block_first(t, a, y);
    for i in 0..p {
        let e = phi_entry(t, a, phi_first(t, a, first + i) + j);
        put_row(out, FIRST_FUNCTION, k + i, ops::COPY, n + i, e, 0, 0);
    }
}

// Registers n and on, copied to the targets of block y's phi; behind as many rows from row k on.
fn copy_targets(
    t: &[u8],
    a: usize,
    m: &[u16],
    y: usize,
    j: usize,
    n: usize,
    out: &mut [u8],
    k: usize,
)
    requires translatable_at { TranslatableAt t.now a }
    requires prepared { Prepared (decode_function t.now a) m.now }
    requires edge { Edge t.now a m.now y j n k }
    requires out_value { out.old ≡ built t.now a (edge_number t.now a y j + 1) (k + phis_in m.now y) }
    ensures { out.new ≡ built t.now a (edge_number t.now a y j + 1) (k + 2 * phis_in m.now y) }
{
    let p = phis(m, y);
    let first = block_first(t, a, y);
    for i in 0..p {
        put_row(
            out,
            1,
            k + p + i,
            ops::COPY,
            row_target(t, a, first + i),
            n + i,
            0,
            0,
        );
    }
}

// Block b, the edge from the j-th predecessor of block y, its new registers from n on, its rows from k on; the row behind it.
fn put_edge(
    t: &[u8],
    a: usize,
    m: &[u16],
    y: usize,
    j: usize,
    n: usize,
    b: usize,
    out: &mut [u8],
    k: usize,
) -> usize
    requires translatable_at { TranslatableAt t.now a }
    requires prepared { Prepared (decode_function t.now a) m.now }
    requires edge { Edge t.now a m.now y j n k }
    requires b_value { (b ≡ edge_number t.now a y j) × (out.old ≡ built t.now a b k) }
    ensures { (result ≡ first_row (translated t.now a) (b + 1)) × (out.new ≡ built t.now a (b + 1) result) }
{
    let p = phis(m, y);
    put_place(out, b, k, 2 * p + 1);
    copy_entries(t, a, m, y, j, n, out, k);
    copy_targets(t, a, m, y, j, n, out, k);
    put_row(out, FIRST_FUNCTION, k + 2 * p, ops::JUMP, 0, 0, 0, y as u64);
    k + 2 * p + 1
}

// The edges to block y, blocks b and on, their rows from k on; the row behind them.
fn put_edges(
    t: &[u8],
    a: usize,
    m: &[u16],
    y: usize,
    n: usize,
    b: usize,
    out: &mut [u8],
    k: usize,
) -> usize
    requires translatable_at { TranslatableAt t.now a }
    requires prepared { Prepared (decode_function t.now a) m.now }
    requires y_bound { (y < block_count t.now a) × (n ≡ new_register (decode_function t.now a) y) × (b ≡ block_count t.now a + pairs_before (decode_function t.now a) y) }
    requires k_value { (k ≡ first_row (translated t.now a) b) × (out.old ≡ built t.now a b k) }
    ensures { (result ≡ first_row (translated t.now a) (b + pairs_in t.now a m.now y)) × (out.new ≡ built t.now a (b + pairs_in t.now a m.now y) result) }
{
    let e = pairs(t, a, m, y);
    let mut r = k;
    for j in 0..e {
        r = put_edge(t, a, m, y, j, n, b + j, out, r);
    }
    r
}

// The edges to all blocks, behind the blocks that are kept, their rows from k on: the table is whole but for its lists of predecessors.
pub fn put_all_edges(t: &[u8], a: usize, m: &[u16], out: &mut [u8], k: usize)
    requires translatable_at { TranslatableAt t.now a }
    requires prepared { Prepared (decode_function t.now a) m.now }
    requires k_value { (k ≡ first_row (translated t.now a) (block_count t.now a)) × (out.old ≡ built t.now a (block_count t.now a) k) }
    ensures { out.new ≡ unlisted (translated t.now a) }
{
    let blocks = block_count(t, a);
    let mut n = register_count(t, a);
    let mut b = blocks;
    let mut r = k;
    for y in 0..blocks {
        r = put_edges(t, a, m, y, n, b, out, r);
        n += phis(m, y);
        b += pairs(t, a, m, y);
    }
}
