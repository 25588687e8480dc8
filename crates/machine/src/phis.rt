// The phi of a block: "All phi of a block read before any writes".
ghost use Rattle.std.specs.Prelude.{◌≡◌, ◌≤◌, length};
ghost use Rattle.language.specs.Table.{InTable};
ghost use Rattle.machine.specs.Phis.{Readable, Taken, phis_written};

use table::{MAX_REGISTERS, phi_count, phi_entry, phi_first, row_target};

// The places of a run's scratch: so few that clearing them costs a short run little, and more than the phi of nearly every block.
// Kept, rule: `run_from` and `run_on` take scratch of any length above 0 (docs/PROMISES.md), so it is lent as a slice, with a clause, and not as an array of so many.
pub const STAGED: usize = 128;

// What entry k of each phi holds, in row order. Every phi of a block has as many entries as the block has predecessors, so those of the next one
// are so many further on.
fn read_phis(
    t: &[u8],
    a: usize,
    first: usize,
    n: usize,
    k: usize,
    registers: &[u64],
    taken: &mut [u64],
)
    requires in_table { (InTable t.now a) × (n ≤ length taken.old) }
    requires readable { Readable t.now a first n k registers.now }
    ensures { Taken t.now a first n k registers.now taken.new }
{
    let count = phi_count(t, a, first);
    let mut e = phi_first(t, a, first) + k;
    for i in 0..n {
        taken[i] = registers[phi_entry(t, a, e)];
        e += count;
    }
}

// What was read goes to the targets, in row order.
fn write_phis(
    t: &[u8],
    a: usize,
    first: usize,
    n: usize,
    k: usize,
    taken: &[u64],
    registers: &mut [u64],
)
    requires in_table { (InTable t.now a) × (n ≤ length taken.now) }
    requires readable { Readable t.now a first n k registers.old }
    requires taken { Taken t.now a first n k registers.old taken.now }
    ensures { registers.new ≡ phis_written t.now a first k registers.old n }
{
    for i in 0..n {
        registers[row_target(t, a, first + i)] = taken[i];
    }
}

// All n phi by a scratch that is enough for any block. Apart from `take_phis`, so that it is cleared only where the lent one is too short.
fn take_many(t: &[u8], a: usize, first: usize, n: usize, k: usize, registers: &mut [u64])
    requires in_table { InTable t.now a }
    requires readable { Readable t.now a first n k registers.old }
    ensures { registers.new ≡ phis_written t.now a first k registers.old n }
{
    let mut taken = [0u64; MAX_REGISTERS];
    read_phis(t, a, first, n, k, registers, &mut taken);
    write_phis(t, a, first, n, k, &taken, registers);
}

// All n phi from row `first` on take their entry k; what they read goes to `taken` if it has a place for each.
pub fn take_phis(
    t: &[u8],
    a: usize,
    first: usize,
    n: usize,
    k: usize,
    taken: &mut [u64],
    registers: &mut [u64],
)
    requires in_table { InTable t.now a }
    requires readable { Readable t.now a first n k registers.old }
    ensures { registers.new ≡ phis_written t.now a first k registers.old n }
{
    if taken.len() < n {
        take_many(t, a, first, n, k, registers);
        return;
    }
    read_phis(t, a, first, n, k, registers, taken);
    write_phis(t, a, first, n, k, taken, registers);
}
