// The accessors of `Layout`, each with its bound.
ghost use Rattle.std.specs.Prelude.{◌≡◌, ◌<◌, length};
ghost use Rattle.language.specs.Programs.{max_registers, max_blocks};
ghost use Rattle.flow.specs.Layout.{flow_length, assignment_in, home_in, phis_in};

use crate::layout::{HOMES_OFFSET, PHIS_OFFSET};

// 1 and the first row that assigns register u, or 0.
// Kept, plainer: it is compared with `k + 1`, with 0 and with a row; an Option has no `==`, so each of these would be a method of its own with a closure.
pub fn assignment(m: &[u16], u: usize) -> usize
    requires { (length m.now ≡ flow_length) × (u < max_registers) }
    ensures { (result ≡ assignment_in m.now u) × (result < 65536) }
{
    usize::from(m[u])
}

// The block of that row.
pub fn home(m: &[u16], u: usize) -> usize
    requires { (length m.now ≡ flow_length) × (u < max_registers) }
    ensures { (result ≡ home_in m.now u) × (result < 65536) }
{
    usize::from(m[HOMES_OFFSET + u])
}

// How many phi lead block b.
pub fn phis(m: &[u16], b: usize) -> usize
    requires { (length m.now ≡ flow_length) × (b < max_blocks) }
    ensures { (result ≡ phis_in m.now b) × (result < 65536) }
{
    usize::from(m[PHIS_OFFSET + b])
}
