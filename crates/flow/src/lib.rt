// What is prepared of a function once, so that nothing scans it again: where its registers are first assigned, and its leading phi. The
// numbers are lent as `&[u16]` of one length; `Layout` says which stands where, and each kind has its accessor.
#![tactic(auto)]

mod accessors;
mod assignments;
mod layout;
mod leading;

ghost use Rattle.std.specs.Prelude.{◌≡◌, length};
ghost use Rattle.language.specs.Table.{decode_function};
ghost use Rattle.flow.specs.Layout.{flow_length};
ghost use Rattle.flow.specs.Sized.{Preparable};
ghost use Rattle.flow.specs.Prepared.{Prepared};

use crate::assignments::prepare_assignments;
use crate::leading::prepare_leading;
pub use accessors::{assignment, home, phis};
pub use layout::FLOW_LENGTH;
pub use leading::leading_phis;

// All that the tests of a function's rows need, whatever stood in m before.
pub fn prepare(t: &[u8], a: usize, m: &mut [u16])
    requires { Preparable t.now a × (length m.old ≡ flow_length) }
    ensures { Prepared (decode_function t.now a) m.new }
{
    prepare_assignments(t, a, m);
    prepare_leading(t, a, m);
}
