// Names declared twice.
ghost use Rattle.std.specs.Prelude.{◌≡◌, ◌≤◌};
ghost use Rattle.language.specs.Checking.{distinct};
ghost use Rattle.language.specs.Programs.{max_registers};
ghost use Rattle.name_index.specs.Names.{names_in};
ghost use Rattle.table.specs.Named.{NamesWithin};

use name_index::{HEADS, index};
use table::MAX_REGISTERS;

// Whether no name of one byte or more stands twice among `count` names. Their length cells stand `stride` apart, from cell `at` on.
pub fn distinct_names(t: &[u8], at: usize, stride: usize, count: usize) -> bool
    requires { NamesWithin t.now at stride count × (count ≤ max_registers) }
    ensures { result ≡ distinct (names_in t.now at stride count) }
{
    let mut last = [0u16; HEADS];
    let mut before = [0u16; MAX_REGISTERS];
    index(t, at, stride, count, &mut last, &mut before)
}
