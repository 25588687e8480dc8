// What a function of a lent table takes and gives.
ghost use Rattle.std.specs.Prelude.{◌≡◌, map, ◌<◌, length};
ghost use Rattle.laws.specs.Lists.{below, same};
ghost use Rattle.language.specs.Table.{register_type, table_length};
ghost use Rattle.ial.specs.Calls.{SignatureCalled};

use table::{
    MAX_FUNCTIONS, REGISTER_LENGTH, REGISTERS_OFFSET, TABLE_LENGTH, function_at, function_count,
    function_params, function_result, register_count,
};

// The type of register r of the function at cell a, however many registers the table says to hold: a cell past its end counts as 0.
fn type_of(t: &[u8], a: usize, r: usize) -> u8
    requires { (a < table_length) × (r < 65536) }
    ensures { result ≡ register_type t.now a r }
{
    let k = a + REGISTERS_OFFSET + REGISTER_LENGTH * r;
    t.get(k).copied().unwrap_or(0)
}

// Whether the first registers of the function at cell a have these types.
fn has_types(t: &[u8], a: usize, types: &[u8]) -> bool
    requires { (a < table_length) × (length types.now < 65536) }
    ensures { result ≡ same (map (register_type t.now a) (below (length types.now))) types.now }
{
    for (r, &x) in types.iter().enumerate() {
        if type_of(t, a, r) != x {
            return false;
        }
    }
    true
}

// Whether a function of a lent table gives a result of this type and takes parameters of these. Nothing else of the table is checked.
pub fn has_signature(t: &[u8], function: u64, res: u8, types: &[u8]) -> bool
    ensures { SignatureCalled t.now function res types.now result }
{
    if t.len() != TABLE_LENGTH {
        return false;
    }
    let n = function_count(t);
    if MAX_FUNCTIONS < n {
        return false;
    }
    if n as u64 <= function {
        return false;
    }
    let a = function_at(function as usize);
    if function_result(t, a) != res {
        return false;
    }
    if function_params(t, a) != types.len() {
        return false;
    }
    if register_count(t, a) < types.len() {
        return false;
    }
    has_types(t, a, types)
}
