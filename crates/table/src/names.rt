// Names: two of them compared, and one looked for among those of a table.
ghost use Rattle.std.specs.Prelude.{◌≡◌, ◌≤◌, length, IfSome};
ghost use Rattle.laws.specs.Lists.{same as same_as};
ghost use Rattle.language.specs.Table.{name_at};
ghost use Rattle.table.specs.Named.{CellsAgree, FindsName, HasTail, NameWithin, NamesWithin};

use crate::cells::name_at;
use numbers::eight_at;

// How many bytes agree, counted in eights: among the next eight there is a difference, or fewer than eight are left.
fn agreeing(a: &[u8], b: &[u8]) -> usize
    requires { length a.now ≡ length b.now }
    ensures { CellsAgree a.now b.now result }
{
    let mut i = 0;
    while 8 <= a.len() - i {
        if eight_at(a, i) != eight_at(b, i) {
            return i;
        }
        i += 8;
    }
    i
}

// Whether a and b have the same bytes: their lengths first, then the last byte, where names differ most often, then the others up to the
// first difference.
pub fn same(a: &[u8], b: &[u8]) -> bool
    ensures { result ≡ same_as a.now b.now }
{
    if a.len() != b.len() {
        return false;
    }
    if a.is_empty() {
        return true;
    }
    let last = a.len() - 1;
    if a[last] != b[last] {
        return false;
    }
    let done = agreeing(a, b);
    for i in done..a.len() {
        if a[i] != b[i] {
            return false;
        }
    }
    true
}

// The last eight bytes of a name of 8 to 255 bytes.
fn tail_of(name: &[u8]) -> Option<u64>
    ensures { IfSome result (λ x. HasTail name.now x) }
{
    let n = name.len();
    if 8 <= n && n <= 255 {
        return Some(eight_at(name, n - 8));
    }
    None
}

// Whether the name whose length is cell k is `name`: first by its last eight bytes, if they are given.
fn is_at(t: &[u8], k: usize, name: &[u8], tail: Option<u64>) -> bool
    requires name_within { NameWithin t.now k }
    requires tail_value { IfSome tail (λ x. HasTail name.now x) }
    ensures { result ≡ same_as (name_at t.now k) name.now }
{
    if let Some(tail) = tail {
        if eight_at(t, k + name.len() - 7) != tail {
            return false;
        }
    }
    same(name_at(t, k), name)
}

// The first of `count` names that equals `name`. Their length cells stand `stride` apart, from cell `at` on.
pub fn find_name(t: &[u8], at: usize, stride: usize, count: usize, name: &[u8]) -> Option<usize>
    requires { NamesWithin t.now at stride count }
    ensures { FindsName t.now at stride count name.now result }
{
    let tail = tail_of(name);
    for i in 0..count {
        if is_at(t, at + stride * i, name, tail) {
            return Some(i);
        }
    }
    None
}
