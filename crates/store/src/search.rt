// A record looked for by its appliance number, by halves.
ghost use Rattle.std.specs.Prelude.{◌≡◌, ◌+◌, length};
ghost use Rattle.records.specs.Stores.{store_length, HasRoom};
ghost use Rattle.records.specs.Answers.{Looked, LookedIn};
ghost use Rattle.store.specs.Places.{FirstPlace, past_of, stands_at, looked_at};

use crate::cells::{appliance_at, count};

// Past place m where its appliance number is smaller than a, else still lo.
fn past(s: &[u8], lo: usize, m: usize, a: u64) -> usize
    requires { HasRoom s.now (m + 1) }
    ensures { result ≡ past_of s.now lo m a }
{
    if appliance_at(s, m) < a {
        return m + 1;
    }
    lo
}

// Where a record of appliance a stands or would stand among the first n: at lo or one of the `left` places behind it, which are halved.
pub fn place(s: &[u8], n: usize, a: u64) -> usize
    requires { HasRoom s.now n }
    ensures { FirstPlace s.now n a result }
{
    let mut lo = 0;
    let mut left = n;
    while 0 < left {
        lo = past(s, lo, lo + (left - 1) / 2, a);
        left /= 2;
    }
    lo
}

// Whether of n records the one at place p is of appliance a.
pub fn stands(s: &[u8], n: usize, p: usize, a: u64) -> bool
    requires { HasRoom s.now n }
    ensures { result ≡ stands_at s.now n p a }
{
    if p < n {
        return appliance_at(s, p) == a;
    }
    false
}

// The place of the record of appliance a, or the count where there is none.
pub fn find(s: &[u8], a: u64) -> usize
    requires { length s.now ≡ store_length }
    ensures { LookedIn s.now a (Looked.looked (looked_at s.now result)) }
{
    let n = count(s);
    let p = place(s, n, a);
    if stands(s, n, p, a) {
        return p;
    }
    n
}
