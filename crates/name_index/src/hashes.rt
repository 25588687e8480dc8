// A hash for each name, the same for the same bytes, so that only names of one hash need be compared.
ghost use Rattle.std.specs.Prelude.{◌≡◌, ◌<◌};
ghost use Rattle.name_index.specs.Hashes.{heads, end_of, end_hash};

use numbers::{eight_at, four_at};

// How many hashes there are.
pub const HEADS: usize = 512;

// The last eight bytes; of fewer all, some of them twice.
pub fn end(name: &[u8]) -> u64
    ensures { result ≡ end_of name.now }
{
    let n = name.len();
    if 8 <= n {
        return eight_at(name, n - 8);
    }
    if 4 <= n {
        return (four_at(name, 0) + 4294967296 * four_at(name, n - 4)) as u64;
    }
    if 1 <= n {
        return (usize::from(name[0])
            + 256 * usize::from(name[n / 2])
            + 65536 * usize::from(name[n - 1])) as u64;
    }
    0
}

// The hash of a name with this end.
pub fn hash(x: u64) -> usize
    ensures { (result ≡ end_hash x) × (result < heads) }
{
    ((x % 4294967296 * 625341585 + x / 4294967296 * 1013904243) / 2147483648) as usize % HEADS
}
