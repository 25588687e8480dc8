// Numbers read: of one, two, four and eight cells, low byte first.
ghost use Rattle.std.specs.Prelude.{◌≡◌, ◌+◌, ◌<◌, ◌≤◌, length};
ghost use Rattle.language.specs.Table.{two, four, eight};

// The number of the two cells from k on.
// Kept, plainer: `from_le_bytes` takes an array, so the cells would be read one by one into one first; so too of four and eight.
pub fn two_at(t: &[u8], k: usize) -> usize
    requires { k + 2 ≤ length t.now }
    ensures { (result ≡ two t.now k) × (result < 65536) }
{
    usize::from(t[k]) + 256 * usize::from(t[k + 1])
}

// The number of four cells.
pub fn four_at(t: &[u8], k: usize) -> usize
    requires { k + 4 ≤ length t.now }
    ensures { (result ≡ four t.now k) × (result < 4294967296) }
{
    two_at(t, k) + 65536 * two_at(t, k + 2)
}

// The number of eight cells.
pub fn eight_at(t: &[u8], k: usize) -> u64
    requires { k + 8 ≤ length t.now }
    ensures { result ≡ eight t.now k }
{
    (four_at(t, k) + 4294967296 * four_at(t, k + 4)) as u64
}
