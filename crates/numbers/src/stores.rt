// Numbers and bytes stored. Each store says which cells it writes from which place on: every other cell, and the length, is as it was.
ghost use Rattle.std.specs.Prelude.{◌≡◌, ◌+◌, ◌%◌, ◌≤◌, length};
ghost use Rattle.std.proofs.lemmas.List.Edits.{sets};
ghost use Rattle.language.specs.Answers.{zeros};
ghost use Rattle.language.specs.Table.{two_bytes, four_bytes, eight_bytes};

// The low byte of a number.
fn low(n: usize) -> u8
    ensures { result ≡ n % 256 }
{
    (n % 256) as u8
}

// The number n in two cells from k on, low byte first.
pub fn put_two(t: &mut [u8], k: usize, n: usize)
    requires { k + 2 ≤ length t.old }
    ensures { t.new ≡ sets t.old k (two_bytes n) }
{
    t[k] = low(n);
    t[k + 1] = low(n / 256);
}

// In four cells.
pub fn put_four(t: &mut [u8], k: usize, n: usize)
    requires { k + 4 ≤ length t.old }
    ensures { t.new ≡ sets t.old k (four_bytes n) }
{
    put_two(t, k, n);
    put_two(t, k + 2, n / 65536);
}

// In eight cells.
pub fn put_eight(t: &mut [u8], k: usize, n: u64)
    requires { k + 8 ≤ length t.old }
    ensures { t.new ≡ sets t.old k (eight_bytes n) }
{
    put_four(t, k, n as usize);
    put_four(t, k + 4, (n / 4294967296) as usize);
}

// The bytes of s from cell k on.
pub fn put_bytes(t: &mut [u8], k: usize, s: &[u8])
    requires { k + length s.now ≤ length t.old }
    ensures { t.new ≡ sets t.old k s.now }
{
    // Kept, rule: `copy_from_slice` would be a call of `memmove`, which `libial.a` does not ask of whoever links it.
    for i in 0..s.len() {
        t[k + i] = s[i];
    }
}

// n cells from a on become 0.
pub fn zero_part(t: &mut [u8], a: usize, n: usize)
    requires { a + n ≤ length t.old }
    ensures { t.new ≡ sets t.old a (zeros n) }
{
    t[a..a + n].fill(0);
}

// Every cell becomes 0.
pub fn zero(t: &mut [u8])
    ensures { t.new ≡ zeros (length t.old) }
{
    t.fill(0);
}
