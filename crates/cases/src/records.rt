// A script: how many records there are in its first eight bytes, then the records, 88 bytes each; behind them the labels, texts, numbers and cells
// that the records name by their place in the script and their length. Numbers have eight bytes, low first.
ghost use Rattle.std.specs.Prelude.{◌<◌, ◌≤◌, length};

// One call of the library, or a change of the source table: 0 reads a text, 1 puts cells, 2 fills the gaps between the cells that are needed; 3
// translates; 4 lists a text, 5 checks, 6 runs the source, 7 runs the translation, 8 writes the source as text, 9 writes the translation. With it a
// label to print before, the cells lent of the source table, the function, the budget, the cells lent as output, what goes in (a text, arguments,
// cells) and what must come out (cells, registers, a text).
#[derive(Clone, Copy)]
pub struct Record {
    pub kind: u64,
    pub label_at: usize,
    pub label_len: usize,
    pub source: usize,
    pub function: u64,
    pub budget: u64,
    pub lent: usize,
    pub given_at: usize,
    pub given_len: usize,
    pub want_at: usize,
    pub want_len: usize,
}

// The number at cell k, or 0 where the bytes end before.
pub(crate) fn number_at(s: &[u8], k: usize) -> u64 {
    if s.len() < 8 {
        return 0;
    }
    if s.len() - 8 < k {
        return 0;
    }
    numbers::eight_at(s, k)
}

fn place_at(s: &[u8], k: usize) -> usize {
    number_at(s, k) as usize
}

// How many records a script has.
pub(crate) fn count(s: &[u8]) -> usize
    ensures { result < 65536 }
{
    (number_at(s, 0) % 65536) as usize
}

// Record i.
pub(crate) fn script_record(s: &[u8], i: usize) -> Record
    requires { i < 65536 }
{
    let k = 8 + 88 * i;
    Record {
        kind: number_at(s, k),
        label_at: place_at(s, k + 8),
        label_len: place_at(s, k + 16),
        source: place_at(s, k + 24),
        function: number_at(s, k + 32),
        budget: number_at(s, k + 40),
        lent: place_at(s, k + 48),
        given_at: place_at(s, k + 56),
        given_len: place_at(s, k + 64),
        want_at: place_at(s, k + 72),
        want_len: place_at(s, k + 80),
    }
}

// So many bytes from a place on, or none where the script ends before.
pub(crate) fn part(s: &[u8], at: usize, n: usize) -> &[u8] {
    if s.len() < at {
        return &s[..0];
    }
    if s.len() - at < n {
        return &s[..0];
    }
    let e = at + n;
    &s[at..e]
}

// The smaller of two numbers.
pub(crate) fn least(a: usize, b: usize) -> usize
    ensures { (result ≤ a) × (result ≤ b) }
{
    if a < b {
        return a;
    }
    b
}

// The numbers that the bytes hold, as many as there is room for, and how many these are.
pub(crate) fn numbers(bytes: &[u8], into: &mut [u64]) -> usize
    ensures { result ≤ length into.old }
{
    let n = least(bytes.len() / 8, into.len());
    let mut i = 0;
    while i < n {
        into[i] = number_at(bytes, 8 * i);
        i += 1;
    }
    n
}
