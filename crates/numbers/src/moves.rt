// Cells moved within lent bytes.
ghost use Rattle.std.specs.Prelude.{◌≡◌, ◌+◌, ◌≤◌, length};
ghost use Rattle.numbers.specs.Moving.{moved};

// The cells from `at` up to `end` move up by `by`, the last first: none is written before it is read.
pub fn move_up(s: &mut [u8], at: usize, end: usize, by: usize)
    requires { (at ≤ end) × (end + by ≤ length s.old) }
    ensures { s.new ≡ moved s.old at end by }
{
    for j in (at..end).rev() {
        s[j + by] = s[j];
    }
}
