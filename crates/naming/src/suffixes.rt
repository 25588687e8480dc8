// The number of a name that is spelled like a made one.
ghost use Rattle.std.specs.Prelude.{◌≡◌, ◌≤◌, ◌<◌, IfSome};
ghost use Rattle.std.specs.Option.{unwrap_or};
ghost use Rattle.naming.specs.Numbers.{digit_from, prefix_of, Numbers};

// With 256 names at most, no made number reaches 512: it stands for every name that is no made one with a smaller number.
pub(crate) const OTHER: usize = 512;

// The number of a digit from `least` on.
fn digit(b: u8, least: u8) -> Option<usize>
    requires { 48 ≤ least }
    ensures value { unwrap_or result 512 ≡ digit_from least b }
    ensures within { IfSome result (λ d. d < 10) }
{
    if b < least || b'9' < b {
        return None;
    }
    Some(usize::from(b - b'0'))
}

// The number below 512 for which the name is `first`, a dot and its shortest digits; there is at most one. A number of two or three digits has no 0
// before it.
pub fn number(name: &[u8], first: u8) -> Option<usize>
    ensures { Numbers (prefix_of first) name.now (unwrap_or result 512) }
{
    let n = name.len();
    if n < 3 || 5 < n || name[0] != first || name[1] != b'.' {
        return None;
    }
    if n == 3 {
        return digit(name[2], b'0');
    }
    if n == 4 {
        return Some(10 * digit(name[2], b'1')? + digit(name[3], b'0')?);
    }
    let j = 100 * digit(name[2], b'1')? + 10 * digit(name[3], b'0')? + digit(name[4], b'0')?;
    if j < OTHER {
        return Some(j);
    }
    None
}
