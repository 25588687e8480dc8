// A line as it is told: records are lines of four decimal numbers parted by tabs.
ghost use Rattle.std.specs.Prelude.{◌≡◌, ◌<◌, eqb, length, IfSome};
ghost use Rattle.std.specs.Option.{unwrap_or};
ghost use Rattle.laws.specs.Lists.{position};
ghost use Rattle.merge_lines.specs.Lines.{number_in, line_words, with_reading, with_tablet, with_time, line_of};

use decimal::{TAB, bits_from, read_decimal, types};

// The numbers of a line.
#[derive(Clone, Copy)]
pub struct Line {
    pub appliance: u64,
    pub time: u64,
    pub tablet: u64,
    pub reading: u64,
}

// The number that a word says, if it lies in the range of a type.
pub fn number(kind: u8, word: &[u8]) -> Option<u64>
    ensures { result ≡ number_in kind word.now }
{
    bits_from(kind, read_decimal(word))
}

// The place of the first such byte.
pub fn first(s: &[u8], b: u8) -> Option<usize>
    ensures place { unwrap_or result (length s.now) ≡ position (λ x. eqb x b) s.now }
    ensures within { IfSome result (λ i. i < length s.now) }
{
    for (i, x) in s.iter().enumerate() {
        if *x == b {
            return Some(i);
        }
    }
    None
}

// The last of the four numbers: no tab may follow.
fn with_reading(appliance: u64, time: u64, tablet: u64, rest: &[u8]) -> Option<Line>
    ensures { result ≡ with_reading appliance time tablet (line_words rest.now) }
{
    if first(rest, TAB).is_some() {
        return None;
    }
    let reading = number(types::INT64, rest)?;
    Some(Line {
        appliance,
        time,
        tablet,
        reading,
    })
}

// The third and what follows.
fn with_tablet(appliance: u64, time: u64, rest: &[u8]) -> Option<Line>
    ensures { result ≡ with_tablet appliance time (line_words rest.now) }
{
    let t = first(rest, TAB)?;
    let tablet = number(types::UINT64, &rest[..t])?;
    with_reading(appliance, time, tablet, &rest[t + 1..])
}

// The second and what follows.
fn with_time(appliance: u64, rest: &[u8]) -> Option<Line>
    ensures { result ≡ with_time appliance (line_words rest.now) }
{
    let t = first(rest, TAB)?;
    let time = number(types::UINT64, &rest[..t])?;
    with_tablet(appliance, time, &rest[t + 1..])
}

// The numbers of a line without its LF, if it says four.
pub fn line_numbers(line: &[u8]) -> Option<Line>
    ensures { result ≡ line_of line.now }
{
    let t = first(line, TAB)?;
    let appliance = number(types::UINT64, &line[..t])?;
    with_time(appliance, &line[t + 1..])
}
