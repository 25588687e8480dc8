// Runs of bytes of one kind: where they end.
ghost use Rattle.std.specs.Prelude.{false, ◌≡◌, ◌+◌, ◌≤◌, ◌<◌, length, get_or};
ghost use Rattle.language.specs.Bytes.{class_of, class_number, name_byte};
ghost use Rattle.vocabulary.specs.Classes.{class_table};
ghost use Rattle.lexer.specs.Runs.{is_space, in_line, Run, First, name_limit, PlainTo};

use crate::actions::MAX_NAME;
use vocabulary::kinds;

// The class of a byte.
pub fn class_of(classes: &[u8; 256], b: u8) -> u8
    requires { classes.now ≡ class_table }
    ensures { result ≡ class_number (class_of b) }
{
    classes[usize::from(b)]
}

// The first place from here on whose byte is no space, or the text's length.
pub fn spaces_end(text: &[u8], from: usize, classes: &[u8; 256]) -> usize
    requires { (from ≤ length text.now) × (classes.now ≡ class_table) }
    ensures { First is_space text.now from (length text.now) result }
{
    for i in from..text.len() {
        if class_of(classes, text[i]) != kinds::SPACE {
            return i;
        }
    }
    text.len()
}

// The place up to which a name that begins at `start` may go.
fn limit(text: &[u8], start: usize) -> usize
    requires { start ≤ length text.now }
    ensures { result ≡ name_limit (length text.now) start }
{
    start + MAX_NAME.min(text.len() - start)
}

// The first place after `start` whose byte no name has, or the limit of a name that begins there.
pub fn name_end(text: &[u8], start: usize, classes: &[u8; 256]) -> usize
    requires { (start + 1 ≤ length text.now) × (classes.now ≡ class_table) }
    ensures { First name_byte text.now (start + 1) (name_limit (length text.now) start) result }
{
    let end = limit(text, start);
    for i in start + 1..end {
        if kinds::SPACE <= class_of(classes, text[i]) {
            return i;
        }
    }
    end
}

// Where the plain name that begins at `start` with a byte of this class ends, if a byte that no name has ends it; else `start`.
pub fn plain_end(text: &[u8], start: usize, class: u8, classes: &[u8; 256]) -> usize
    requires start_in_bounds { (start < length text.now) × (classes.now ≡ class_table) }
    requires start_value { class ≡ 0 → class_number (class_of (get_or text.now start 0)) ≡ 0 }
    ensures { start < result → (class ≡ 0) × PlainTo text.now start result }
{
    if class != kinds::LETTER {
        return start;
    }
    let end = name_end(text, start, classes);
    if text.len() <= end {
        return start;
    }
    if class_of(classes, text[end]) < kinds::SPACE {
        return start;
    }
    end
}

// Whether one of the eight bytes from here on is LF.
fn line_ends(text: &[u8], i: usize) -> bool
    requires { i + 8 ≤ length text.now }
    ensures { result ≡ false → Run in_line text.now i (i + 8) }
{
    for j in i..i + 8 {
        if text[j] == b'\n' {
            return true;
        }
    }
    false
}

// Past as many bytes from here on, by eights, as have no LF.
fn eights(text: &[u8], from: usize) -> usize
    requires { from ≤ length text.now }
    ensures { Run in_line text.now from result × (result ≤ length text.now) }
{
    let count = (text.len() - from) / 8;
    for k in 0..count {
        let i = from + 8 * k;
        if line_ends(text, i) {
            return i;
        }
    }
    from + 8 * count
}

// The first LF from here on, or the text's length.
pub fn line_end(text: &[u8], from: usize) -> usize
    requires { from ≤ length text.now }
    ensures { First in_line text.now from (length text.now) result }
{
    for i in eights(text, from)..text.len() {
        if text[i] == b'\n' {
            return i;
        }
    }
    text.len()
}
