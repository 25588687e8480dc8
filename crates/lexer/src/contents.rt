// The contents of a name: where they are, and how they are gathered.
ghost use Rattle.std.specs.Prelude.{◌≡◌, ◌+◌, ◌≤◌, length, set};
ghost use Rattle.lexer.specs.Contents.{gathered_place, contents_in, counted_at};

// Stands for the place of contents that are no part of the text but gathered beside it. No text has a byte there.
// Kept, speed: with a flag beside the place, which an Option of it is too, reading was 3 to 10 % slower (docs/DECISIONS.md, 131).
pub const GATHERED: usize = 18446744073709551615;

// The n bytes of contents that begin at this place of the text, or are gathered.
pub fn contents_of<'a>(text: &'a [u8], held: &'a [u8], from: usize, n: usize) -> &'a [u8]
    requires { (n ≤ length held.now) × ((from ≡ gathered_place → ⊥) → from + n ≤ length text.now) }
    ensures { (result.now ≡ contents_in text.now held.now from n) × (length result.now ≤ n) }
{
    if from == GATHERED {
        return &held[..n];
    }
    let end = from + n;
    &text[from..end]
}

// One byte more of contents that have n; how many they have now. A byte without room is dropped: a name is spoiled before one comes.
pub fn keep(held: &mut [u8], n: usize, b: u8) -> usize
    ensures { (result ≡ counted_at (length held.old) n) × (held.new ≡ set held.old n b) }
{
    if n < held.len() {
        held[n] = b;
        return n + 1;
    }
    n
}
