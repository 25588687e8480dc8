// The look-up of words: letters to numbers.
ghost use Rattle.std.specs.Prelude.{◌≡◌, ◌≤◌, length, drop};
ghost use Rattle.language.specs.Words.{word_of, word_count};
ghost use Rattle.vocabulary.specs.Packed.{packed};
ghost use Rattle.vocabulary.specs.Chains.{shortest, longest, from_on, rest_among};

use crate::candidates::{first_candidate, next_candidate};
use crate::spellings::{LONGEST, SHORTEST, spelling_of};
use instructions::words::COUNT;
use numbers::{four_at, two_at};

// The bytes of a name after its first as one number, low byte first. The last two or four are read where the name ends and shifted to their
// place: there is no loop and no branch for each length, since every plain name of a text is looked up.
fn rest_of(name: &[u8]) -> usize
    requires { (shortest ≤ length name.now) × (length name.now ≤ longest) }
    ensures { result ≡ packed (drop 1 name.now) }
{
    let n = name.len();
    if n < 5 {
        return usize::from(name[1]) + 256 * (two_at(name, n - 2) >> (8 * (4 - n)));
    }
    four_at(name, 1) + 4294967296 * (four_at(name, n - 4) >> (8 * (LONGEST - n)))
}

// The first candidate, from word number w on, with these bytes after its first.
fn among(w: u8, rest: usize) -> u8
    requires { w ≤ word_count }
    ensures { result ≡ rest_among rest (from_on w) }
{
    let mut c = w;
    while c < COUNT {
        let s = spelling_of(c);
        if s.rest == rest {
            return c;
        }
        c = next_candidate(c);
    }
    COUNT
}

// The number of the word that these bytes spell, or the count of the words where they spell none.
pub fn word(name: &[u8]) -> u8
    ensures { result ≡ word_of name.now }
{
    let n = name.len();
    if n < SHORTEST {
        return COUNT;
    }
    if LONGEST < n {
        return COUNT;
    }
    let first = first_candidate(name[0], n);
    if first == COUNT {
        return COUNT;
    }
    among(first, rest_of(name))
}
