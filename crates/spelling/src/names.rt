// Names that some text can spell, told from their contents.
ghost use Rattle.std.specs.Prelude.{◌≡◌};
ghost use Rattle.laws.specs.Lists.{all};
ghost use Rattle.language.specs.Names.{spellable as spellable_of};
ghost use Rattle.language.specs.Checking.{spellable_or_none};
ghost use Rattle.name_index.specs.Names.{names_in};
ghost use Rattle.table.specs.Named.{NamesWithin};

use table::{MAX_NAME, name_at};

// "The 64 bytes are counted on the contents." A backslash at their end would make the closing quote part of the name.
pub fn spellable(name: &[u8]) -> bool
    ensures { result ≡ spellable_of name.now }
{
    let [.., last] = name else {
        return false;
    };
    if MAX_NAME < name.len() {
        return false;
    }
    *last != b'\\'
}

// "Registers and blocks may have a name of no bytes"; any other is one that a text can spell.
fn spellable_or_none(name: &[u8]) -> bool
    ensures { result ≡ spellable_or_none name.now }
{
    if name.is_empty() {
        return true;
    }
    spellable(name)
}

// Whether each of `count` names has no bytes or is one that a text can spell. Their length cells stand `stride` apart, from cell `at` on.
pub fn all_spellable(t: &[u8], at: usize, stride: usize, count: usize) -> bool
    requires { NamesWithin t.now at stride count }
    ensures { result ≡ all spellable_or_none (names_in t.now at stride count) }
{
    for i in 0..count {
        if !spellable_or_none(name_at(t, at + stride * i)) {
            return false;
        }
    }
    true
}
