// Plain names, told from the classes of their bytes.
ghost use Rattle.std.specs.Prelude.{◌≡◌};
ghost use Rattle.language.specs.Names.{plain_bytes, plain_name};
ghost use Rattle.vocabulary.specs.Classes.{class_table};

use crate::kinds;
use crate::lookup::word;
use instructions::words::COUNT;

// "letter, `.` or `_`, then those or digits"
fn plain_bytes(name: &[u8], classes: &[u8; 256]) -> bool
    requires { classes.now ≡ class_table }
    ensures { result ≡ plain_bytes name.now }
{
    let [first, rest @ ..] = name else {
        return false;
    };
    if classes[usize::from(*first)] != kinds::LETTER {
        return false;
    }
    for b in rest {
        let class = classes[usize::from(*b)];
        if kinds::DIGIT < class {
            return false;
        }
    }
    true
}

// Whether a plain spelling is possible: no word's letters are one.
pub fn plain_name(name: &[u8], classes: &[u8; 256]) -> bool
    requires { classes.now ≡ class_table }
    ensures { result ≡ plain_name name.now }
{
    if !plain_bytes(name, classes) {
        return false;
    }
    word(name) == COUNT
}
