// The function that a word means in any table.
ghost use Rattle.std.specs.Prelude.{◌≡◌};
ghost use Rattle.calling.specs.Calls.{function_meant};

use call_words::function_number;
use ial::check;

// Its number; a table that its check refuses has none, and 0 stands for it.
pub fn function_in(t: &[u8], word: &[u8]) -> u64
    ensures { result ≡ function_meant t.now word.now }
{
    match check(t) {
        Err(_) => 0,
        Ok(()) => function_number(t, word),
    }
}
