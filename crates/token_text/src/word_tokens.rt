// Words as text.
ghost use Rattle.std.specs.Prelude.{[], ◌∷◌, ◌≡◌, ◌<◌, ◌≤◌};
ghost use Rattle.language.specs.Tokens.{Token};
ghost use Rattle.language.specs.Writing.{type_token, result_token};
ghost use Rattle.language.specs.Instructions.{type_count, void};
ghost use Rattle.language.specs.Words.{word_count};
ghost use Rattle.page.specs.Page.{page, puts};
ghost use Rattle.token_text.specs.Spaced.{spaced};

use instructions::{types, words};
use page::put_part;
use vocabulary::{letter_count, letters};

// Word number w and a space.
pub fn put_word(w: u8, out: &mut [u8], at: usize) -> usize
    requires { w < word_count }
    ensures { page out.new result ≡ puts (page out.old at) (spaced (Token.word w ∷ [])) }
{
    let s = letters(w);
    let n = letter_count(w);
    put_part(out, at, &s[..n + 1])
}

// A type's word and a space.
pub fn put_type(kind: u8, out: &mut [u8], at: usize) -> usize
    requires { kind < type_count }
    ensures { page out.new result ≡ puts (page out.old at) (spaced (type_token kind ∷ [])) }
{
    put_word(words::FIRST_TYPE + kind, out, at)
}

// The same of a result, which may be `void`.
pub fn put_result(kind: u8, out: &mut [u8], at: usize) -> usize
    requires { kind ≤ void }
    ensures { page out.new result ≡ puts (page out.old at) (spaced (result_token kind ∷ [])) }
{
    if kind == types::VOID {
        return put_word(words::VOID, out, at);
    }
    put_type(kind, out, at)
}
