// Lexemes to tokens: a plain spelling is a word or a name, and a name's contents are told by where they are.
ghost use Rattle.std.specs.Prelude.{◌≡◌};
ghost use Rattle.lexer.specs.Lexing.{Within};
ghost use Rattle.reader.specs.Text.{SpelledAs, nameless as nameless_of};

use grammar::Token;
use instructions::words::COUNT;
use lexer::{Lexeme, contents_of};
use vocabulary::word;

// A token, and where the contents of its name are: from where on, and how many bytes; none for another token.
#[derive(Clone, Copy)]
pub struct Spelled {
    pub token: Token,
    pub from: usize,
    pub bytes: usize,
}

// A token that is no name.
fn nameless(token: Token) -> Spelled
    ensures { result ≡ nameless_of token }
{
    Spelled {
        token,
        from: 0,
        bytes: 0,
    }
}

// The token that a lexeme is.
pub fn token_of<'a>(x: Lexeme, text: &'a [u8], held: &'a [u8]) -> Spelled
    requires { Within text.now held.now x }
    ensures { SpelledAs text.now held.now x result }
{
    match x {
        Lexeme::Plain(from, bytes) => {
            let w = word(contents_of(text, held, from, bytes));
            if w == COUNT {
                return Spelled {
                    token: Token::Name,
                    from,
                    bytes,
                };
            }
            nameless(Token::Word(w))
        }
        Lexeme::Quoted(from, bytes) => Spelled {
            token: Token::Name,
            from,
            bytes,
        },
        Lexeme::Number(negative, value) => nameless(Token::Number(negative, value)),
        Lexeme::Mark(b) => nameless(Token::Mark(b)),
        Lexeme::End => nameless(Token::End),
    }
}
