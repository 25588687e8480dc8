// Numbers as text: "shortest decimal numbers", a load's by its meaning.
ghost use Rattle.std.specs.Prelude.{[], ◌∷◌, ◌++◌, ◌≡◌, ◌^◌, ◌<◌};
ghost use Rattle.language.specs.Instructions.{width};
ghost use Rattle.language.specs.Listing.{digits};
ghost use Rattle.language.specs.Writing.{number_token, space_byte};
ghost use Rattle.page.specs.Page.{page, puts};
ghost use Rattle.token_text.specs.Spaced.{spaced};

use decimal::{digit, of_bits, put_digits};
use page::put_part;

const SPACE: u8 = 32;

// A number of one or two digits and a space.
fn put_short(n: u64, out: &mut [u8], at: usize) -> usize
    requires { n < 100 }
    ensures { page out.new result ≡ puts (page out.old at) (digits n ++ (space_byte ∷ [])) }
{
    if n < 10 {
        let s = [digit(n), SPACE];
        return put_part(out, at, &s);
    }
    let s = [digit(n / 10), digit(n % 10), SPACE];
    put_part(out, at, &s)
}

// A longer one, made ready apart so that the page takes it at once: 20 digits are the most.
fn put_long(n: u64, out: &mut [u8], at: usize) -> usize
    ensures { page out.new result ≡ puts (page out.old at) (digits n ++ (space_byte ∷ [])) }
{
    let mut s = [0u8; 24];
    let e = put_digits(n, &mut s, 0);
    s[e] = SPACE;
    let f = e + 1;
    put_part(out, at, &s[..f])
}

// The digits of a number and a space. Made names have short ones, and there are many of them.
pub fn put_spaced_digits(n: u64, out: &mut [u8], at: usize) -> usize
    ensures { page out.new result ≡ puts (page out.old at) (digits n ++ (space_byte ∷ [])) }
{
    if n < 100 {
        return put_short(n, out, at);
    }
    put_long(n, out, at)
}

// The number of a load of this type, and a space.
pub fn put_number(kind: u8, x: u64, out: &mut [u8], at: usize) -> usize
    requires { x < 2 ^ width kind }
    ensures { page out.new result ≡ puts (page out.old at) (spaced (number_token kind x ∷ [])) }
{
    let m = of_bits(kind, x);
    if m.negative {
        let e = put_part(out, at, b"-");
        return put_spaced_digits(m.magnitude, out, e);
    }
    put_spaced_digits(m.magnitude, out, at)
}
