// Names as text. `made` holds the numbers of made names and the flags of given ones, prepared for the whole function.
ghost use Rattle.std.specs.Prelude.{[], ◌∷◌, ◌≡◌, ◌<◌, ◌≤◌, T, length};
ghost use Rattle.language.specs.MadeNames.{made_name, named_function};
ghost use Rattle.language.specs.Names.{plain_name};
ghost use Rattle.language.specs.Programs.{block_at, max_blocks, max_registers};
ghost use Rattle.language.specs.Table.{register_count, block_count, decode_function, InTable};
ghost use Rattle.language.specs.Tokens.{Token};
ghost use Rattle.language.specs.Writing.{register_token, block_token};
ghost use Rattle.naming.specs.Numbered.{plain_flag, RegistersNumbered, BlocksNumbered};
ghost use Rattle.page.specs.Page.{page, puts};
ghost use Rattle.token_text.specs.Spaced.{spaced};

use crate::digits::put_spaced_digits;
use crate::spellings::{put_quoted, put_spelling};
use crate::word_tokens::put_word;
use instructions::words;
use naming::PLAIN;
use page::put_part;
use table::{block_name, function_entry, register_name};

// A name by its spelling, and a space.
pub fn put_name(name: &[u8], out: &mut [u8], at: usize) -> usize
    ensures { page out.new result ≡ puts (page out.old at) (spaced (Token.name name.now ∷ [])) }
{
    let e = put_spelling(name, out, at);
    put_part(out, e, b" ")
}

// The same of a given name, whose flag says whether it is plain.
fn put_given(name: &[u8], flag: u16, out: &mut [u8], at: usize) -> usize
    requires { flag ≡ plain_flag name.now }
    ensures { page out.new result ≡ puts (page out.old at) (spaced (Token.name name.now ∷ [])) }
{
    if flag != PLAIN {
        return put_quoted(name, b"' ", out, at);
    }
    let end = put_part(out, at, name);
    put_part(out, end, b" ")
}

// The made name with this number, and a space: it is its own spelling.
fn put_made(prefix: &[u8], number: u16, out: &mut [u8], at: usize) -> usize
    requires { T (plain_name (made_name prefix.now number)) }
    ensures { page out.new result ≡ puts (page out.old at) (spaced (Token.name (made_name prefix.now number) ∷ [])) }
{
    let e = put_part(out, at, prefix);
    put_spaced_digits(number as u64, out, e)
}

// Register r by its name, given or made, and a space.
pub fn put_register(t: &[u8], a: usize, made: &[u16], r: usize, out: &mut [u8], at: usize) -> usize
    requires in_table { (InTable t.now a) × (register_count t.now a ≤ max_registers) × (max_registers ≤ length made.now) }
    requires registers_numbered { RegistersNumbered (decode_function t.now a) made.now × (r < register_count t.now a) }
    ensures { page out.new result ≡ puts (page out.old at) (spaced (register_token (named_function (decode_function t.now a)) r ∷ [])) }
{
    let name = register_name(t, a, r);
    if name.len() == 0 {
        return put_made(b"p.", made[r], out, at);
    }
    put_given(name, made[r], out, at)
}

// Block b by its name, given or made, or the word `entry`; and a space.
pub fn put_block(t: &[u8], a: usize, made: &[u16], b: usize, out: &mut [u8], at: usize) -> usize
    requires in_table { (InTable t.now a) × (block_count t.now a ≤ max_blocks) × (max_blocks ≤ length made.now) }
    requires blocks_numbered { BlocksNumbered (decode_function t.now a) made.now × (b < block_count t.now a) }
    ensures { page out.new result ≡ puts (page out.old at) (spaced (block_token (block_at (named_function (decode_function t.now a)) b).name ∷ [])) }
{
    let name = block_name(t, a, b);
    if name.len() != 0 {
        return put_given(name, made[b], out, at);
    }
    if b == function_entry(t, a) {
        return put_word(words::ENTRY, out, at);
    }
    put_made(b"e.", made[b], out, at)
}
