// The words by their numbers. In the code their letters stand here alone: the look-up and the writer both go by this list.
ghost use Rattle.std.specs.Prelude.{◌≡◌, ◌<◌, ◌≤◌, length, drop};
ghost use Rattle.language.specs.Words.{word_count, spelling_of};
ghost use Rattle.language.specs.Candidates.{first_byte};
ghost use Rattle.vocabulary.specs.Packed.{packed};
ghost use Rattle.vocabulary.specs.Chains.{shortest, longest};
ghost use Rattle.vocabulary.specs.Letters.{letters_of, letter_count, spaces_behind};

use instructions::words::*;
use numbers::put_eight;

// How many bytes words have.
pub const SHORTEST: usize = 3;

pub const LONGEST: usize = 9;

// A word: how many bytes it has, the first of them, and the others as one number, low byte first.
#[derive(Clone, Copy)]
pub struct Spelling {
    pub count: usize,
    pub first: u8,
    pub rest: usize,
}

fn spelled(count: usize, first: u8, rest: usize) -> Spelling
    ensures { (result.count ≡ count) × (result.first ≡ first) × (result.rest ≡ rest) }
{
    Spelling { count, first, rest }
}

// Word number w.
pub fn spelling_of(w: u8) -> Spelling
    requires { w < word_count }
    ensures { (result.count ≡ length (spelling_of w)) × (result.first ≡ first_byte (spelling_of w)) × (result.rest ≡ packed (drop 1 (spelling_of w))) }
{
    match w {
        FUNCTION => spelled(8, b'f', 0x6e6f6974636e75),
        SSA => spelled(3, b's', 0x6173),
        VOID => spelled(4, b'v', 0x64696f),
        REGISTER => spelled(8, b'r', 0x72657473696765),
        BLOCK => spelled(5, b'b', 0x6b636f6c),
        ENTRY => spelled(5, b'e', 0x7972746e),
        INT8 => spelled(4, b'i', 0x38746e),
        INT16 => spelled(5, b'i', 0x3631746e),
        INT32 => spelled(5, b'i', 0x3233746e),
        INT64 => spelled(5, b'i', 0x3436746e),
        UINT8 => spelled(5, b'u', 0x38746e69),
        UINT16 => spelled(6, b'u', 0x3631746e69),
        UINT32 => spelled(6, b'u', 0x3233746e69),
        UINT64 => spelled(6, b'u', 0x3436746e69),
        INT => spelled(3, b'i', 0x746e),
        UINT => spelled(4, b'u', 0x746e69),
        NOP => spelled(3, b'n', 0x706f),
        LOAD_I8 => spelled(7, b'l', 0x38692e64616f),
        LOAD_UI8 => spelled(8, b'l', 0x3869752e64616f),
        LOAD_I16 => spelled(8, b'l', 0x3631692e64616f),
        LOAD_UI16 => spelled(9, b'l', 0x363169752e64616f),
        LOAD_I32 => spelled(8, b'l', 0x3233692e64616f),
        LOAD_UI32 => spelled(9, b'l', 0x323369752e64616f),
        LOAD_I64 => spelled(8, b'l', 0x3436692e64616f),
        LOAD_UI64 => spelled(9, b'l', 0x343669752e64616f),
        ARI_ADD => spelled(7, b'a', 0x6464612e6972),
        ARI_SUB => spelled(7, b'a', 0x6275732e6972),
        ARI_MUL => spelled(7, b'a', 0x6c756d2e6972),
        ARI_DIV => spelled(7, b'a', 0x7669642e6972),
        ARI_REM => spelled(7, b'a', 0x6d65722e6972),
        ARI_NEG => spelled(7, b'a', 0x67656e2e6972),
        BIT_AND => spelled(7, b'b', 0x646e612e7469),
        BIT_OR => spelled(6, b'b', 0x726f2e7469),
        BIT_XOR => spelled(7, b'b', 0x726f782e7469),
        BIT_NEG => spelled(7, b'b', 0x67656e2e7469),
        SHL => spelled(3, b's', 0x6c68),
        SHR => spelled(3, b's', 0x7268),
        ROL => spelled(3, b'r', 0x6c6f),
        ROR => spelled(3, b'r', 0x726f),
        CMP_EQ => spelled(6, b'c', 0x71652e706d),
        CMP_NEQ => spelled(7, b'c', 0x71656e2e706d),
        CMP_GT => spelled(6, b'c', 0x74672e706d),
        CMP_LT => spelled(6, b'c', 0x746c2e706d),
        CMP_GTEQ => spelled(8, b'c', 0x716574672e706d),
        CMP_LTEQ => spelled(8, b'c', 0x7165746c2e706d),
        CONV => spelled(4, b'c', 0x766e6f),
        COPY => spelled(4, b'c', 0x79706f),
        PHI => spelled(3, b'p', 0x6968),
        JUMP => spelled(4, b'j', 0x706d75),
        JUMP_COND => spelled(9, b'j', 0x646e6f632e706d75),
        RETURN => spelled(6, b'r', 0x6e72757465),
        _ => spelled(5, b'l', 0x65766165), // leave
    }
}

// Spaces behind a word of `count` bytes up to the ninth, as they are added to its bytes after the first.
fn spaces_behind(count: usize) -> usize
    requires { (shortest ≤ count) × (count ≤ longest) }
    ensures { result ≡ spaces_behind count }
{
    match count {
        3 => 0x2020202020200000,
        4 => 0x2020202020000000,
        5 => 0x2020202000000000,
        6 => 0x2020200000000000,
        7 => 0x2020000000000000,
        8 => 0x2000000000000000,
        _ => 0,
    }
}

// The bytes of word number w, with spaces to ten.
pub fn letters(w: u8) -> [u8; 10]
    requires { w < word_count }
    ensures { result ≡ letters_of w }
{
    let s = spelling_of(w);
    let rest = s.rest + spaces_behind(s.count);
    let mut bytes = [b' '; 10];
    bytes[0] = s.first;
    put_eight(&mut bytes, 1, rest as u64);
    bytes
}

// How many of them are the word.
pub fn letter_count(w: u8) -> usize
    requires { w < word_count }
    ensures { result ≡ letter_count w }
{
    let s = spelling_of(w);
    s.count
}
