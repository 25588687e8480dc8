// The candidates of a word, "the spellings of its length and first byte": the first of them, and from each the next.
ghost use Rattle.std.specs.Prelude.{◌≡◌, [], ◌∷◌, ◌<◌, ◌≤◌};
ghost use Rattle.language.specs.Words.{word_count};
ghost use Rattle.language.specs.Candidates.{candidates, first_of};
ghost use Rattle.vocabulary.specs.Packed.{packed};
ghost use Rattle.vocabulary.specs.Chains.{shortest, longest, first_candidates, next_alike};

use crate::spellings::SHORTEST;
use instructions::words::*;

// No word.
const NONE: u8 = COUNT;

// A word for each length from 3 to 9, as one number.
fn by_length(three: u8, four: u8, five: u8, six: u8, seven: u8, eight: u8, nine: u8) -> usize
    ensures { result ≡ packed (three ∷ four ∷ five ∷ six ∷ seven ∷ eight ∷ nine ∷ []) }
{
    let low = usize::from(three)
        + 256 * usize::from(four)
        + 65536 * usize::from(five)
        + 16777216 * usize::from(six);
    low + 4294967296 * (usize::from(seven) + 256 * usize::from(eight) + 65536 * usize::from(nine))
}

// The first candidates of a first byte.
fn first_candidates(first: u8) -> usize
    ensures { result ≡ first_candidates first }
{
    match first {
        b'a' => by_length(NONE, NONE, NONE, NONE, ARI_ADD, NONE, NONE),
        b'b' => by_length(NONE, NONE, BLOCK, BIT_OR, BIT_AND, NONE, NONE),
        b'c' => by_length(NONE, CONV, NONE, CMP_EQ, CMP_NEQ, CMP_GTEQ, NONE),
        b'e' => by_length(NONE, NONE, ENTRY, NONE, NONE, NONE, NONE),
        b'f' => by_length(NONE, NONE, NONE, NONE, NONE, FUNCTION, NONE),
        b'i' => by_length(INT, INT8, INT16, NONE, NONE, NONE, NONE),
        b'j' => by_length(NONE, JUMP, NONE, NONE, NONE, NONE, JUMP_COND),
        b'l' => by_length(NONE, NONE, LEAVE, NONE, LOAD_I8, LOAD_UI8, LOAD_UI16),
        b'n' => by_length(NOP, NONE, NONE, NONE, NONE, NONE, NONE),
        b'p' => by_length(PHI, NONE, NONE, NONE, NONE, NONE, NONE),
        b'r' => by_length(ROL, NONE, NONE, RETURN, NONE, REGISTER, NONE),
        b's' => by_length(SSA, NONE, NONE, NONE, NONE, NONE, NONE),
        b'u' => by_length(NONE, UINT, UINT8, UINT16, NONE, NONE, NONE),
        b'v' => by_length(NONE, VOID, NONE, NONE, NONE, NONE, NONE),
        _ => by_length(NONE, NONE, NONE, NONE, NONE, NONE, NONE),
    }
}

// The first word with this first byte and this length.
pub fn first_candidate(first: u8, count: usize) -> u8
    requires { (shortest ≤ count) × (count ≤ longest) }
    ensures { result ≡ first_of (candidates count first) }
{
    ((first_candidates(first) >> (8 * (count - SHORTEST))) % 256) as u8
}

// The next word with the first byte and the length of word number w.
pub fn next_candidate(w: u8) -> u8
    requires { w < word_count }
    ensures { result ≡ next_alike w }
{
    match w {
        SSA => SHL,
        INT16 => INT32,
        INT32 => INT64,
        UINT16 => UINT32,
        UINT32 => UINT64,
        LOAD_UI8 => LOAD_I16,
        LOAD_I16 => LOAD_I32,
        LOAD_UI16 => LOAD_UI32,
        LOAD_I32 => LOAD_I64,
        LOAD_UI32 => LOAD_UI64,
        ARI_ADD => ARI_SUB,
        ARI_SUB => ARI_MUL,
        ARI_MUL => ARI_DIV,
        ARI_DIV => ARI_REM,
        ARI_REM => ARI_NEG,
        BIT_AND => BIT_XOR,
        BIT_XOR => BIT_NEG,
        SHL => SHR,
        ROL => ROR,
        CMP_EQ => CMP_GT,
        CMP_GT => CMP_LT,
        CMP_GTEQ => CMP_LTEQ,
        CONV => COPY,
        _ => NONE,
    }
}
