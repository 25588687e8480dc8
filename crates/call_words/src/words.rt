// The words of a call: which function a word means, and which budget.
ghost use Rattle.std.specs.Prelude.{◌≡◌};
ghost use Rattle.language.specs.Checking.{Verdict as Verdictᴸ};
ghost use Rattle.language.specs.Table.{decode};
ghost use Rattle.language.specs.Answers.{check_answer};
ghost use Rattle.call_words.specs.Words.{function_named, function_by_word, number_or, budget_from, budget_of};

use decimal::{Decimal, read_decimal};
use table::{FUNCTION_LENGTH, FUNCTION_NAMES_OFFSET, find_name, function_count};

// 2^64 - 1: no table has so many functions, and no run here takes so many steps.
// Kept, plainer: `ial::run` and `ial::translate` refuse the number of no function, so that an Option would be turned into such a number again.
const MOST: u64 = 18446744073709551615;

// The function whose name has these contents, or how many there are.
fn function_named(t: &[u8], word: &[u8]) -> u64
    requires { check_answer t.now ≡ Verdictᴸ.accepted }
    ensures { result ≡ function_named (decode t.now) word.now }
{
    let n = function_count(t);
    find_name(t, FUNCTION_NAMES_OFFSET, FUNCTION_LENGTH, n, word).unwrap_or(n) as u64
}

// What a word's number is, or the number of what it names.
fn number_or(number: Option<Decimal>, named: u64) -> u64
    ensures { result ≡ number_or number named }
{
    match number {
        Some(
            Decimal {
                negative: false,
                magnitude,
            },
        ) => magnitude.unwrap_or(MOST),
        _ => named,
    }
}

// The number of the function that a word means.
pub fn function_number(t: &[u8], word: &[u8]) -> u64
    requires { check_answer t.now ≡ Verdictᴸ.accepted }
    ensures { result ≡ function_by_word (decode t.now) word.now }
{
    number_or(read_decimal(word), function_named(t, word))
}

// A budget of any size is one, and -0 is 0.
fn budget_from(number: Option<Decimal>) -> Option<u64>
    ensures { result ≡ budget_from number }
{
    let Decimal {
        negative,
        magnitude,
    } = number?;
    if !negative {
        return Some(magnitude.unwrap_or(MOST));
    }
    if magnitude? == 0 {
        return Some(0);
    }
    None
}

// The steps that a run may take by a word, if it says a budget.
pub fn read_budget(word: &[u8]) -> Option<u64>
    ensures { result ≡ budget_of word.now }
{
    budget_from(read_decimal(word))
}
