// Arguments by meaning: each word is kept as the number that it says, and becomes what its parameter's register holds once the function is known.
ghost use Rattle.std.specs.Prelude.{◌≡◌, ◌≤◌, ◌<◌, length, set, take, is_some, None, OnOk, IfErr};
ghost use Rattle.language.specs.Table.{register_count, decode_function, InTable};
ghost use Rattle.decimal.specs.Numbers.{number_of};
ghost use Rattle.call_words.specs.Arguments.{given_of, first_outside, arguments_of};
ghost use Rattle.language.specs.Programs.{max_registers};

use decimal::{Decimal, bits_from, read_decimal};
use table::{MAX_REGISTERS, register_type};

// Keeps what argument word i says, and says whether it is a number. Those past the first 256 are not kept: no function has more parameters.
pub fn keep_argument(word: &[u8], i: usize, kept: &mut [Option<Decimal>]) -> bool
    requires { length kept.old ≡ max_registers }
    ensures value { result ≡ is_some (number_of word.now) }
    ensures kept_after { kept.new ≡ set kept.old i (number_of word.now) }
{
    let number = read_decimal(word);
    if i < MAX_REGISTERS {
        kept[i] = number;
    }
    number.is_some()
}

// Puts what the registers hold of n arguments first in `out`; the first argument outside its parameter's range is the error.
pub fn fill_arguments(
    t: &[u8],
    a: usize,
    n: usize,
    kept: &[Option<Decimal>],
    out: &mut [u64],
) -> Result<(), usize>
    requires in_table { (InTable t.now a) × (n ≤ register_count t.now a) × (n ≤ max_registers) }
    requires kept_len { (length kept.now ≡ max_registers) × (length out.old ≡ max_registers) }
    ensures outside { IfErr result (λ i. (i ≡ first_outside (decode_function t.now a) (given_of n kept.now)) × (i < n)) }
    ensures inside { OnOk result (n ≡ first_outside (decode_function t.now a) (given_of n kept.now)) }
    ensures out_after { OnOk result (take n out.new ≡ arguments_of (decode_function t.now a) (given_of n kept.now)) }
{
    for i in 0..n {
        let Some(x) = bits_from(register_type(t, a, i), kept[i]) else {
            return Err(i);
        };
        out[i] = x;
    }
    Ok(())
}
