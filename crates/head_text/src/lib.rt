// Heads of functions and declarations of registers as text. `made` holds the numbers of the registers' made names.
#![tactic(auto)]

ghost use Rattle.std.specs.Prelude.{map, ◌≡◌, ◌-◌, ◌<◌, ◌≤◌, length, take};
ghost use Rattle.laws.specs.Lists.{gather, from};
ghost use Rattle.language.specs.MadeNames.{named_function};
ghost use Rattle.language.specs.Table.{function_params, register_count, decode_function};
ghost use Rattle.language.specs.Writing.{line_bytes, parted, parameter_part, ssa_part, head_line};
ghost use Rattle.naming.specs.Numbered.{RegistersNumbered};
ghost use Rattle.page.specs.Page.{page, puts};
ghost use Rattle.token_text.specs.Spaced.{spaced};
ghost use Rattle.head_text.specs.Heads.{typed_bytes, parameter_bytes, register_bytes, Declared};
ghost use Rattle.language.specs.Programs.{max_registers};

use instructions::words;
use page::put_part;
use table::{
    function_name, function_params, function_result, function_ssa, register_count, register_type,
};
use token_text::{put_name, put_register, put_result, put_type, put_word};

// The mark of an ssa function.
const SSA: u8 = 1;

// A register's type and name.
fn put_typed(t: &[u8], a: usize, made: &[u16], r: usize, out: &mut [u8], at: usize) -> usize
    requires { Declared t.now a × RegistersNumbered (decode_function t.now a) made.now × (max_registers ≤ length made.now) × (r < register_count t.now a) }
    ensures { page out.new result ≡ puts (page out.old at) (typed_bytes (named_function (decode_function t.now a)) r) }
{
    let p = put_type(register_type(t, a, r), out, at);
    put_register(t, a, made, r, out, p)
}

// A parameter, parted by a comma from the one before it.
fn put_parameter(t: &[u8], a: usize, made: &[u16], r: usize, out: &mut [u8], at: usize) -> usize
    requires { Declared t.now a × RegistersNumbered (decode_function t.now a) made.now × (max_registers ≤ length made.now) × (r < register_count t.now a) }
    ensures { page out.new result ≡ puts (page out.old at) (parameter_bytes (named_function (decode_function t.now a)) r) }
{
    if r == 0 {
        return put_typed(t, a, made, r, out, at);
    }
    let p = put_part(out, at, b", ");
    put_typed(t, a, made, r, out, p)
}

// All parameters.
fn put_parameters(t: &[u8], a: usize, made: &[u16], out: &mut [u8], at: usize) -> usize
    requires { Declared t.now a × RegistersNumbered (decode_function t.now a) made.now × (max_registers ≤ length made.now) }
    ensures { let g = named_function (decode_function t.now a) in
        page out.new result ≡ puts (page out.old at) (spaced (parted (map parameter_part (take (function_params t.now a) g.registers)))) }
{
    let n = function_params(t, a);
    let mut p = at;
    for r in 0..n {
        p = put_parameter(t, a, made, r, out, p);
    }
    p
}

// `ssa`, if the function is so marked.
fn put_mark(t: &[u8], a: usize, out: &mut [u8], at: usize) -> usize
    requires { Declared t.now a }
    ensures { page out.new result ≡ puts (page out.old at) (spaced (ssa_part (decode_function t.now a))) }
{
    if function_ssa(t, a) == SSA {
        return put_word(words::SSA, out, at);
    }
    at
}

// "a head with its `{`"
pub fn put_head(t: &[u8], a: usize, made: &[u16], out: &mut [u8], at: usize) -> usize
    requires { Declared t.now a × RegistersNumbered (decode_function t.now a) made.now × (max_registers ≤ length made.now) }
    ensures { page out.new result ≡ puts (page out.old at) (line_bytes (head_line (named_function (decode_function t.now a)))) }
{
    let word = put_word(words::FUNCTION, out, at);
    let mark = put_mark(t, a, out, word);
    let result = put_result(function_result(t, a), out, mark);
    let name = put_name(function_name(t, a), out, result);
    let open = put_part(out, name, b"( ");
    let last = put_parameters(t, a, made, out, open);
    put_part(out, last, b") {\n")
}

// A register's declaration.
fn put_declaration(t: &[u8], a: usize, made: &[u16], r: usize, out: &mut [u8], at: usize) -> usize
    requires { Declared t.now a × RegistersNumbered (decode_function t.now a) made.now × (max_registers ≤ length made.now) × (r < register_count t.now a) }
    ensures { page out.new result ≡ puts (page out.old at) (register_bytes (named_function (decode_function t.now a)) r) }
{
    let word = put_word(words::REGISTER, out, at);
    let name = put_typed(t, a, made, r, out, word);
    put_part(out, name, b";\n")
}

// The declarations of all registers past the parameters.
pub fn put_registers(t: &[u8], a: usize, made: &[u16], out: &mut [u8], at: usize) -> usize
    requires { Declared t.now a × RegistersNumbered (decode_function t.now a) made.now × (max_registers ≤ length made.now) }
    ensures { let g = named_function (decode_function t.now a) in
        let params = function_params t.now a in
        page out.new result ≡ puts (page out.old at) (gather (register_bytes g) (from params (register_count t.now a - params))) }
{
    let n = register_count(t, a);
    let first = function_params(t, a);
    let mut p = at;
    for r in first..n {
        p = put_declaration(t, a, made, r, out, p);
    }
    p
}
