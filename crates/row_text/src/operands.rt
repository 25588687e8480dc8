// The operand in parentheses, by its kind.
ghost use Rattle.std.specs.Prelude.{[], ◌∷◌, map, ◌≡◌, ◌<◌};
ghost use Rattle.laws.specs.Lists.{from, gather};
ghost use Rattle.language.specs.Bytes.{comma};
ghost use Rattle.language.specs.Table.{row_count, register_count, row_op, phi_entry};
ghost use Rattle.language.specs.Tokens.{Token};
ghost use Rattle.language.specs.Writing.{register_token, registers_part};
ghost use Rattle.language.specs.Instructions.{Operand};
ghost use Rattle.instructions.specs.Shapes.{operand_number, shape_of};
ghost use Rattle.page.specs.Page.{page, puts};
ghost use Rattle.token_text.specs.Spaced.{spaced};
ghost use Rattle.row_text.specs.Ready.{Entries, TextReady, titled, operand_tokens};
ghost use Rattle.language.specs.Programs.{max_entries};

use instructions::{load_type, operands};
use page::put_part;
use table::{jump_first, jump_second, load_number, phi_count, phi_entry, phi_first, row_op};
use token_text::{put_block, put_number, put_register};

// A load's number.
fn put_load(
    t: &[u8],
    a: usize,
    registers: &[u16],
    blocks: &[u16],
    r: usize,
    out: &mut [u8],
    at: usize,
) -> usize
    requires { TextReady t.now a registers.now blocks.now × (r < row_count t.now a) × ((shape_of (row_op t.now a r)).operand ≡ operand_number Operand.number) }
    ensures { page out.new result ≡ puts (page out.old at) (spaced (operand_tokens t.now a r (operand_number Operand.number))) }
{
    let e = put_part(out, at, b"( ");
    let kind = load_type(row_op(t, a, r));
    let f = put_number(kind, load_number(t, a, r), out, e);
    put_part(out, f, b") ")
}

// A comma and phi entry k.
fn put_entry(
    t: &[u8],
    a: usize,
    registers: &[u16],
    blocks: &[u16],
    k: usize,
    out: &mut [u8],
    at: usize,
) -> usize
    requires { TextReady t.now a registers.now blocks.now × (k < max_entries) × (phi_entry t.now a k < register_count t.now a) }
    ensures { page out.new result ≡ puts (page out.old at) (spaced (Token.mark comma ∷ register_token (titled t.now a) (phi_entry t.now a k) ∷ [])) }
{
    let e = put_part(out, at, b", ");
    put_register(t, a, registers, phi_entry(t, a, k), out, e)
}

// Phi entries, each behind a comma.
fn put_later_entries(
    t: &[u8],
    a: usize,
    registers: &[u16],
    blocks: &[u16],
    first: usize,
    count: usize,
    out: &mut [u8],
    at: usize,
) -> usize
    requires { TextReady t.now a registers.now blocks.now × Entries t.now a first count }
    ensures { page out.new result ≡ puts (page out.old at) (spaced (gather (λ k. Token.mark comma ∷ register_token (titled t.now a) (phi_entry t.now a k) ∷ []) (from first count))) }
{
    let mut e = at;
    for i in 0..count {
        e = put_entry(t, a, registers, blocks, first + i, out, e);
    }
    e
}

// Phi entries, parted by commas.
fn put_entries(
    t: &[u8],
    a: usize,
    registers: &[u16],
    blocks: &[u16],
    first: usize,
    count: usize,
    out: &mut [u8],
    at: usize,
) -> usize
    requires { TextReady t.now a registers.now blocks.now × Entries t.now a first count }
    ensures { page out.new result ≡ puts (page out.old at) (spaced (registers_part (titled t.now a) (map (phi_entry t.now a) (from first count)))) }
{
    if count == 0 {
        return at;
    }
    let e = put_register(t, a, registers, phi_entry(t, a, first), out, at);
    put_later_entries(t, a, registers, blocks, first + 1, count - 1, out, e)
}

// The entries of a phi.
fn put_phi(
    t: &[u8],
    a: usize,
    registers: &[u16],
    blocks: &[u16],
    r: usize,
    out: &mut [u8],
    at: usize,
) -> usize
    requires { TextReady t.now a registers.now blocks.now × (r < row_count t.now a) × ((shape_of (row_op t.now a r)).operand ≡ operand_number Operand.registers) }
    ensures { page out.new result ≡ puts (page out.old at) (spaced (operand_tokens t.now a r (operand_number Operand.registers))) }
{
    let e = put_part(out, at, b"( ");
    let f = put_entries(
        t,
        a,
        registers,
        blocks,
        phi_first(t, a, r),
        phi_count(t, a, r),
        out,
        e,
    );
    put_part(out, f, b") ")
}

// The one block of a jump.
fn put_jump(
    t: &[u8],
    a: usize,
    registers: &[u16],
    blocks: &[u16],
    r: usize,
    out: &mut [u8],
    at: usize,
) -> usize
    requires { TextReady t.now a registers.now blocks.now × (r < row_count t.now a) × ((shape_of (row_op t.now a r)).operand ≡ operand_number Operand.block) }
    ensures { page out.new result ≡ puts (page out.old at) (spaced (operand_tokens t.now a r (operand_number Operand.block))) }
{
    let e = put_part(out, at, b"( ");
    let f = put_block(t, a, blocks, jump_first(t, a, r), out, e);
    put_part(out, f, b") ")
}

// The two of a jump.cond.
fn put_branch(
    t: &[u8],
    a: usize,
    registers: &[u16],
    blocks: &[u16],
    r: usize,
    out: &mut [u8],
    at: usize,
) -> usize
    requires { TextReady t.now a registers.now blocks.now × (r < row_count t.now a) × ((shape_of (row_op t.now a r)).operand ≡ operand_number Operand.blocks) }
    ensures { page out.new result ≡ puts (page out.old at) (spaced (operand_tokens t.now a r (operand_number Operand.blocks))) }
{
    let first = jump_first(t, a, r);
    let second = jump_second(t, a, r);
    let e = put_part(out, at, b"( ");
    let f = put_block(t, a, blocks, first, out, e);
    let g = put_part(out, f, b", ");
    let h = put_block(t, a, blocks, second, out, g);
    put_part(out, h, b") ")
}

// The operand of row r, of this kind.
pub fn put_operand(
    t: &[u8],
    a: usize,
    registers: &[u16],
    blocks: &[u16],
    r: usize,
    kind: u8,
    out: &mut [u8],
    at: usize,
) -> usize
    requires { TextReady t.now a registers.now blocks.now × (r < row_count t.now a) × (kind ≡ (shape_of (row_op t.now a r)).operand) }
    ensures { page out.new result ≡ puts (page out.old at) (spaced (operand_tokens t.now a r kind)) }
{
    match kind {
        operands::NONE => at,
        operands::NUMBER => put_load(t, a, registers, blocks, r, out, at),
        operands::REGISTERS => put_phi(t, a, registers, blocks, r, out, at),
        operands::BLOCK => put_jump(t, a, registers, blocks, r, out, at),
        _ => put_branch(t, a, registers, blocks, r, out, at),
    }
}
