// A function's closing brace: 8 without an entry block, 7 at the first mention of a block that is not there, else every jump gets its blocks'
// numbers, every block the list of its predecessors, and the function is closed.
ghost use Rattle.std.specs.Prelude.{◌≡◌, List, ℕ, ◌<◌, ◌≤◌, length, unwrap_or, IfSome};
ghost use Rattle.std.proofs.lemmas.List.Edits.{sets};
ghost use Rattle.language.specs.Programs.{max_rows, max_blocks, max_functions};
ghost use Rattle.language.specs.Table.{function_length};
ghost use Rattle.drafts.specs.Cells.{head_bytes};
ghost use Rattle.drafts.specs.Ending.{Resolved, patch_row, patch_rows};
ghost use Rattle.drafts.specs.Mentions.{max_names};
ghost use Rattle.drafts.specs.State.{Bounded, EndsFunction, lent_of, pending_length};

use crate::state::{Draft, Fault, MENTION_LENGTH, MENTION_PLACE, low};
use answers::Reason;
use instructions::ops;
use numbers::{four_at, put_two};
use predecessors::put_predecessors;
use table::{
    BLOCK_COUNT_OFFSET, BLOCK_LENGTH, BLOCK_NAMES_OFFSET, ENTRY_OFFSET, OPERANDS_OFFSET,
    PARAMS_OFFSET, REGISTER_COUNT_OFFSET, RESULT_OFFSET, ROW_LENGTH, find_name, name_at, row_op,
};
use text_place::TextPlace;

// A block's number for each number that a cell can hold.
const FOUND: usize = 256;

// Each name's block in `found`, or the first name that no block answers, with those before it there.
fn resolve(f: &[u8], blocks: usize, pend: &[u8], names: usize, found: &mut [u8]) -> Option<usize>
    requires f_len { (length f.now ≡ function_length) × (blocks ≤ max_blocks) × (names ≤ max_names) }
    requires pend_len { (length pend.now ≡ pending_length) × (length found.old ≡ 256) }
    ensures resolved { Resolved f.now blocks pend.now names (unwrap_or result names) found.new }
    ensures among { IfSome result (λ k. k < names) }
{
    for k in 0..names {
        let name = name_at(pend, MENTION_LENGTH * k);
        let Some(b) = find_name(f, BLOCK_NAMES_OFFSET, BLOCK_LENGTH, blocks, name) else {
            return Some(k);
        };
        found[k] = b as u8;
    }
    None
}

// A jump or branch gets its blocks' numbers in place of those of the names.
fn patch_row(f: &mut [u8], r: usize, found: &[u8])
    requires { (length f.old ≡ function_length) × (r < max_rows) × (length found.now ≡ 256) }
    ensures { f.new ≡ patch_row f.old found.now r }
{
    let op = row_op(f, 0, r);
    let k = OPERANDS_OFFSET + ROW_LENGTH * r;
    if op == ops::JUMP {
        f[k] = found[usize::from(f[k])];
        return;
    }
    if op == ops::JUMP_COND {
        f[k] = found[usize::from(f[k])];
        f[k + 1] = found[usize::from(f[k + 1])];
    }
}

// All rows.
fn patch(f: &mut [u8], rows: usize, found: &[u8])
    requires { (length f.old ≡ function_length) × (rows ≤ max_rows) × (length found.now ≡ 256) }
    ensures { f.new ≡ patch_rows f.old found.now rows }
{
    for r in 0..rows {
        patch_row(f, r, found);
    }
}

impl Draft {
    // The first eight cells of the function.
    fn put_head(self, f: &mut [u8], entry: usize)
        requires bounded { Bounded self }
        requires f_len { (length f.old ≡ function_length) × (entry < 256) }
        ensures { f.new ≡ sets f.old 0 (head_bytes self.head.ssa self.head.result self.head.params self.head.registers self.blocks.closed entry) }
    {
        f[0] = low(self.head.ssa);
        f[RESULT_OFFSET] = low(self.head.result);
        put_two(f, PARAMS_OFFSET, self.head.params);
        put_two(f, REGISTER_COUNT_OFFSET, self.head.registers);
        f[BLOCK_COUNT_OFFSET] = self.blocks.closed as u8;
        f[ENTRY_OFFSET] = entry as u8;
    }

    // The closing brace at p: the draft between functions, one more being closed. A function is in hand, its blocks closed.
    pub fn end_function(self, f: &mut [u8], pend: &[u8], p: TextPlace) -> Result<Draft, Fault>
        requires bounded { Bounded self }
        requires functions_lt_max_functions { (self.functions < max_functions) × (length f.old ≡ function_length) × (length pend.now ≡ pending_length) }
        ensures { (n l b : List ℕ) → EndsFunction p.byte self (lent_of f.old n pend.now l b) result (lent_of f.new n pend.now l b) }
    {
        let mut found = [0u8; FOUND];
        let n = self.blocks.closed;
        let none = &pend[0..0];
        let Some(entry) = find_name(f, BLOCK_NAMES_OFFSET, BLOCK_LENGTH, n, none) else {
            return Err(Fault {
                reason: Reason::NoEntry,
                at: p,
            });
        };
        let names = self.blocks.names;
        if let Some(k) = resolve(f, n, pend, names, &mut found) {
            let byte = four_at(pend, MENTION_LENGTH * k + MENTION_PLACE);
            let at = TextPlace { byte };
            return Err(Fault {
                reason: Reason::NotDeclared,
                at,
            });
        }
        patch(f, self.blocks.rows, &found);
        self.put_head(f, entry);
        put_predecessors(f, 0);
        Ok(Draft::fresh(self.functions + 1))
    }
}
