// Declarations: functions, registers, blocks. 5 is tested where an item begins, 6 where its name is put down among the cells.
ghost use Rattle.std.specs.Prelude.{◌≡◌, List, ℕ, ◌<◌, ◌≤◌, length};
ghost use Rattle.language.specs.Programs.{max_functions, max_registers, max_blocks, max_name};
ghost use Rattle.language.specs.Reading.{mark_ssa, set_result, name_function, name_register, name_block, end_block};
ghost use Rattle.language.specs.Table.{function_length};
ghost use Rattle.name_index.specs.Hashes.{heads};
ghost use Rattle.drafts.specs.State.{Bounded, Acts, ActsOn, ActsAlone, CellsIndexed, lent_of, names_length, Always, Unnamed, NoBlock, if_room_at};

use crate::state::{Draft, Fault, low};
use answers::Reason;
use name_index::{add, find};
use numbers::put_two;
use table::{
    BLOCK_LENGTH, BLOCK_NAMES_OFFSET, BLOCKS_OFFSET, MAX_BLOCKS, MAX_FUNCTIONS, MAX_REGISTERS,
    NAME_LENGTH, NAME_OFFSET, REGISTER_LENGTH, REGISTER_NAMES_OFFSET, find_name, put_name,
    put_register,
};
use text_place::TextPlace;

impl Draft {
    // 5, unless there is room for one more.
    fn if_room(self, count: usize, limit: usize, p: TextPlace) -> Result<Draft, Fault>
        ensures { result ≡ if_room_at count limit p self }
    {
        if count < limit {
            return Ok(self);
        }
        Err(Fault {
            reason: Reason::SizeExceeded,
            at: p,
        })
    }

    // `function`: 5 for one too many.
    pub fn begin_function(self, p: TextPlace) -> Result<Draft, Fault>
        ensures { result ≡ if_room_at self.functions max_functions p self }
    {
        self.if_room(self.functions, MAX_FUNCTIONS, p)
    }

    pub fn mark_ssa(mut self) -> Draft
        requires { Bounded self }
        ensures { ActsAlone Always mark_ssa self (Ok result) }
    {
        self.head.ssa = 1;
        self
    }

    pub fn set_result(mut self, kind: u8) -> Draft
        requires { Bounded self }
        ensures { ActsAlone Always (set_result kind) self (Ok result) }
    {
        self.head.result = u64::from(kind);
        self
    }

    // The function's name: 6 if a function has it.
    pub fn name_function(
        self,
        f: &mut [u8],
        names: &mut [u8],
        name: &[u8],
        p: TextPlace,
    ) -> Result<Draft, Fault>
        requires bounded { Bounded self }
        requires functions_lt_max_functions { (self.functions < max_functions) × (length f.old ≡ function_length) × (length names.old ≡ names_length) × (length name.now ≤ max_name) }
        ensures { (m l b : List ℕ) → Acts Unnamed (name_function name.now p.byte) self (lent_of f.old names.old m l b) result (lent_of f.new names.new m l b) }
    {
        let n = self.functions;
        if find_name(names, 0, NAME_LENGTH, n, name).is_some() {
            return Err(Fault {
                reason: Reason::DeclaredTwice,
                at: p,
            });
        }
        put_name(names, NAME_LENGTH * n, name);
        put_name(f, NAME_OFFSET, name);
        Ok(self)
    }

    // A parameter's type, or `register`: 5 for one too many.
    pub fn begin_register(self, p: TextPlace) -> Result<Draft, Fault>
        ensures { result ≡ if_room_at self.head.registers max_registers p self }
    {
        self.if_room(self.head.registers, MAX_REGISTERS, p)
    }

    // A register's name: 6 if a register has it. `more` is 1 for a parameter and 0 for another.
    pub fn name_register(
        mut self,
        f: &mut [u8],
        last: &mut [u16],
        before: &mut [u16],
        more: usize,
        kind: u64,
        name: &[u8],
        p: TextPlace,
    ) -> Result<Draft, Fault>
        requires bounded { Bounded self }
        requires registers_lt_max_registers { (self.head.registers < max_registers) × (length f.old ≡ function_length) × (length last.old ≡ heads) × (length before.old ≡ max_registers) }
        requires more_bound { (more ≤ 1) × (kind < 256) × (length name.now ≤ max_name) }
        requires cells_indexed { CellsIndexed self f.old last.old before.old }
        ensures { (n m : List ℕ) → Acts Always (name_register more kind name.now p.byte) self (lent_of f.old n m last.old before.old) result (lent_of f.new n m last.new before.new) }
    {
        let n = self.head.registers;
        let params = self.head.params + more;
        if find(
            f,
            REGISTER_NAMES_OFFSET,
            REGISTER_LENGTH,
            n,
            name,
            last,
            before,
        )
        .is_some()
        {
            return Err(Fault {
                reason: Reason::DeclaredTwice,
                at: p,
            });
        }
        add(n, name, last, before);
        put_register(f, 0, n, low(kind), name);
        let registers = n + 1;
        self.head.registers = registers;
        self.head.params = params;
        Ok(self)
    }

    // `block`: 5 for one too many.
    pub fn begin_block(self, p: TextPlace) -> Result<Draft, Fault>
        ensures { result ≡ if_room_at self.blocks.closed max_blocks p self }
    {
        self.if_room(self.blocks.closed, MAX_BLOCKS, p)
    }

    // A block's name, of no bytes for entry: 6 if a block has it.
    pub fn name_block(self, f: &mut [u8], name: &[u8], p: TextPlace) -> Result<Draft, Fault>
        requires bounded { Bounded self }
        requires closed_lt_max_blocks { (self.blocks.closed < max_blocks) × (length f.old ≡ function_length) × (length name.now ≤ max_name) }
        ensures { (l b : List ℕ) → ActsOn NoBlock (name_block name.now p.byte) self f.old l b result f.new }
    {
        let n = self.blocks.closed;
        if find_name(f, BLOCK_NAMES_OFFSET, BLOCK_LENGTH, n, name).is_some() {
            return Err(Fault {
                reason: Reason::DeclaredTwice,
                at: p,
            });
        }
        put_name(f, BLOCK_NAMES_OFFSET + BLOCK_LENGTH * n, name);
        Ok(self)
    }

    // A block's closing brace: its first row and its count of rows are put down.
    pub fn end_block(mut self, f: &mut [u8]) -> Draft
        requires bounded { Bounded self }
        requires closed_lt_max_blocks { (self.blocks.closed < max_blocks) × (length f.old ≡ function_length) }
        ensures { (l b : List ℕ) → ActsOn Always end_block self f.old l b (Ok result) f.new }
    {
        let n = self.blocks.closed;
        let rows = self.blocks.rows;
        let k = BLOCKS_OFFSET + BLOCK_LENGTH * n;
        put_two(f, k, self.blocks.first);
        put_two(f, k + 2, rows - self.blocks.first);
        let closed = n + 1;
        self.blocks.closed = closed;
        self.blocks.first = rows;
        self
    }
}
