// Instructions: target, word, sources, operand. A name that is no register's is 7; a row is put down at its semicolon.
ghost use Rattle.std.specs.Prelude.{◌≡◌, List, ℕ, ◌+◌, ◌*◌, ◌<◌, ◌≤◌, length, MatchOption};
ghost use Rattle.language.specs.Instructions.{Operand};
ghost use Rattle.std.proofs.lemmas.List.Edits.{sets};
ghost use Rattle.language.specs.Programs.{max_rows, max_name};
ghost use Rattle.language.specs.Reading.{begin_instruction, set_target, set_instruction, add_source, add_entry, add_mention, set_number, end_instruction};
ghost use Rattle.language.specs.Table.{function_length, row_length, rows_offset};
ghost use Rattle.instructions.specs.Shapes.{operand_number};
ghost use Rattle.drafts.specs.State.{NumberOf, Bounded, Acts, ActsOn, ActsAlone, Stands, CellsIndexed, KeptAs, NameKept, lent_of, pending_length, Always, NoParts, WholeRow, row_at, operand_at, with_name_at};
ghost use Rattle.drafts.specs.Mentions.{max_names};

use crate::state::{Draft, Fault, MAX_NAMES, MENTION_LENGTH, MENTION_PLACE, Parts, low};
use answers::Reason;
use instructions::{bits_of, load_type, number_in_range, operands, shape_of};
use name_index::find;
use numbers::put_four;
use table::{
    MAX_ENTRIES, MAX_ROWS, REGISTER_LENGTH, REGISTER_NAMES_OFFSET, find_name, put_entry, put_name,
    put_row,
};
use text_place::TextPlace;

impl Draft {
    // A register's number by its name.
    fn register_number(self, f: &[u8], last: &[u16], before: &[u16], name: &[u8]) -> Option<usize>
        requires bounded { (Bounded self) × (length f.now ≡ function_length) }
        requires cells_indexed { CellsIndexed self f.now last.now before.now }
        ensures { MatchOption result (NumberOf self f.now name.now self.head.registers) (λ r. NumberOf self f.now name.now r × (r < self.head.registers)) }
    {
        find(
            f,
            REGISTER_NAMES_OFFSET,
            REGISTER_LENGTH,
            self.head.registers,
            name,
            last,
            before,
        )
    }

    // An instruction that has no target: 5 at its word.
    pub fn begin_instruction(mut self, op: u8, p: TextPlace) -> Result<Draft, Fault>
        requires { Bounded self }
        ensures { ActsAlone NoParts (begin_instruction op p.byte) self result }
    {
        if MAX_ROWS <= self.blocks.rows {
            return Err(Fault {
                reason: Reason::SizeExceeded,
                at: p,
            });
        }
        self.parts = Parts::new(u64::from(op), 0);
        Ok(self)
    }

    // A target: 5 for one instruction too many, 7 for a name that is no register's.
    pub fn set_target(
        mut self,
        f: &[u8],
        last: &[u16],
        before: &[u16],
        name: &[u8],
        p: TextPlace,
    ) -> Result<Draft, Fault>
        requires bounded { Bounded self }
        requires f_len { length f.now ≡ function_length }
        requires cells_indexed { CellsIndexed self f.now last.now before.now }
        ensures { ActsOn NoParts (set_target name.now p.byte) self f.now last.now before.now result f.now }
    {
        if MAX_ROWS <= self.blocks.rows {
            return Err(Fault {
                reason: Reason::SizeExceeded,
                at: p,
            });
        }
        let Some(r) = self.register_number(f, last, before, name) else {
            return Err(Fault {
                reason: Reason::NotDeclared,
                at: p,
            });
        };
        self.parts = Parts::new(0, r);
        Ok(self)
    }

    // The word after a target.
    pub fn set_instruction(mut self, op: u8) -> Draft
        requires { Bounded self }
        ensures { ActsAlone NoParts (set_instruction op) self (Ok result) }
    {
        let target = self.parts.target;
        self.parts = Parts::new(u64::from(op), target);
        self
    }

    // A source: 7 for a name that is no register's.
    pub fn add_source(
        mut self,
        f: &[u8],
        last: &[u16],
        before: &[u16],
        name: &[u8],
        p: TextPlace,
    ) -> Result<Draft, Fault>
        requires bounded { Bounded self }
        requires f_len { length f.now ≡ function_length }
        requires cells_indexed { CellsIndexed self f.now last.now before.now }
        ensures { ActsOn Always (add_source name.now p.byte) self f.now last.now before.now result f.now }
    {
        let Some(r) = self.register_number(f, last, before, name) else {
            return Err(Fault {
                reason: Reason::NotDeclared,
                at: p,
            });
        };
        if self.parts.sources == 0 {
            self.parts.left = r;
            self.parts.sources = 1;
            return Ok(self);
        }
        if self.parts.sources == 1 {
            self.parts.right = r;
            self.parts.sources = 2;
        }
        Ok(self)
    }

    // A phi entry: 5 for one too many, 7 for a name that is no register's.
    pub fn add_entry(
        mut self,
        f: &mut [u8],
        last: &[u16],
        before: &[u16],
        name: &[u8],
        p: TextPlace,
    ) -> Result<Draft, Fault>
        requires bounded { Bounded self }
        requires f_len { length f.old ≡ function_length }
        requires cells_indexed { CellsIndexed self f.old last.now before.now }
        ensures { ActsOn Always (add_entry name.now p.byte) self f.old last.now before.now result f.new }
    {
        if MAX_ENTRIES <= self.blocks.entries {
            return Err(Fault {
                reason: Reason::SizeExceeded,
                at: p,
            });
        }
        let Some(r) = self.register_number(f, last, before, name) else {
            return Err(Fault {
                reason: Reason::NotDeclared,
                at: p,
            });
        };
        let n = self.blocks.entries;
        put_entry(f, 0, n, r);
        let all = n + 1;
        let own = self.parts.entries + 1;
        self.blocks.entries = all;
        self.parts.entries = own;
        Ok(self)
    }

    // The number of a name among those mentioned. A new one is kept with its place, if it is one of the first 65.
    // Kept, rule: of a new name the count is the number that it is kept under (`NameKept`, by `name_number` of specs/Mentions), and not a sign that it is missing.
    fn name_number(self, pend: &mut [u8], name: &[u8], p: TextPlace) -> usize
        requires names_le_max_names { self.blocks.names ≤ max_names }
        requires pend_len { (length pend.old ≡ pending_length) × (length name.now ≤ max_name) × (p.byte < 4294967296) }
        ensures name_kept { NameKept self.blocks.names name.now p.byte pend.old pend.new result }
        ensures upper_bound { result ≤ self.blocks.names }
    {
        let n = self.blocks.names;
        if let Some(k) = find_name(pend, 0, MENTION_LENGTH, n, name) {
            return k;
        }
        if n < MAX_NAMES {
            put_name(pend, MENTION_LENGTH * n, name);
            put_four(pend, MENTION_LENGTH * n + MENTION_PLACE, p.byte);
        }
        n
    }

    // The draft with one name more, if the one of this number is new and there is room for it.
    fn with_name(mut self, k: usize) -> Self
        ensures { result ≡ with_name_at self k }
    {
        let n = self.blocks.names;
        if k < n {
            return self;
        }
        if n < MAX_NAMES {
            let more = n + 1;
            self.blocks.names = more;
        }
        self
    }

    // A block that a jump mentions: the number of its name stands for it until the function ends.
    pub fn add_mention(self, pend: &mut [u8], name: &[u8], p: TextPlace) -> Draft
        requires bounded { Bounded self }
        requires pend_len { (length pend.old ≡ pending_length) × (length name.now ≤ max_name) × (p.byte < 4294967296) }
        ensures { (f n l b : List ℕ) → Acts Always (add_mention name.now p.byte) self (lent_of f n pend.old l b) (Ok result) (lent_of f n pend.new l b) }
    {
        let k = self.name_number(pend, name, p);
        let mut d = self.with_name(k);
        if d.parts.mentions == 0 {
            d.parts.one = k;
            d.parts.mentions = 1;
            return d;
        }
        if d.parts.mentions == 1 {
            d.parts.other = k;
            d.parts.mentions = 2;
        }
        d
    }

    // A load's number: 4 outside the instruction's range, as each magnitude of 2^64 or more is.
    pub fn set_number(
        mut self,
        negative: bool,
        magnitude: Option<u64>,
        p: TextPlace,
    ) -> Result<Draft, Fault>
        requires { Bounded self }
        ensures { (n : ℕ) → KeptAs n magnitude → ActsAlone Always (set_number negative n p.byte) self result }
    {
        let Some(value) = magnitude else {
            return Err(Fault {
                reason: Reason::NumberOutOfRange,
                at: p,
            });
        };
        let kind = load_type(low(self.parts.op));
        if !number_in_range(kind, negative, value) {
            return Err(Fault {
                reason: Reason::NumberOutOfRange,
                at: p,
            });
        }
        let bits = bits_of(kind, negative, value);
        self.parts.number = bits;
        Ok(self)
    }

    // The semicolon: the row is put down.
    pub fn end_instruction(mut self, f: &mut [u8]) -> Draft
        requires bounded { Bounded self }
        requires rows_lt_max_rows { (self.blocks.rows < max_rows) × (length f.old ≡ function_length) }
        ensures { (l b : List ℕ) → ActsOn WholeRow end_instruction self f.old l b (Ok result) f.new }
    {
        let r = self.blocks.rows;
        self.put(f, r);
        let rows = r + 1;
        self.blocks.rows = rows;
        self.parts = Parts::new(0, 0);
        self
    }

    // The operand as one number: a load's, a phi's first entry and count, the numbers of a jump's names.
    fn operand(self, kind: u8) -> u64
        requires { Bounded self }
        ensures { (o : Operand) → kind ≡ operand_number o → result ≡ operand_at o self }
    {
        match kind {
            operands::NONE => 0,
            operands::NUMBER => self.parts.number,
            operands::REGISTERS => {
                (self.blocks.entries - self.parts.entries + 65536 * self.parts.entries) as u64
            }
            operands::BLOCK => self.parts.one as u64,
            _ => (self.parts.one + 256 * self.parts.other) as u64,
        }
    }

    // Row r, by the shape of its instruction.
    fn put(self, f: &mut [u8], r: usize)
        requires bounded { Bounded self }
        requires f_len { (length f.old ≡ function_length) × (r < max_rows) }
        ensures { f.new ≡ sets f.old (rows_offset + row_length * r) (row_at self) }
    {
        let op = low(self.parts.op);
        let shape = shape_of(op);
        let sources = shape.sources;
        let target = if shape.target { self.parts.target } else { 0 };
        let left = if 0 < sources { self.parts.left } else { 0 };
        let right = if 1 < sources { self.parts.right } else { 0 };
        put_row(
            f,
            0,
            r,
            op,
            target,
            left,
            right,
            self.operand(shape.operand),
        );
    }
}
