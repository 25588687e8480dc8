// 10 to 16 of a row whose numbers are in their ranges. What a test would have to scan the function for is
// prepared (`flow`): the first row that assigns a register, a block's leading phi. A block keeps its predecessors itself.
ghost use Rattle.std.specs.Prelude.{◌≡◌, false, not, map, [], ◌∷◌, ℕ, ◌+◌, ◌<◌, ◌≤◌, T, eqb, length};
ghost use Rattle.std.specs.Bool.{beq};
ghost use Rattle.laws.specs.Lists.{all, from};
ghost use Rattle.language.specs.Instructions.{Form, void};
ghost use Rattle.language.specs.Table.{function_result, register_type, row_op, row_left, phi_first, phi_count, phi_entry, decode_row, decode_function};
ghost use Rattle.language.specs.Table.{InTable};
ghost use Rattle.language.specs.Checking.{in_range, spot_at};
ghost use Rattle.flow.specs.Layout.{flow_length};
ghost use Rattle.rules.specs.Tests.{lowest, later_tests, form_fault};
ghost use Rattle.rules.specs.Faults.{fault_number};
ghost use Rattle.rules.specs.Cells.{RowStands, Judged, spot, retaken as retaken_by, unset as unset_by, binary_typed};
ghost use Rattle.instructions.specs.Shapes.{is_terminator_op};
ghost use Rattle.language.specs.Programs.{max_rows, max_entries, max_blocks, max_registers};

use crate::entries::entries_pass;
use crate::ranges::form_of;
use answers::Reason;
use flow::{assignment, phis};
use instructions::{forms, is_terminator, load_type, ops, types};
use table::{
    block_rows, function_entry, function_params, function_result, function_ssa, phi_count,
    phi_entry, phi_first, predecessor_count, register_type, row_left, row_op, row_right,
    row_target,
};

// 12 of a row k that assigns register u.
fn retaken(t: &[u8], a: usize, m: &[u16], u: usize, k: usize) -> bool
    requires { (InTable t.now a) × (length m.now ≡ flow_length) × (u < max_registers) × (k < max_rows) }
    ensures { result ≡ retaken_by t.now a m.now u k }
{
    if function_ssa(t, a) != 1 {
        return false;
    }
    (u < function_params(t, a)) | (assignment(m, u) != k + 1)
}

// 16 of a row that uses register u.
fn unset(t: &[u8], a: usize, m: &[u16], u: usize) -> bool
    requires { (InTable t.now a) × (length m.now ≡ flow_length) × (u < max_registers) }
    ensures { result ≡ unset_by t.now a m.now u }
{
    if function_ssa(t, a) != 1 {
        return false;
    }
    (function_params(t, a) <= u) & (assignment(m, u) == 0)
}

// Which of 11 to 16 a row breaks.
#[derive(Clone, Copy)]
struct Broken {
    types: bool,
    target: bool,
    mark: bool,
    place: bool,
    count: bool,
    sources: bool,
}

// None of them.
const UNBROKEN: Broken = Broken {
    types: false,
    target: false,
    mark: false,
    place: false,
    count: false,
    sources: false,
};

impl Broken {
    // The lowest of them. A row that is right is tested for all, so none is spared.
    fn lowest(self) -> Option<Reason>
        ensures { fault_number result ≡ lowest 11 (self.types ∷ self.target ∷ self.mark ∷ self.place ∷ self.count ∷ self.sources ∷ []) }
    {
        if self.types {
            return Some(Reason::TypesWrong);
        }
        if self.target {
            return Some(Reason::AssignedTwice);
        }
        if self.mark {
            return Some(Reason::MarkMismatched);
        }
        if self.place {
            return Some(Reason::PhiMisplaced);
        }
        if self.count {
            return Some(Reason::PhiMiscounted);
        }
        if self.sources {
            return Some(Reason::NeverAssigned);
        }
        None
    }
}

// The types of a row with two sources are as "The 36 instructions" say.
fn binary_typed(op: u8, target: u8, left: u8, right: u8) -> bool
    ensures { result ≡ binary_typed op target left right }
{
    if op < ops::SHL {
        return (target == left) & (left == right);
    }
    if op < ops::CMP_EQ {
        return (target == left) & (right == types::UINT);
    }
    (left == right) & (target == types::UINT)
}

// 10: a terminator anywhere but at the end, or none there.
fn misended(op: u8, last: bool) -> bool
    ensures { result ≡ not (beq (is_terminator_op op) last) }
{
    is_terminator(op) != last
}

// The lowest of 11 to 16 that a row of each form breaks.

fn load_fault(t: &[u8], a: usize, m: &[u16], k: usize) -> Option<Reason>
    requires { (InTable t.now a) × (length m.now ≡ flow_length) × (k < max_rows) }
    ensures { (b j : ℕ) → Judged Form.load t.now a m.now b j k (fault_number result) }
{
    let target = row_target(t, a, k);
    let wrong = register_type(t, a, target) != load_type(row_op(t, a, k));
    let broken = Broken {
        types: wrong,
        target: retaken(t, a, m, target, k),
        ..UNBROKEN
    };
    broken.lowest()
}

fn unary_fault(t: &[u8], a: usize, m: &[u16], k: usize) -> Option<Reason>
    requires { (InTable t.now a) × (length m.now ≡ flow_length) × (k < max_rows) }
    ensures { (b j : ℕ) → Judged Form.unary t.now a m.now b j k (fault_number result) }
{
    let op = row_op(t, a, k);
    let target = row_target(t, a, k);
    let source = row_left(t, a, k);
    let wrong = (op != ops::CONV) & (register_type(t, a, target) != register_type(t, a, source));
    let copied = (function_ssa(t, a) == 1) & (op == ops::COPY);
    let broken = Broken {
        types: wrong,
        target: retaken(t, a, m, target, k),
        mark: copied,
        sources: unset(t, a, m, source),
        ..UNBROKEN
    };
    broken.lowest()
}

fn binary_fault(t: &[u8], a: usize, m: &[u16], k: usize) -> Option<Reason>
    requires { (InTable t.now a) × (length m.now ≡ flow_length) × (k < max_rows) }
    ensures { (b j : ℕ) → Judged Form.binary t.now a m.now b j k (fault_number result) }
{
    let target = row_target(t, a, k);
    let left = row_left(t, a, k);
    let right = row_right(t, a, k);
    let right_type = register_type(t, a, right);
    let fits = binary_typed(
        row_op(t, a, k),
        register_type(t, a, target),
        register_type(t, a, left),
        right_type,
    );
    let never = unset(t, a, m, left) | unset(t, a, m, right);
    let broken = Broken {
        types: !fits,
        target: retaken(t, a, m, target, k),
        sources: never,
        ..UNBROKEN
    };
    broken.lowest()
}

fn phi_fault(t: &[u8], a: usize, m: &[u16], b: usize, j: usize, k: usize) -> Option<Reason>
    requires in_table { (InTable t.now a) × (length m.now ≡ flow_length) × (b < max_blocks) × (k < max_rows) }
    requires k_bound { phi_first t.now a k + phi_count t.now a k ≤ max_entries }
    ensures { Judged Form.phi t.now a m.now b j k (fault_number result) }
{
    let target = row_target(t, a, k);
    let first = phi_first(t, a, k);
    let count = phi_count(t, a, k);
    let kind = register_type(t, a, target);
    let fits = entries_pass(t, a, first, count, |u| register_type(t, a, u) == kind);
    let misplaced = (b == function_entry(t, a)) | (phis(m, b) < j);
    let miscounted = (count == 0) | (count != predecessor_count(t, a, b));
    let assigned = entries_pass(t, a, first, count, |u| !unset(t, a, m, u));
    let broken = Broken {
        types: !fits,
        target: retaken(t, a, m, target, k),
        mark: function_ssa(t, a) != 1,
        place: misplaced,
        count: miscounted,
        sources: !assigned,
    };
    broken.lowest()
}

// A terminator with a source, which must be of type `kind`.
fn source_fault(t: &[u8], a: usize, m: &[u16], k: usize, kind: u8) -> Option<Reason>
    requires { (InTable t.now a) × (length m.now ≡ flow_length) × (k < max_rows) }
    ensures { fault_number result ≡ lowest 11 (not (eqb (register_type t.now a (row_left t.now a k)) kind) ∷ false ∷ false ∷ false ∷ false ∷ unset_by t.now a m.now (row_left t.now a k) ∷ []) }
{
    let source = row_left(t, a, k);
    let broken = Broken {
        types: register_type(t, a, source) != kind,
        sources: unset(t, a, m, source),
        ..UNBROKEN
    };
    broken.lowest()
}

fn leave_fault(t: &[u8], a: usize) -> Option<Reason>
    requires { InTable t.now a }
    ensures { fault_number result ≡ lowest 11 (not (eqb (function_result t.now a) void) ∷ false ∷ false ∷ false ∷ false ∷ false ∷ []) }
{
    let broken = Broken {
        types: function_result(t, a) != types::VOID,
        ..UNBROKEN
    };
    broken.lowest()
}

// The lowest of 11 to 16 that row k breaks; `op` is its instruction.
fn later_fault(
    t: &[u8],
    a: usize,
    m: &[u16],
    b: usize,
    j: usize,
    k: usize,
    op: u8,
) -> Option<Reason>
    requires in_table { (InTable t.now a) × (length m.now ≡ flow_length) × (b < max_blocks) × (k < max_rows) × (op ≡ row_op t.now a k) }
    requires row_stands { RowStands t.now a m.now b j k × T (in_range (decode_function t.now a) (decode_row t.now a k)) }
    ensures { fault_number result ≡ lowest 11 (later_tests (decode_function t.now a) (spot b j (decode_row t.now a k))) }
{
    let form = form_of(op);
    match form {
        forms::NOP => None,
        forms::LOAD => load_fault(t, a, m, k),
        forms::UNARY => unary_fault(t, a, m, k),
        forms::BINARY => binary_fault(t, a, m, k),
        forms::PHI => phi_fault(t, a, m, b, j, k),
        forms::JUMP => None,
        forms::BRANCH => source_fault(t, a, m, k, types::UINT),
        forms::RETURN => source_fault(t, a, m, k, function_result(t, a)),
        forms::LEAVE => leave_fault(t, a),
        _ => Some(Reason::TableUnsound),
    }
}

// The lowest of 10 to 16 that row k breaks, which stands at place j of block b, if any. Its numbers are in their ranges.
pub fn form_fault(t: &[u8], a: usize, m: &[u16], b: usize, j: usize, k: usize) -> Option<Reason>
    requires { RowStands t.now a m.now b j k × T (in_range (decode_function t.now a) (decode_row t.now a k)) }
    ensures { fault_number result ≡ form_fault (decode_function t.now a) (spot_at (decode_function t.now a) b j) }
{
    let op = row_op(t, a, k);
    if misended(op, j + 1 == block_rows(t, a, b)) {
        return Some(Reason::TerminatorMisplaced);
    }
    later_fault(t, a, m, b, j, k, op)
}
