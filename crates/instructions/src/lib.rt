// Instructions and types by their numbers: what every crate that reads, checks, runs or translates asks of them.
#![tactic(auto)]

pub mod forms;
pub mod operands;
pub mod ops;
mod ranges;
pub mod types;
pub mod words;

ghost use Rattle.std.specs.Prelude.{◌≡◌, ◌^◌, ltb};
ghost use Rattle.language.specs.Instructions.{width as width_of, signed as signed_of, load_type};
ghost use Rattle.instructions.specs.Shapes.{shape_from, shape_of, is_terminator_op};

pub use ranges::{bits_of, largest, number_in_range};

// What an instruction looks like: its form's number, whether it has a target, how many source registers, and the kind of its
// operand in parentheses.
#[derive(Clone, Copy)]
pub struct Shape {
    pub form: u8,
    pub target: bool,
    pub sources: u8,
    pub operand: u8,
}

impl Shape {
    fn new(form: u8, target: bool, sources: u8, operand: u8) -> Self
        ensures { result ≡ shape_from form target sources operand }
    {
        Self {
            form,
            target,
            sources,
            operand,
        }
    }
}

// "Which of these must be present comes from the next section", by the instruction's number.
pub fn shape_of(op: u8) -> Shape
    ensures { result ≡ shape_of op }
{
    match op {
        ops::NOP => Shape::new(forms::NOP, false, 0, operands::NONE),
        ops::ARI_NEG | ops::BIT_NEG => Shape::new(forms::UNARY, true, 1, operands::NONE),
        ops::PHI => Shape::new(forms::PHI, true, 0, operands::REGISTERS),
        ops::JUMP => Shape::new(forms::JUMP, false, 0, operands::BLOCK),
        ops::JUMP_COND => Shape::new(forms::BRANCH, false, 1, operands::BLOCKS),
        ops::RETURN => Shape::new(forms::RETURN, false, 1, operands::NONE),
        ops::LEAVE => Shape::new(forms::LEAVE, false, 0, operands::NONE),
        ops::LOAD_I8..=ops::LOAD_UI64 => Shape::new(forms::LOAD, true, 0, operands::NUMBER),
        ops::ARI_ADD..=ops::CMP_LTEQ => Shape::new(forms::BINARY, true, 2, operands::NONE),
        ops::CONV..=ops::COPY => Shape::new(forms::UNARY, true, 1, operands::NONE),
        _ => Shape::new(forms::UNKNOWN, false, 0, operands::NONE),
    }
}

// Whether an instruction is a terminator: they are the last ones.
pub fn is_terminator(op: u8) -> bool
    ensures { result ≡ is_terminator_op op }
{
    ops::JUMP <= op
}

// A type's width in bits.
pub fn width(t: u8) -> u8
    ensures { result ≡ width_of t }
{
    if types::INT <= t {
        return 64;
    }
    8 << (t % 4)
}

// Whether a number is one of a type: below 2^w.
pub fn number_fits(n: u64, t: u8) -> bool
    ensures { result ≡ ltb n (2 ^ width_of t) }
{
    let w = width(t);
    if w == 64 {
        return true;
    }
    n >> w == 0
}

// Whether a type is read as two's complement.
pub fn signed(t: u8) -> bool
    ensures { result ≡ signed_of t }
{
    t == types::INT || t < types::UINT8
}

// The type that a load's target must have.
pub fn load_type(op: u8) -> u8
    ensures { result ≡ load_type op }
{
    if op == ops::NOP {
        return types::INT8;
    }
    (op - ops::LOAD_I8) / 2 + types::UINT8 * ((op - ops::LOAD_I8) % 2)
}
