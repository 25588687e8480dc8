// The draft of a text in numbers, nested as the definition's draft is: what it has as lists stands in what is lent.
ghost use Rattle.std.specs.Prelude.{◌≡◌, ◌%◌};
ghost use Rattle.drafts.specs.State.{parts_from, fresh_at};

use answers::Reason;
use table::{MAX_BLOCKS, MAX_FUNCTIONS, NAME_LENGTH};
use text_place::TextPlace;

// Of 65 names of blocks one is not declared.
pub const MAX_NAMES: usize = MAX_BLOCKS + 1;

// A name mentioned: its length and bytes, and behind them the place of its first mention in four cells.
pub const MENTION_PLACE: usize = NAME_LENGTH;

pub const MENTION_LENGTH: usize = MENTION_PLACE + 4;

// Behind the last name a search may look 256 cells far.
pub const NAMES_LENGTH: usize = MAX_FUNCTIONS * NAME_LENGTH + 256;

pub const PENDING_LENGTH: usize = MAX_NAMES * MENTION_LENGTH + 256;

// Of the function in hand what stands before its blocks: its mark, its return type, how many parameters and registers.
// Kept, speed: fields of eight bytes here and in `Parts`, and counts beside their values; narrower ones are copied apart (docs/BENCHMARKS.md, "Copies that stall").
#[derive(Clone, Copy, Default)]
pub struct Head {
    pub ssa: u64,
    pub result: u64,
    pub params: usize,
    pub registers: usize,
}

// Its blocks: how many are closed; the rows of all, and the first of the block in hand; the phi entries; the names of blocks mentioned.
#[derive(Clone, Copy, Default)]
pub struct Blocks {
    pub closed: usize,
    pub rows: usize,
    pub first: usize,
    pub entries: usize,
    pub names: usize,
}

// The instruction in hand: its number, target, up to two sources and how many there are, a load's number, how many phi entries, the
// numbers of up to two names of blocks that it mentions, and how many there are.
#[derive(Clone, Copy, Default)]
pub struct Parts {
    pub op: u64,
    pub target: usize,
    pub left: usize,
    pub right: usize,
    pub sources: u64,
    pub number: u64,
    pub entries: usize,
    pub one: usize,
    pub other: usize,
    pub mentions: u64,
}

// The functions closed, and the function in hand.
#[derive(Clone, Copy)]
pub struct Draft {
    pub functions: usize,
    pub head: Head,
    pub blocks: Blocks,
    pub parts: Parts,
}

// Why a text is refused, and where.
#[derive(Clone, Copy)]
pub struct Fault {
    pub reason: Reason,
    pub at: TextPlace,
}

// The low byte of a number: all of it, where it is known to be below 256.
// Kept, speed: the fields that it is asked of are of eight bytes, as said at `Head`.
pub fn low(x: u64) -> u8
    ensures { result ≡ x % 256 }
{
    (x % 256) as u8
}

impl Parts {
    // An instruction that has only its number and target so far.
    pub fn new(op: u64, target: usize) -> Self
        ensures { result ≡ parts_from op target }
    {
        Self {
            op,
            target,
            ..Self::default()
        }
    }
}

impl Draft {
    // Between two functions, so many being closed.
    pub fn fresh(functions: usize) -> Self
        ensures { result ≡ fresh_at functions }
    {
        Self {
            functions,
            head: Head::default(),
            blocks: Blocks::default(),
            parts: Parts::default(),
        }
    }
}
