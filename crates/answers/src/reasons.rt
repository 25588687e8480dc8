// Why a call is refused and why a run stops: a name for each of the numbers that are answered, which order the names too.
ghost use Rattle.std.specs.Prelude.{◌≡◌};
ghost use Rattle.answers.specs.Reasons.{reason_number, stop_number};

// Why a call is refused.
#[derive(Clone, Copy, PartialEq, Eq, PartialOrd, Ord)]
pub enum Reason {
    // "text too long"
    TextTooLong = 1,
    // "no token here, or name too long"
    NoToken = 2,
    // "token not allowed here, end included"
    TokenNotAllowed = 3,
    // "number out of range"
    NumberOutOfRange = 4,
    // "a size above exceeded"
    SizeExceeded = 5,
    // "function, register or block declared twice"
    DeclaredTwice = 6,
    // "name not declared"
    NotDeclared = 7,
    // "no entry block"
    NoEntry = 8,
    // "table: number outside its range, size exceeded, block rows not in sequence, no entry block, a name no text can spell .., or one declared twice"
    TableUnsound = 9,
    // "block without terminator at its end, or one earlier"
    TerminatorMisplaced = 10,
    // "types wrong, `leave` outside a void function"
    TypesWrong = 11,
    // "ssa: register assigned twice, parameter assigned"
    AssignedTwice = 12,
    // "`copy` in ssa, `phi` outside it"
    MarkMismatched = 13,
    // "phi in entry, or after another instruction"
    PhiMisplaced = 14,
    // "phi entries differ in number from predecessors, or are none"
    PhiMiscounted = 15,
    // "ssa: register used, never assigned"
    NeverAssigned = 16,
    // "ssa: some path from entry reaches the use without an assignment"
    LateAssigned = 17,
    // "argument count wrong, tested first, or one not below 2^w"
    ArgumentsWrong = 20,
    // "no such function"
    NoSuchFunction = 21,
    // "register buffer too short, or table output of another length"
    LengthWrong = 22,
    // "translate: not ssa"
    NotSsa = 30,
    // "translate: size exceeded"
    TranslationTooLarge = 31,
    // A text that exceeds the buffer it is written to, and one that exceeds what a text may be.
    BufferTooShort = 32,
    WrittenTooLong = 33,
    // A store without room for one more appliance, and a function that is no limit function.
    StoreFull = 60,
    NoLimitFunction = 61,
}

// Why a run stops.
#[derive(Clone, Copy, PartialEq, Eq)]
pub enum Stop {
    // "zero divisor"
    ZeroDivisor = 40,
    // "shift or rotation by w or more"
    ShiftTooFar = 41,
    // "least signed number `ari.div` -1"
    QuotientOverflows = 42,
    // "budget used up"
    BudgetUsedUp = 43,
}

// A refusal: why, and where.
#[derive(Clone, Copy)]
pub struct Refusal {
    pub reason: Reason,
    pub place: usize,
}

impl From<Reason> for u8 {
    ghost from_gives = { λ r n. n ≡ reason_number r };

    fn from(r: Reason) -> u8 {
        r as u8
    }
}

impl From<Stop> for u8 {
    ghost from_gives = { λ s n. n ≡ stop_number s };

    fn from(s: Stop) -> u8 {
        s as u8
    }
}
