// The kinds of stages, in the order of their definition. In brackets what `more` and `detail` are, where they are something.

// "A text is any number of functions, none included"
pub const TOP: u64 = 0;
// "`function`, optional `ssa`, return type or `void`, name"
pub const HEADER: u64 = 1;

pub const RESULT: u64 = 2;

pub const FUNCTION_NAME: u64 = 3;
// "parameters in parentheses (type and name, parted by commas; house rule)" [detail: the type of the name to come]
pub const PARAMETERS: u64 = 4;

pub const FIRST_PARAMETER: u64 = 5;

pub const PARAMETER: u64 = 6;

pub const PARAMETER_END: u64 = 7;

pub const PARAMETER_NAME: u64 = 8;
// "`{`, register declarations (`register` type name `;`)" [detail: the type of the name to come]
pub const BODY: u64 = 9;

pub const DECLARATIONS: u64 = 10;

pub const REGISTER_TYPE: u64 = 11;

pub const REGISTER_END: u64 = 12;

pub const REGISTER_NAME: u64 = 13;
// "then blocks (`block`, `entry` or a name, `{`, one or more instructions, `}`), `}`"
pub const BLOCKS: u64 = 14;

pub const BLOCK_NAME: u64 = 15;

pub const BLOCK_BODY: u64 = 16;

pub const FIRST_INSTRUCTION: u64 = 17;

pub const NEXT_INSTRUCTION: u64 = 18;
// "An instruction is optional target and `=`, instruction word"
pub const ASSIGNMENT: u64 = 19;

pub const INSTRUCTION: u64 = 20;
// "source registers parted by commas" [more: the sources after the next one; detail: the operand to come]
pub const SOURCE: u64 = 21;

pub const SOURCE_COMMA: u64 = 22;
// "optional operand in parentheses" [detail of OPERAND: which; more of MENTION and its comma: the blocks after the next one]; "`;`"
pub const OPERAND: u64 = 23;

pub const NUMBER: u64 = 24;

pub const ENTRY: u64 = 25;

pub const ENTRY_END: u64 = 26;

pub const MENTION: u64 = 27;

pub const MENTION_COMMA: u64 = 28;

pub const OPERAND_END: u64 = 29;

pub const INSTRUCTION_END: u64 = 30;
