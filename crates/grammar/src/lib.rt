// The grammar of a text as a machine over tokens, by value and with no table: a move names the stage that comes next and what
// is to be done about the token, and a token that may not stand there is `Wrong`.
#![tactic(auto)]

mod kinds;

ghost use Rattle.std.specs.Prelude.{◌≡◌};
ghost use Rattle.language.specs.Words.{is_type, is_instruction};
ghost use Rattle.language.specs.Grammar.{next_move, a_result, word_with_target, word_alone, in_operand, on_mark, on_word, is_word, after_sources, after_source, after_mention, Stage as Stageᴸ, sources as sourcesᴸ};
ghost use Rattle.grammar.specs.Ready.{is_top};
ghost use Rattle.grammar.specs.Meaning.{TokenSpot, Moves, move_of, spot_of, token_of, move_to, stage_is, stage_from, operand_from, bracketed_from, is_mark, names_block, ends_block, instruction_at};

use instructions::{shape_of, types, words};
use kinds::*;

// What comes next: a kind, how many sources or blocks come after the next one, and a type or an operand's number.
// Kept, speed: as an enum with what it holds reading took up to half as long again (docs/BENCHMARKS.md); three fields of eight bytes leave no gap to copy.
#[derive(Clone, Copy)]
pub struct Stage {
    pub kind: u64,
    pub more: u64,
    pub detail: u64,
}

// A token without the bytes of a name, which come beside it. A number: whether it is negative, and its magnitude, unless that is
// 2^64 or more.
#[derive(Clone, Copy)]
pub enum Token {
    Name,
    Word(u8),
    Number(bool, Option<u64>),
    Mark(u8),
    End,
}

// What is to be done about a token. What is named gets the bytes beside the token; where a block is named, no bytes stand for the
// word `entry`. Of a register: whether it is a parameter, and its type. A number is given as in the token.
#[derive(Clone, Copy)]
pub enum Act {
    Wrong,
    Pass,
    BeginFunction,
    MarkSsa,
    BeginRegister,
    BeginBlock,
    SetResult(u8),
    NameFunction,
    NameBlock,
    NameRegister(bool, u64),
    BeginInstruction(u8),
    SetInstruction(u8),
    SetTarget,
    AddSource,
    AddEntry,
    AddMention,
    SetNumber(bool, Option<u64>),
    EndInstruction,
    EndBlock,
    EndFunction,
}

#[derive(Clone, Copy)]
pub struct Move {
    pub stage: Stage,
    pub act: Act,
}

impl Stage {
    fn new(kind: u64, more: u64, detail: u64) -> Self
        ensures { result ≡ stage_from kind more detail }
    {
        Self { kind, more, detail }
    }
}

impl Move {
    fn to(kind: u64, act: Act) -> Self
        ensures { result ≡ move_to kind act }
    {
        Self {
            stage: Stage {
                kind,
                more: 0,
                detail: 0,
            },
            act,
        }
    }

    // 3: a token that is not allowed here.
    fn wrong() -> Self
        ensures { result ≡ move_to 0 Act.Wrong }
    {
        Self::to(TOP, Act::Wrong)
    }
}

// Whether the token is this mark.
fn is_mark(token: Token, byte: u8) -> bool
    ensures { result ≡ is_mark byte token }
{
    let Token::Mark(b) = token else {
        return false;
    };
    b == byte
}

// This mark and no other token.
fn mark(token: Token, byte: u8, next: Move) -> Move
    ensures { (s : TokenSpot) → move_of (spot_of token s) result ≡ on_mark byte (move_of (spot_of token s) next) (token_of s token) }
{
    let Token::Mark(b) = token else {
        return Move::wrong();
    };
    if b == byte {
        return next;
    }
    Move::wrong()
}

// This word and no other token.
fn word(token: Token, number: u8, next: Move) -> Move
    ensures { (s : TokenSpot) → move_of (spot_of token s) result ≡ on_word (is_word number (move_of (spot_of token s) next)) (token_of s token) }
{
    let Token::Word(w) = token else {
        return Move::wrong();
    };
    if w == number {
        return next;
    }
    Move::wrong()
}

// Whether a word is a type.
fn is_type(w: u8) -> bool
    ensures { result ≡ is_type w }
{
    words::FIRST_TYPE <= w && w < words::FIRST_INSTRUCTION
}

// Whether a word is an instruction.
fn is_instruction(w: u8) -> bool
    ensures { result ≡ is_instruction w }
{
    words::FIRST_INSTRUCTION <= w && w < words::COUNT
}

// "A text is any number of functions, none included"
fn top(token: Token) -> Move
    ensures { Moves (next_move Stageᴸ.top) token result }
{
    if let Token::End = token {
        return Move::to(TOP, Act::Pass);
    }
    word(token, words::FUNCTION, Move::to(HEADER, Act::BeginFunction))
}

// "return type or `void`"
fn result_word(w: u8) -> Move
    ensures { (s : TokenSpot) → move_of s result ≡ a_result w }
{
    if w == words::VOID {
        return Move::to(FUNCTION_NAME, Act::SetResult(types::VOID));
    }
    if is_type(w) {
        return Move::to(FUNCTION_NAME, Act::SetResult(w - words::FIRST_TYPE));
    }
    Move::wrong()
}

// "`function`, optional `ssa`, return type or `void`, name"
fn header(token: Token) -> Move
    ensures { Moves (next_move Stageᴸ.header) token result }
{
    let Token::Word(w) = token else {
        return Move::wrong();
    };
    if w == words::SSA {
        return Move::to(RESULT, Act::MarkSsa);
    }
    result_word(w)
}

// The return type after `ssa`.
fn result(token: Token) -> Move
    ensures { Moves (next_move Stageᴸ.result) token result }
{
    let Token::Word(w) = token else {
        return Move::wrong();
    };
    result_word(w)
}

// The function's name.
fn function_name(token: Token) -> Move
    ensures { Moves (next_move Stageᴸ.function_name) token result }
{
    let Token::Name = token else {
        return Move::wrong();
    };
    Move::to(PARAMETERS, Act::NameFunction)
}

// "parameters in parentheses (type and name, parted by commas; house rule)": the type.
fn parameter(token: Token) -> Move
    ensures { Moves (next_move Stageᴸ.parameter) token result }
{
    let Token::Word(w) = token else {
        return Move::wrong();
    };
    if is_type(w) {
        let stage = Stage::new(PARAMETER_NAME, 0, u64::from(w - words::FIRST_TYPE));
        return Move {
            stage,
            act: Act::BeginRegister,
        };
    }
    Move::wrong()
}

// The first parameter's type, or no parameter.
fn first_parameter(token: Token) -> Move
    ensures { Moves (next_move Stageᴸ.first_parameter) token result }
{
    if is_mark(token, b')') {
        return Move::to(BODY, Act::Pass);
    }
    parameter(token)
}

// A parameter's name.
fn parameter_name(token: Token, detail: u64) -> Move
    ensures { Moves (next_move (Stageᴸ.parameter_name detail)) token result }
{
    let Token::Name = token else {
        return Move::wrong();
    };
    Move::to(PARAMETER_END, Act::NameRegister(true, detail))
}

// A comma or the closing parenthesis.
fn parameter_end(token: Token) -> Move
    ensures { Moves (next_move Stageᴸ.parameter_end) token result }
{
    if is_mark(token, b',') {
        return Move::to(PARAMETER, Act::Pass);
    }
    mark(token, b')', Move::to(BODY, Act::Pass))
}

// "`{`, register declarations (`register` type name `;`)", a block or the end of the function.
fn declarations(token: Token) -> Move
    ensures { Moves (next_move Stageᴸ.declarations) token result }
{
    if is_mark(token, b'}') {
        return Move::to(TOP, Act::EndFunction);
    }
    let Token::Word(w) = token else {
        return Move::wrong();
    };
    if w == words::REGISTER {
        return Move::to(REGISTER_TYPE, Act::BeginRegister);
    }
    if w == words::BLOCK {
        return Move::to(BLOCK_NAME, Act::BeginBlock);
    }
    Move::wrong()
}

// A register's type.
fn register_type(token: Token) -> Move
    ensures { Moves (next_move Stageᴸ.register_type) token result }
{
    let Token::Word(w) = token else {
        return Move::wrong();
    };
    if is_type(w) {
        let stage = Stage::new(REGISTER_NAME, 0, u64::from(w - words::FIRST_TYPE));
        return Move {
            stage,
            act: Act::Pass,
        };
    }
    Move::wrong()
}

// A register's name.
fn register_name(token: Token, detail: u64) -> Move
    ensures { Moves (next_move (Stageᴸ.register_name detail)) token result }
{
    let Token::Name = token else {
        return Move::wrong();
    };
    Move::to(REGISTER_END, Act::NameRegister(false, detail))
}

// "then blocks (`block`, `entry` or a name, `{`, one or more instructions, `}`), `}`"
fn blocks(token: Token) -> Move
    ensures { Moves (next_move Stageᴸ.blocks) token result }
{
    if is_mark(token, b'}') {
        return Move::to(TOP, Act::EndFunction);
    }
    word(token, words::BLOCK, Move::to(BLOCK_NAME, Act::BeginBlock))
}

// "`entry` or a name"
fn names_block(token: Token) -> bool
    ensures { result ≡ names_block token }
{
    match token {
        Token::Name => true,
        Token::Word(w) => w == words::ENTRY,
        _ => false,
    }
}

// The name of the block that begins.
fn block_name(token: Token) -> Move
    ensures { Moves (next_move Stageᴸ.block_name) token result }
{
    if names_block(token) {
        return Move::to(BLOCK_BODY, Act::NameBlock);
    }
    Move::wrong()
}

// What follows the sources: the operand, or the end.
fn after_sources(operand: u64) -> Stage
    ensures { stage_is result ≡ after_sources (operand_from operand) }
{
    if operand == 0 {
        return Stage::new(INSTRUCTION_END, 0, 0);
    }
    Stage::new(OPERAND, 0, operand)
}

// What follows the instruction word: "Which of these must be present comes from the next section".
fn after_word(sources: u64, operand: u64) -> Stage
    ensures { stage_is result ≡ sourcesᴸ sources (operand_from operand) }
{
    if sources == 0 {
        return after_sources(operand);
    }
    Stage::new(SOURCE, sources - 1, operand)
}

// An instruction word that stands without a target.
fn word_alone(w: u8) -> Move
    ensures { (s : TokenSpot) → move_of s result ≡ word_alone w }
{
    if !is_instruction(w) {
        return Move::wrong();
    }
    let op = w - words::FIRST_INSTRUCTION;
    let shape = shape_of(op);
    if shape.target {
        return Move::wrong();
    }
    let stage = after_word(u64::from(shape.sources), u64::from(shape.operand));
    Move {
        stage,
        act: Act::BeginInstruction(op),
    }
}

// The instruction word after a target.
fn word_with_target(w: u8) -> Move
    ensures { (s : TokenSpot) → move_of s result ≡ word_with_target w }
{
    if !is_instruction(w) {
        return Move::wrong();
    }
    let op = w - words::FIRST_INSTRUCTION;
    let shape = shape_of(op);
    if shape.target {
        let stage = after_word(u64::from(shape.sources), u64::from(shape.operand));
        return Move {
            stage,
            act: Act::SetInstruction(op),
        };
    }
    Move::wrong()
}

// "An instruction is optional target and `=`, instruction word": its first token.
fn first_instruction(token: Token) -> Move
    ensures { Moves (next_move Stageᴸ.first_instruction) token result }
{
    if let Token::Name = token {
        return Move::to(ASSIGNMENT, Act::SetTarget);
    }
    let Token::Word(w) = token else {
        return Move::wrong();
    };
    word_alone(w)
}

// Whether the token ends the block at a stage of this kind: not before an instruction has stood in it.
fn ends_block(kind: u64, token: Token) -> bool
    ensures { result ≡ ends_block kind token }
{
    if kind == NEXT_INSTRUCTION {
        return is_mark(token, b'}');
    }
    false
}

// An instruction, or the end of the block.
fn next_instruction(kind: u64, token: Token) -> Move
    ensures { Moves (next_move (instruction_at kind)) token result }
{
    if ends_block(kind, token) {
        return Move::to(BLOCKS, Act::EndBlock);
    }
    first_instruction(token)
}

// The instruction word after its target.
fn instruction(token: Token) -> Move
    ensures { Moves (next_move Stageᴸ.instruction) token result }
{
    let Token::Word(w) = token else {
        return Move::wrong();
    };
    word_with_target(w)
}

// What follows a source: a comma and so many more, or the rest.
fn after_source(more: u64, operand: u64) -> Stage
    ensures { stage_is result ≡ after_source more (operand_from operand) }
{
    if more == 0 {
        return after_sources(operand);
    }
    Stage::new(SOURCE_COMMA, more - 1, operand)
}

// "source registers parted by commas"
fn source(token: Token, more: u64, operand: u64) -> Move
    ensures { Moves (next_move (Stageᴸ.source more (operand_from operand))) token result }
{
    let Token::Name = token else {
        return Move::wrong();
    };
    let stage = after_source(more, operand);
    Move {
        stage,
        act: Act::AddSource,
    }
}

// The comma before a source.
fn source_comma(token: Token, more: u64, operand: u64) -> Move
    ensures { Moves (next_move (Stageᴸ.source_comma more (operand_from operand))) token result }
{
    let stage = Stage::new(SOURCE, more, operand);
    let act = Act::Pass;
    mark(token, b',', Move { stage, act })
}

// "optional operand in parentheses": what the parenthesis opens.
fn in_operand(operand: u64) -> Stage
    ensures { stage_is result ≡ in_operand (bracketed_from operand) }
{
    match operand {
        1 => Stage::new(NUMBER, 0, 0),
        2 => Stage::new(ENTRY, 0, 0),
        3 => Stage::new(MENTION, 0, 0),
        _ => Stage::new(MENTION, 1, 0),
    }
}

// The parenthesis before the operand.
fn operand(token: Token, detail: u64) -> Move
    ensures { Moves (next_move (Stageᴸ.operand (bracketed_from detail))) token result }
{
    let stage = in_operand(detail);
    let act = Act::Pass;
    mark(token, b'(', Move { stage, act })
}

// The operand that is a number.
fn number(token: Token) -> Move
    ensures { Moves (next_move Stageᴸ.number) token result }
{
    let Token::Number(negative, magnitude) = token else {
        return Move::wrong();
    };
    Move::to(OPERAND_END, Act::SetNumber(negative, magnitude))
}

// A register in the list of a phi.
fn entry(token: Token) -> Move
    ensures { Moves (next_move Stageᴸ.entry) token result }
{
    let Token::Name = token else {
        return Move::wrong();
    };
    Move::to(ENTRY_END, Act::AddEntry)
}

// A comma or the closing parenthesis of that list.
fn entry_end(token: Token) -> Move
    ensures { Moves (next_move Stageᴸ.entry_end) token result }
{
    if is_mark(token, b',') {
        return Move::to(ENTRY, Act::Pass);
    }
    mark(token, b')', Move::to(INSTRUCTION_END, Act::Pass))
}

// What follows a block: a comma and so many more, or the closing parenthesis.
fn after_mention(more: u64) -> Stage
    ensures { stage_is result ≡ after_mention more }
{
    if more == 0 {
        return Stage::new(OPERAND_END, 0, 0);
    }
    Stage::new(MENTION_COMMA, more - 1, 0)
}

// A block that the operand names.
fn mention(token: Token, more: u64) -> Move
    ensures { Moves (next_move (Stageᴸ.mention more)) token result }
{
    if names_block(token) {
        let stage = after_mention(more);
        return Move {
            stage,
            act: Act::AddMention,
        };
    }
    Move::wrong()
}

// The comma before a block.
fn mention_comma(token: Token, more: u64) -> Move
    ensures { Moves (next_move (Stageᴸ.mention_comma more)) token result }
{
    let stage = Stage::new(MENTION, more, 0);
    let act = Act::Pass;
    mark(token, b',', Move { stage, act })
}

// Whether a stage is between two functions, where alone a text may end.
pub fn is_top(stage: Stage) -> bool
    ensures { result ≡ is_top (stage_is stage) }
{
    stage.kind == TOP
}

// The stage that comes after a token, and what is to be done about the token.
pub fn next_move(stage: Stage, token: Token) -> Move
    ensures { Moves (next_move (stage_is stage)) token result }
{
    let kind = stage.kind;
    let more = stage.more;
    let detail = stage.detail;
    match kind {
        TOP => top(token),
        HEADER => header(token),
        RESULT => result(token),
        FUNCTION_NAME => function_name(token),
        PARAMETERS => mark(token, b'(', Move::to(FIRST_PARAMETER, Act::Pass)),
        FIRST_PARAMETER => first_parameter(token),
        PARAMETER => parameter(token),
        PARAMETER_END => parameter_end(token),
        PARAMETER_NAME => parameter_name(token, detail),
        BODY => mark(token, b'{', Move::to(DECLARATIONS, Act::Pass)),
        DECLARATIONS => declarations(token),
        REGISTER_TYPE => register_type(token),
        REGISTER_END => mark(token, b';', Move::to(DECLARATIONS, Act::Pass)),
        REGISTER_NAME => register_name(token, detail),
        BLOCKS => blocks(token),
        BLOCK_NAME => block_name(token),
        BLOCK_BODY => mark(token, b'{', Move::to(FIRST_INSTRUCTION, Act::Pass)),
        FIRST_INSTRUCTION | NEXT_INSTRUCTION => next_instruction(kind, token),
        ASSIGNMENT => mark(token, b'=', Move::to(INSTRUCTION, Act::Pass)),
        INSTRUCTION => instruction(token),
        SOURCE => source(token, more, detail),
        SOURCE_COMMA => source_comma(token, more, detail),
        OPERAND => operand(token, detail),
        NUMBER => number(token),
        ENTRY => entry(token),
        ENTRY_END => entry_end(token),
        MENTION => mention(token, more),
        MENTION_COMMA => mention_comma(token, more),
        OPERAND_END => mark(token, b')', Move::to(INSTRUCTION_END, Act::Pass)),
        _ => mark(token, b';', Move::to(NEXT_INSTRUCTION, Act::EndInstruction)),
    }
}
