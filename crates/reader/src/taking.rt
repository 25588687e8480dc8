// One token: the grammar names the act, and the act is done. A name's bytes come beside the token, in a slice that need not be a part of
// the text; beside any other token there are none.
ghost use Rattle.std.specs.Prelude.{true, ◌≡◌};
ghost use Rattle.drafts.specs.State.{Lent, lent_of};
ghost use Rattle.reader.specs.Parse.{reader_at, ReaderReached, Beside, EndTaken, Takes, Suits, is_end, Enabled, Performs};

use answers::Reason;
use drafts::{Draft, Fault};
use grammar::{Act, Stage, Token, is_top, next_move};
use text_place::TextPlace;

// The stage of the grammar, and what is read so far.
#[derive(Clone, Copy)]
pub struct Reader {
    pub stage: Stage,
    pub draft: Draft,
}

// What a token or bytes lead to: the state after them, the state between functions with one more closed, or the end of the text.
#[derive(Clone, Copy)]
pub enum Step<T> {
    Reading(T),
    Closed(T),
    Ended(T),
}

impl Reader {
    // Before the first token.
    pub fn new() -> Self
        ensures { result ≡ reader_at 0 }
    {
        Self {
            stage: Stage {
                kind: 0,
                more: 0,
                detail: 0,
            },
            draft: Draft::fresh(0),
        }
    }

    // The end of the text, at this place: it is allowed between functions alone.
    fn end(self, at: TextPlace) -> Result<Step<Reader>, Fault>
        ensures { ((x : Lent) → EndTaken at self x result) × (Suits true result) }
    {
        if is_top(self.stage) {
            return Ok(Step::Ended(self));
        }
        let reason = Reason::TokenNotAllowed;
        Err(Fault { reason, at })
    }

    // The token at place p, with the bytes of a name.
    // Kept, plainer: the buffers lent, here and in `perform`, `take_found`, `advance` and `feed`. A struct of these `&mut` would ask of each function that takes it a
    // clause more for each field, that it still lends the same buffer; and an act takes but what it reads or writes, which is what its clause says of the rest.
    pub fn take(
        self,
        f: &mut [u8],
        names: &mut [u8],
        pend: &mut [u8],
        last: &mut [u16],
        before: &mut [u16],
        name: &[u8],
        p: TextPlace,
        token: Token,
    ) -> Result<Step<Reader>, Fault>
        requires reader_reached { ReaderReached self (lent_of f.old names.old pend.old last.old before.old) }
        requires beside { Beside token name.now p }
        ensures takes { Takes name.now p token self (lent_of f.old names.old pend.old last.old before.old) result (lent_of f.new names.new pend.new last.new before.new) }
        ensures suits { Suits (is_end token) result }
    {
        if let Token::End = token {
            return self.end(p);
        }
        let next = next_move(self.stage, token);
        let draft = perform(self.draft, f, names, pend, last, before, name, p, next.act)?;
        let after = Reader {
            stage: next.stage,
            draft,
        };
        if let Act::EndFunction = next.act {
            return Ok(Step::Closed(after));
        }
        Ok(Step::Reading(after))
    }
}

// An act on the token at place p. 3 for a token that is not allowed here.
fn perform(
    d: Draft,
    f: &mut [u8],
    names: &mut [u8],
    pend: &mut [u8],
    last: &mut [u16],
    before: &mut [u16],
    name: &[u8],
    p: TextPlace,
    act: Act,
) -> Result<Draft, Fault>
    requires { Enabled d (lent_of f.old names.old pend.old last.old before.old) name.now p act }
    ensures { Performs name.now p d (lent_of f.old names.old pend.old last.old before.old) result (lent_of f.new names.new pend.new last.new before.new) act }
{
    match act {
        Act::Wrong => Err(Fault {
            reason: Reason::TokenNotAllowed,
            at: p,
        }),
        Act::Pass => Ok(d),
        Act::BeginFunction => d.begin_function(p),
        Act::MarkSsa => Ok(d.mark_ssa()),
        Act::BeginRegister => d.begin_register(p),
        Act::BeginBlock => d.begin_block(p),
        Act::SetResult(kind) => Ok(d.set_result(kind)),
        Act::NameFunction => d.name_function(f, names, name, p),
        Act::NameBlock => d.name_block(f, name, p),
        Act::NameRegister(parameter, kind) => {
            d.name_register(f, last, before, usize::from(parameter), kind, name, p)
        }
        Act::BeginInstruction(op) => d.begin_instruction(op, p),
        Act::SetInstruction(op) => Ok(d.set_instruction(op)),
        Act::SetTarget => d.set_target(f, last, before, name, p),
        Act::AddSource => d.add_source(f, last, before, name, p),
        Act::AddEntry => d.add_entry(f, last, before, name, p),
        Act::AddMention => Ok(d.add_mention(pend, name, p)),
        Act::SetNumber(negative, magnitude) => d.set_number(negative, magnitude, p),
        Act::EndInstruction => Ok(d.end_instruction(f)),
        Act::EndBlock => Ok(d.end_block(f)),
        Act::EndFunction => d.end_function(f, pend, p),
    }
}
