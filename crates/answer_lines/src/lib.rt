// The line of a run's answer.
#![tactic(auto)]

ghost use Rattle.std.specs.Prelude.{[], ◌∷◌, ◌≡◌, ◌+◌, ◌^◌, ◌%◌, ◌≤◌, Ok, length};
ghost use Rattle.language.specs.Bytes.{bytes_of};
ghost use Rattle.language.specs.Instructions.{width as width_of};
ghost use Rattle.language.specs.Listing.{line, refused_line};
ghost use Rattle.language.specs.Answers.{Ran as Ranᴸ};
ghost use Rattle.decimal.specs.Writing.{Written};
ghost use Rattle.answers.specs.Cases.{ran_of};
ghost use Rattle.answers.specs.Reasons.{reason_number, stop_number};
ghost use Rattle.listing.specs.Lines.{refusal_most};
ghost use Rattle.answer_lines.specs.Lines.{value_written, ran_line, ran_most};

use answers::{Ran, Refusal, Stop};
use decimal::{LINE_FEED, MINUS, of_bits, put_digits};
use instructions::width;
use listing::{list_refusal, put_field};
use numbers::put_bytes;

// The lowest bits of a number, as many as a type is wide.
fn lowest(kind: u8, v: u64) -> u64
    ensures { result ≡ v % 2 ^ width_of kind }
{
    let w = width(kind);
    match w {
        8 => v % 256,
        16 => v % 65536,
        32 => v % 4294967296,
        _ => v,
    }
}

// A value by meaning.
fn put_value(kind: u8, v: u64, out: &mut [u8], at: usize) -> usize
    requires { at + 21 ≤ length out.old }
    ensures { Written out.old at (value_written kind v) out.new result × (result ≤ at + 21) }
{
    let m = of_bits(kind, lowest(kind, v));
    if !m.negative {
        return put_digits(m.magnitude, out, at);
    }
    out[at] = MINUS;
    put_digits(m.magnitude, out, at + 1)
}

// `returned`, the value, the steps.
fn put_returned(kind: u8, v: u64, steps: u64, out: &mut [u8]) -> usize
    requires { ran_most ≤ length out.old }
    ensures { Written out.old 0 (ran_line kind (Ranᴸ.returned v steps)) out.new result × (result ≤ ran_most) }
{
    put_bytes(out, 0, b"returned\t");
    let e = put_value(kind, v, out, 9);
    let f = put_field(steps, out, e);
    out[f] = LINE_FEED;
    f + 1
}

// `left`, the steps.
fn put_left(steps: u64, out: &mut [u8]) -> usize
    requires { ran_most ≤ length out.old }
    ensures { Written out.old 0 (line (bytes_of "left") (steps ∷ [])) out.new result × (result ≤ ran_most) }
{
    put_bytes(out, 0, b"left");
    let e = put_field(steps, out, 4);
    out[e] = LINE_FEED;
    e + 1
}

// `stopped`, the number, its place, the steps.
fn put_stopped(stop: Stop, place: usize, steps: u64, out: &mut [u8]) -> usize
    requires { ran_most ≤ length out.old }
    ensures { Written out.old 0 (line (bytes_of "stopped") (stop_number stop ∷ place ∷ steps ∷ [])) out.new result × (result ≤ ran_most) }
{
    put_bytes(out, 0, b"stopped");
    let e = put_field(u64::from(u8::from(stop)), out, 7);
    let f = put_field(place as u64, out, e);
    let g = put_field(steps, out, f);
    out[g] = LINE_FEED;
    g + 1
}

// The line of a run that ended.
fn put_ended(kind: u8, x: Ran, out: &mut [u8]) -> usize
    requires { ran_most ≤ length out.old }
    ensures { Written out.old 0 (ran_line kind (ran_of (Ok x))) out.new result × (result ≤ ran_most) }
{
    match x {
        Ran::Returned { value, steps } => put_returned(kind, value, steps, out),
        Ran::Left { steps } => put_left(steps, out),
        Ran::Stopped { stop, place, steps } => put_stopped(stop, place, steps, out),
    }
}

// The line of a refusal.
pub fn put_refusal(e: Refusal, out: &mut [u8]) -> usize
    requires { refusal_most ≤ length out.old }
    ensures { Written out.old 0 (refused_line (reason_number e.reason) e.place) out.new result × (result ≤ refusal_most) }
{
    list_refusal(u8::from(e.reason), e.place, out)
}

// The line of an answer of a function with this return type.
pub fn put_answer(kind: u8, r: Result<Ran, Refusal>, out: &mut [u8]) -> usize
    requires { ran_most ≤ length out.old }
    ensures { Written out.old 0 (ran_line kind (ran_of r)) out.new result × (result ≤ ran_most) }
{
    match r {
        Ok(x) => put_ended(kind, x, out),
        Err(e) => put_refusal(e, out),
    }
}
