//! The text of the replies, one line each. If memory runs out, nothing is stated of what was appended.

ghost use Rattle.std.specs.Prelude.{◌≡◌, ◌++◌, OnOk, codes, decimal};
ghost use Rattle.meet_run.specs.Scripts.Wording.{with_mark, cause_text, answer_text, cut_text, mark_text, outcome_text};
ghost use Rattle.meet_run.specs.Scripts.Wording.{text_of, last_line};

use itoa::Buffer;
use meet_history::{Answer, Outcome, Reply, Standing};
use meet_tickets::{Cause, SeatNo, Ticket};
use std::alloc::AllocError;

/// Appends a number's digits.
///
/// # Errors
/// - `AllocError`, if an allocation fails.
pub fn push_number(out: &mut Vec<u8>, number: u64) -> Result<(), AllocError>
    ensures { OnOk result (out.new.items ≡ out.old.items ++ decimal number) }
{
    let mut buffer = Buffer::new();
    out.extend_from_slice(buffer.format(number).as_bytes())
}

/// Appends a word, and a mark behind it where there is one.
#[tactic(auto, unfolding(crate::specs::Scripts::Wording::with_mark))]
fn push_with_mark(out: &mut Vec<u8>, word: &[u8], mark: Option<u64>) -> Result<(), AllocError>
    ensures { OnOk result (out.new.items ≡ out.old.items ++ with_mark word.now mark) }
{
    out.extend_from_slice(word)?;
    if let Some(mark) = mark {
        out.extend_from_slice(b" ")?;
        push_number(out, mark)?;
    }
    Ok(())
}

/// Appends a number after a word.
///
/// # Errors
/// - `AllocError`, if an allocation fails: nothing is stated of what was appended.
pub fn push_numbered(out: &mut Vec<u8>, word: &[u8], value: u64) -> Result<(), AllocError>
    ensures { OnOk result (out.new.items ≡ out.old.items ++ (word.now ++ decimal value)) }
{
    out.extend_from_slice(word)?;
    push_number(out, value)
}

/// Appends a word, a number, another word and a second number.
///
/// # Errors
/// - `AllocError`, if an allocation fails.
pub fn push_pair(
    out: &mut Vec<u8>,
    word: &[u8],
    number: u64,
    middle: &[u8],
    second: u64,
) -> Result<(), AllocError>
    ensures { OnOk result (out.new.items
        ≡ out.old.items ++ (word.now ++ decimal number ++ middle.now ++ decimal second)) }
{
    push_numbered(out, word, number)?;
    push_numbered(out, middle, second)
}

/// Why a ticket was withdrawn.
#[tactic(auto, unfolding(crate::specs::Scripts::Wording::cause_text))]
pub(crate) fn cause_word(cause: Cause) -> &'static [u8]
    ensures { result.now ≡ cause_text cause }
{
    match cause {
        Cause::Cancelled => b"cancelled",
        Cause::Expired => b"expired",
        Cause::Interrupted => b"interrupted",
    }
}

/// Appends the answer of a recorded request or ending.
#[tactic(auto, unfolding(crate::specs::Scripts::Wording::answer_text))]
fn push_answer(out: &mut Vec<u8>, answer: Answer) -> Result<(), AllocError>
    ensures { OnOk result (out.new.items ≡ out.old.items ++ answer_text answer) }
{
    match answer {
        Answer::Waits => out.extend_from_slice(b"waits"),
        Answer::Kept => out.extend_from_slice(b"kept"),
        Answer::Gave(mark, taker) => push_pair(out, b"gave ", mark, b" to t", taker.number()),
        Answer::Got(mark, giver) => push_pair(out, b"got ", mark, b" from t", giver.number()),
        Answer::Fails(item) => push_with_mark(out, b"none", item),
        Answer::Done => out.extend_from_slice(b"done"),
        Answer::Withdrawn(cause, item) => push_with_mark(out, cause_word(cause), item),
    }
}

/// Appends what became of an interrupted seat: its ticket was cut, or it was flagged.
#[tactic(auto, unfolding(crate::specs::Scripts::Wording::cut_text))]
fn push_cut(out: &mut Vec<u8>, cut: Option<Ticket>) -> Result<(), AllocError>
    ensures { OnOk result (out.new.items ≡ out.old.items ++ cut_text cut) }
{
    match cut {
        None => out.extend_from_slice(b" flagged"),
        Some(ticket) => {
            out.extend_from_slice(b" cut t")?;
            push_number(out, ticket.number())
        }
    }
}

/// Appends the mark of the first item, if there is one.
#[tactic(auto, unfolding(crate::specs::Scripts::Wording::mark_text))]
fn push_mark(out: &mut Vec<u8>, mark: Option<u64>) -> Result<(), AllocError>
    ensures { OnOk result (out.new.items ≡ out.old.items ++ mark_text mark) }
{
    match mark {
        None => out.extend_from_slice(b"none"),
        Some(mark) => push_number(out, mark),
    }
}

/// Appends the start of a reply without a record: its seat, and a word.
///
/// # Errors
/// - `AllocError`, if an allocation fails.
pub fn push_seat(out: &mut Vec<u8>, seat: SeatNo, word: &[u8]) -> Result<(), AllocError>
    ensures { OnOk result (out.new.items
        ≡ out.old.items ++ (codes "- " ++ decimal seat ++ word.now)) }
{
    out.extend_from_slice(b"- ")?;
    push_number(out, seat.number())?;
    out.extend_from_slice(word)
}

/// Appends what came of a seat's call.
#[tactic(auto, unfolding(crate::specs::Scripts::Wording::outcome_text))]
fn push_outcome(out: &mut Vec<u8>, seat: SeatNo, outcome: Outcome) -> Result<(), AllocError>
    ensures { OnOk result (out.new.items ≡ out.old.items ++ outcome_text seat outcome) }
{
    match outcome {
        Outcome::Recorded(number, ticket, answer) => {
            push_number(out, number)?;
            push_pair(out, b" ", seat.number(), b" t", ticket.number())?;
            out.extend_from_slice(b" ")?;
            push_answer(out, answer)
        }
        Outcome::Interrupted(number, target, cut) => {
            push_number(out, number)?;
            push_pair(out, b" ", seat.number(), b" interrupt ", target.number())?;
            push_cut(out, cut)
        }
        Outcome::NotYet => push_seat(out, seat, b" notyet"),
        Outcome::Late => push_seat(out, seat, b" late"),
        Outcome::Drained(items) => {
            push_seat(out, seat, b" drained ")?;
            push_number(out, items)
        }
        Outcome::Count(count) => {
            push_seat(out, seat, b" ")?;
            push_number(out, count)
        }
        Outcome::Peeked(mark) => {
            push_seat(out, seat, b" ")?;
            push_mark(out, mark)
        }
        Outcome::Based(gone) => {
            push_seat(out, seat, b" base ")?;
            push_number(out, gone)
        }
        Outcome::Refused(why) => {
            push_seat(out, seat, b" refused ")?;
            out.extend_from_slice(why.name().as_bytes())
        }
    }
}

/// Appends a reply's line.
#[tactic(auto, unfolding(crate::specs::Scripts::Wording::text_of))]
pub(crate) fn push_reply(out: &mut Vec<u8>, reply: &Reply) -> Result<(), AllocError>
    ensures { OnOk result (out.new.items ≡ out.old.items ++ text_of reply.now) }
{
    push_outcome(out, reply.seat, reply.outcome)?;
    out.extend_from_slice(b"\n")
}

/// Appends the line at the end of a script: how many records there are, how many requests wait, how many were matched
/// or interrupted and not collected, and how many items are buffered.
///
/// # Errors
/// - `AllocError`, if an allocation fails.
#[tactic(auto, unfolding(crate::specs::Scripts::Wording::last_line))]
pub fn push_last_line(out: &mut Vec<u8>, records: u64, standing: Standing) -> Result<(), AllocError>
    ensures { OnOk result (out.new.items ≡ out.old.items ++ last_line records standing) }
{
    push_pair(out, b"legal ", records, b" waiting ", standing.waiting)?;
    push_pair(
        out,
        b" uncollected ",
        standing.uncollected,
        b" kept ",
        standing.kept,
    )?;
    out.extend_from_slice(b"\n")
}
