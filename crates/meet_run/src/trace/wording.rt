//! The text of a trace, and of what is found against it, one line each. If memory runs out, nothing is stated of what
//! was appended.

ghost use Rattle.std.specs.Prelude.{◌≡◌, ◌++◌, OnOk, codes};
ghost use Rattle.meet_run.specs.Scripts.Spelling.{place_text, option_text};
ghost use Rattle.meet_run.specs.Tracing.TraceSpelling.{side_text, paired_text, deed_text};
ghost use Rattle.meet_run.specs.Tracing.TraceWording.{head_line, record_line, why_text, illegal_line};

use crate::text::wording::{cause_word, push_numbered, push_pair};
use meet_history::Why;
use meet_tickets::{Deed, Kind, Order, Record, Side, Ticket};
use std::alloc::AllocError;

/// Returns a place's word.
pub fn order_word(order: Order) -> &'static [u8]
    ensures { result.now ≡ place_text order }
{
    match order {
        Order::Fair => b"fair",
        Order::Unfair => b"unfair",
        Order::Transfer => b"transfer",
    }
}

/// Appends a number behind a word, where there is one.
fn push_option(out: &mut Vec<u8>, name: &[u8], value: Option<u64>) -> Result<(), AllocError>
    ensures { OnOk result (out.new.items ≡ out.old.items ++ option_text name.now value) }
{
    match value {
        None => Ok(()),
        Some(number) => push_numbered(out, name, number),
    }
}

/// Appends a place's word, and its bound where it has one.
pub(crate) fn push_place(out: &mut Vec<u8>, kind: Kind) -> Result<(), AllocError>
    ensures { OnOk result (out.new.items
        ≡ out.old.items ++ (place_text kind.order ++ option_text (codes " bound ") kind.bound)) }
{
    out.extend_from_slice(order_word(kind.order))?;
    push_option(out, b" bound ", kind.bound)
}

/// Appends a trace's first line.
#[tactic(auto, unfolding(crate::specs::Tracing::TraceWording::head_line))]
pub(crate) fn push_head(out: &mut Vec<u8>, kind: Kind) -> Result<(), AllocError>
    ensures { OnOk result (out.new.items ≡ out.old.items ++ head_line kind) }
{
    out.extend_from_slice(b"trace 1 ")?;
    push_place(out, kind)?;
    out.extend_from_slice(b"\n")
}

/// A side's word.
pub(crate) fn side_word(side: Side) -> &'static [u8]
    ensures { result.now ≡ side_text side }
{
    match side {
        Side::Giver => b"give",
        Side::Taker => b"take",
    }
}

/// Appends two words.
fn push_words(out: &mut Vec<u8>, word: &[u8], second: &[u8]) -> Result<(), AllocError>
    ensures { OnOk result (out.new.items ≡ out.old.items ++ (word.now ++ second.now)) }
{
    out.extend_from_slice(word)?;
    out.extend_from_slice(second)
}

/// Appends a word, a mark and a partner's ticket.
fn push_paired(out: &mut Vec<u8>, word: &[u8], mark: u64, partner: Ticket) -> Result<(), AllocError>
    ensures { OnOk result (out.new.items ≡ out.old.items ++ paired_text word.now mark partner) }
{
    push_pair(out, word, mark, b" ", partner.number())
}

/// Appends a deed.
fn push_deed(out: &mut Vec<u8>, deed: Deed) -> Result<(), AllocError>
    ensures { OnOk result (out.new.items ≡ out.old.items ++ deed_text deed) }
{
    match deed {
        Deed::GiveWaits(mark) => push_numbered(out, b"give-waits ", mark),
        Deed::GiveMeets(mark, taker) => push_paired(out, b"give-meets ", mark, taker),
        Deed::GiveFails(mark) => push_numbered(out, b"give-fails ", mark),
        Deed::GiveKept(mark) => push_numbered(out, b"give-kept ", mark),
        Deed::TakeWaits => out.extend_from_slice(b"take-waits"),
        Deed::TakeMeets(mark, giver) => push_paired(out, b"take-meets ", mark, giver),
        Deed::TakeFails => out.extend_from_slice(b"take-fails"),
        Deed::EntryInterrupted(side) => push_words(out, b"entry-interrupted ", side_word(side)),
        Deed::Done => out.extend_from_slice(b"done"),
        Deed::Got(mark, giver) => push_paired(out, b"got ", mark, giver),
        Deed::Withdrawn(cause) => push_words(out, b"withdrawn ", cause_word(cause)),
        Deed::Interrupt(target) => push_numbered(out, b"interrupt ", target.number()),
    }
}

/// Appends a record's line.
///
/// # Errors
/// - `AllocError`, if an allocation fails.
#[tactic(auto, unfolding(crate::specs::Tracing::TraceWording::record_line))]
pub fn push_record(out: &mut Vec<u8>, entry: Record<Deed>) -> Result<(), AllocError>
    ensures { OnOk result (out.new.items ≡ out.old.items ++ record_line entry) }
{
    push_pair(out, b"", entry.seat.number(), b" ", entry.ticket.number())?;
    out.extend_from_slice(b" ")?;
    push_deed(out, entry.deed)?;
    out.extend_from_slice(b"\n")
}

/// Returns why a record can't come next, as a word.
#[tactic(auto, unfolding(crate::specs::Tracing::TraceWording::why_text))]
pub fn why_word(why: Why) -> &'static [u8]
    ensures { result.now ≡ why_text why }
{
    match why {
        Why::SeatOpen => b"SeatOpen",
        Why::TicketOrder => b"TicketOrder",
        Why::NotOpen => b"NotOpen",
        Why::WrongReply => b"WrongReply",
    }
}

/// Appends the line that names the first record that can't stand, from 1, and the reason.
///
/// # Errors
/// - `AllocError`, if an allocation fails.
#[tactic(auto, unfolding(crate::specs::Tracing::TraceWording::illegal_line))]
pub fn push_illegal(out: &mut Vec<u8>, number: u64, why: Why) -> Result<(), AllocError>
    ensures { OnOk result (out.new.items ≡ out.old.items ++ illegal_line number why) }
{
    push_numbered(out, b"illegal ", number)?;
    out.extend_from_slice(b" ")?;
    out.extend_from_slice(why_word(why))?;
    out.extend_from_slice(b"\n")
}
