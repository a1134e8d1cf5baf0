//! The lines of an explanation.

use crate::coming::Instead;
use meet_run::text::wording::{push_numbered, push_pair};
use meet_run::trace::wording::push_record;
use meet_tickets::{Base, Deed, Entry, OpenCut, OpenPair, Record, SeatNo, Side};
use std::alloc::AllocError;

/// Appends the record that can't stand, with its line.
pub(crate) fn push_line(
    out: &mut Vec<u8>,
    number: u64,
    entry: Record<Deed>,
) -> Result<(), AllocError> {
    push_numbered(out, b"line ", number)?;
    out.extend_from_slice(b": ")?;
    push_record(out, entry)
}

/// Appends each record that may come in its place.
pub(crate) fn push_instead(
    out: &mut Vec<u8>,
    seat: SeatNo,
    instead: &Instead,
) -> Result<(), AllocError> {
    if instead.deeds.is_empty() {
        return out.extend_from_slice(b"instead: nothing\n");
    }
    for deed in instead.deeds.iter() {
        out.extend_from_slice(b"instead: ")?;
        let entry = Record {
            seat,
            ticket: instead.ticket,
            deed: *deed,
        };
        push_record(out, entry)?;
    }
    Ok(())
}

/// Appends a ticket and its seat after a word.
fn push_ticket(
    out: &mut Vec<u8>,
    word: &[u8],
    ticket: u64,
    seat: SeatNo,
) -> Result<(), AllocError> {
    out.extend_from_slice(word)?;
    push_pair(out, b"ticket ", ticket, b" of seat ", seat.number())
}

/// Appends what a ticket gives, or that it takes.
fn push_item(out: &mut Vec<u8>, item: Option<u64>, verb: &[u8]) -> Result<(), AllocError> {
    match item {
        Some(mark) => push_numbered(out, verb, mark),
        None => out.extend_from_slice(b" takes"),
    }
}

/// Appends a node of the wait queue.
fn push_entry(out: &mut Vec<u8>, entry: &Entry<u64>) -> Result<(), AllocError> {
    push_ticket(out, b"in line: ", entry.ticket.number(), entry.seat)?;
    if entry.waits {
        push_item(out, entry.item, b" gives ")?;
    } else {
        push_item(out, entry.item, b" left ")?;
    }
    out.extend_from_slice(b"\n")
}

/// Appends a pending request that was matched.
fn push_met(out: &mut Vec<u8>, pair: &OpenPair) -> Result<(), AllocError> {
    push_ticket(out, b"met: ", pair.ticket.number(), pair.seat)?;
    match pair.side {
        Side::Giver => push_pair(
            out,
            b" gave ",
            pair.mark,
            b" to ticket ",
            pair.partner.number(),
        )?,
        Side::Taker => push_pair(
            out,
            b" gets ",
            pair.mark,
            b" from ticket ",
            pair.partner.number(),
        )?,
    }
    out.extend_from_slice(b"\n")
}

/// Appends a pending request that was interrupted.
fn push_cut(out: &mut Vec<u8>, cut: &OpenCut) -> Result<(), AllocError> {
    push_ticket(out, b"cut: ", cut.ticket.number(), cut.seat)?;
    push_item(out, cut.item, b" gives ")?;
    out.extend_from_slice(b"\n")
}

/// Appends a seat with a pending interrupt.
fn push_flag(out: &mut Vec<u8>, seat: SeatNo) -> Result<(), AllocError> {
    push_numbered(out, b"flagged: seat ", seat.number())?;
    out.extend_from_slice(b"\n")
}

/// Appends the state of a place: its wait queue from the front, the pending requests that were matched or interrupted,
/// and the seats with a pending interrupt.
pub(crate) fn push_moment(out: &mut Vec<u8>, base: &Base) -> Result<(), AllocError> {
    for entry in base.line.iter() {
        push_entry(out, entry)?;
    }
    for pair in base.pairs.iter() {
        push_met(out, pair)?;
    }
    for cut in base.cut.iter() {
        push_cut(out, cut)?;
    }
    for seat in base.flags.iter() {
        push_flag(out, *seat)?;
    }
    Ok(())
}
