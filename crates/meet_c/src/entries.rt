//! Records, as structs of numbers, and read from them.

ghost use Rattle.std.specs.Prelude.{◌≡◌, length};
ghost use Rattle.meet_c.specs.Entries.{deed_number, deed_mark, deed_other, side_number, cause_number, told_record};
ghost use Rattle.meet_c.specs.Entries.{deed_of, record_of, side_in, cause_in, request_of, AreCopied};

use crate::names::{seat_in, ticket_in};
use meet_tickets::{Cause, Deed, Record, SeatNo, Side, Ticket};

/// A record. What it hasn't is 0.
#[repr(C)]
#[derive(Clone, Copy, PartialEq, Eq, Debug)]
pub struct PlainRecord {
    /// Its seat.
    pub seat: u64,
    /// Its ticket.
    pub ticket: u64,
    /// The number of its deed, 1 to 12.
    pub deed: u64,
    /// The deed's mark.
    pub mark: u64,
    /// The deed's partner, side, cause or target.
    pub other: u64,
}

/// Returns a ticket's number. (The prover can't follow a call of `number` in the match of `deed_other`.)
fn of_ticket(ticket: Ticket) -> u64
    ensures { result ≡ ticket }
{
    ticket.number()
}

/// Returns a seat's number.
fn of_seat(seat: SeatNo) -> u64
    ensures { result ≡ seat }
{
    seat.number()
}

/// Returns a deed's number.
fn deed_number(deed: Deed) -> u64
    ensures { result ≡ deed_number deed }
{
    match deed {
        Deed::GiveWaits(_) => 1,
        Deed::GiveMeets(_, _) => 2,
        Deed::GiveFails(_) => 3,
        Deed::GiveKept(_) => 4,
        Deed::TakeWaits => 5,
        Deed::TakeMeets(_, _) => 6,
        Deed::TakeFails => 7,
        Deed::EntryInterrupted(_) => 8,
        Deed::Done => 9,
        Deed::Got(_, _) => 10,
        Deed::Withdrawn(_) => 11,
        Deed::Interrupt(_) => 12,
    }
}

/// Returns a deed's mark, or 0.
fn deed_mark(deed: Deed) -> u64
    ensures { result ≡ deed_mark deed }
{
    match deed {
        Deed::GiveWaits(mark) => mark,
        Deed::GiveMeets(mark, _) => mark,
        Deed::GiveFails(mark) => mark,
        Deed::GiveKept(mark) => mark,
        Deed::TakeMeets(mark, _) => mark,
        Deed::Got(mark, _) => mark,
        Deed::TakeWaits | Deed::TakeFails | Deed::EntryInterrupted(_) => 0,
        Deed::Done | Deed::Withdrawn(_) | Deed::Interrupt(_) => 0,
    }
}

/// Returns a side's number.
pub(crate) fn side_number(side: Side) -> u64
    ensures { result ≡ side_number side }
{
    match side {
        Side::Giver => 0,
        Side::Taker => 1,
    }
}

/// Returns a cause's number.
fn cause_number(cause: Cause) -> u64
    ensures { result ≡ cause_number cause }
{
    match cause {
        Cause::Cancelled => 0,
        Cause::Expired => 1,
        Cause::Interrupted => 2,
    }
}

/// Returns a deed's partner, side, cause or target, or 0.
fn deed_other(deed: Deed) -> u64
    ensures { result ≡ deed_other deed }
{
    match deed {
        Deed::GiveMeets(_, with) => of_ticket(with),
        Deed::TakeMeets(_, with) => of_ticket(with),
        Deed::Got(_, with) => of_ticket(with),
        Deed::EntryInterrupted(side) => side_number(side),
        Deed::Withdrawn(cause) => cause_number(cause),
        Deed::Interrupt(target) => of_seat(target),
        Deed::GiveWaits(_) | Deed::GiveFails(_) | Deed::GiveKept(_) => 0,
        Deed::TakeWaits | Deed::TakeFails | Deed::Done => 0,
    }
}

/// Returns a record as numbers.
fn tell_record(entry: &Record<Deed>) -> PlainRecord
    ensures { result ≡ told_record entry.now }
{
    PlainRecord {
        seat: of_seat(entry.seat),
        ticket: of_ticket(entry.ticket),
        deed: deed_number(entry.deed),
        mark: deed_mark(entry.deed),
        other: deed_other(entry.deed),
    }
}

/// Copies records from this index on, as many as there are and as have room, and returns how many.
pub(crate) fn copy_records(records: &[Record<Deed>], from: usize, into: &mut [PlainRecord]) -> usize
    ensures { AreCopied records.now from into.old result into.new }
{
    let mut at = 0;
    if from < records.len() {
        while at < into.len() && at < records.len() - from {
            into[at] = tell_record(&records[from + at]);
            at += 1;
        }
    }
    at
}

/// Reads a side by its number.
#[tactic(auto, unfolding(crate::specs::Entries::side_in))]
fn read_side(number: u64) -> Option<Side>
    ensures { result ≡ side_in number }
{
    if number == 0 {
        Some(Side::Giver)
    } else if number == 1 {
        Some(Side::Taker)
    } else {
        None
    }
}

/// Reads a cause by its number.
#[tactic(auto, unfolding(crate::specs::Entries::cause_in))]
fn read_cause(number: u64) -> Option<Cause>
    ensures { result ≡ cause_in number }
{
    if number == 0 {
        Some(Cause::Cancelled)
    } else if number == 1 {
        Some(Cause::Expired)
    } else if number == 2 {
        Some(Cause::Interrupted)
    } else {
        None
    }
}

/// Reads a request's deed by its number.
#[tactic(auto, unfolding(crate::specs::Entries::request_of))]
fn read_request(deed: u64, mark: u64, other: u64) -> Option<Deed>
    ensures { result ≡ request_of deed mark other }
{
    if deed == 1 {
        Some(Deed::GiveWaits(mark))
    } else if deed == 2 {
        let with = ticket_in(other)?;
        Some(Deed::GiveMeets(mark, with))
    } else if deed == 3 {
        Some(Deed::GiveFails(mark))
    } else if deed == 4 {
        Some(Deed::GiveKept(mark))
    } else if deed == 5 {
        Some(Deed::TakeWaits)
    } else if deed == 6 {
        let with = ticket_in(other)?;
        Some(Deed::TakeMeets(mark, with))
    } else if deed == 7 {
        Some(Deed::TakeFails)
    } else {
        None
    }
}

/// Reads a deed by its number.
#[tactic(auto, unfolding(crate::specs::Entries::deed_of))]
fn read_deed(deed: u64, mark: u64, other: u64) -> Option<Deed>
    ensures { result ≡ deed_of deed mark other }
{
    if deed == 8 {
        let side = read_side(other)?;
        Some(Deed::EntryInterrupted(side))
    } else if deed == 9 {
        Some(Deed::Done)
    } else if deed == 10 {
        let with = ticket_in(other)?;
        Some(Deed::Got(mark, with))
    } else if deed == 11 {
        let cause = read_cause(other)?;
        Some(Deed::Withdrawn(cause))
    } else if deed == 12 {
        let target = seat_in(other)?;
        Some(Deed::Interrupt(target))
    } else {
        read_request(deed, mark, other)
    }
}

/// Reads a record, if its numbers are those of one.
#[tactic(auto, unfolding(crate::specs::Entries::record_of))]
pub(crate) fn read_record(entry: &PlainRecord) -> Option<Record<Deed>>
    ensures { result ≡ record_of entry.now }
{
    let seat = seat_in(entry.seat)?;
    let ticket = ticket_in(entry.ticket)?;
    let deed = read_deed(entry.deed, entry.mark, entry.other)?;
    Some(Record { seat, ticket, deed })
}
