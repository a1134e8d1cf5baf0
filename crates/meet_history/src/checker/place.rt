//! A place as its records leave it, and which record may come next.

ghost use Rattle.std.specs.Prelude.{◌≡◌, ℕ, ◌<◌, ◌≤◌, ◌↔◌, length, None, IsTrue, IsOk, IfOk, IfErr, OnOk};
ghost use Rattle.meet_tickets.specs.Meeting.{end_of, partner};
ghost use Rattle.meet_tickets.specs.BySeat.{IsFree, Fits, moment_after};
ghost use Rattle.meet_tickets.specs.Limits.{most_seats};
ghost use Rattle.meet_tickets.specs.declared.refusals.Refusal.TheVariants.{Memory};
ghost use Rattle.meet_history.specs.Checking.{IsFaulty, IsUntimely, HasRoom, subject_of, moment_at};
ghost use Rattle.meet_history.specs.OneThread.{standing_at};

use crate::checker::{Standing, Why};
use line::MarkLine;
use meet_core::SeatTable;
use meet_tickets::{Deed, Hold, Kind, Record, Refusal, SeatNo, Side, Ticket};
use std::marker::Model;

mod base;
mod endings;
mod line;
mod requests;

/// A place as its records leave it.
#[derive(Drop)]
pub(super) struct CheckedPlace {
    kind: Kind,
    last: Ticket,
    line: MarkLine,
    seats: SeatTable<u64>,
}

impl Model for CheckedPlace {
    ghost use Rattle.std.specs.Prelude.{◌≡◌, ◌≤◌, length};
    ghost use Rattle.meet_tickets.specs.Meeting.{end_of};
    ghost use Rattle.meet_history.specs.Checking.{Checked, AreSeated};

    ghost Value = { Checked };

    ghost view = { λ c. record {
      kind = c.kind;
      last = c.last;
      line = c.line.entries;
      room = c.line.room;
      table = c.seats;
    } };

    ghost invariant = { λ c. AreSeated (length c.seats.holds) c.line.entries × (c.line.end ≡ end_of c.kind.order)
        × (c.line.newest ≤ c.last) };
}

impl CheckedPlace {
    /// Sees that the table has this seat. Fails only if an allocation fails.
    #[inline(always)]
    fn seat(&mut self, seat: SeatNo) -> Result<(), Refusal>
        ensures kind { self.new.kind ≡ self.old.kind }
        ensures moment { moment_at self.new ≡ moment_at self.old }
        ensures room { self.new.room ≡ self.old.room }
        ensures seat { OnOk result (seat < length self.new.table.holds) }
        ensures more { length self.old.table.holds ≤ length self.new.table.holds }
        ensures memory { IfErr result (λ why. why ≡ Memory) }
        ensures enough { seat < length self.old.table.holds → IsOk result }
    {
        if seat.number() < self.seats.count() {
            return Ok(());
        }
        match self.seats.grow(seat.number() + 1) {
            Ok(()) => Ok(()),
            Err(_) => Err(Refusal::Memory),
        }
    }

    /// Makes room for one entry more, and in the table for the seats that this record names. Fails only if an
    /// allocation fails.
    pub(super) fn reserve(&mut self, entry: &Record<Deed>) -> Result<(), Refusal>
        ensures kind { self.new.kind ≡ self.old.kind }
        ensures moment { moment_at self.new ≡ moment_at self.old }
        ensures room { OnOk result (0 < self.new.room) }
        ensures seat { OnOk result (subject_of entry.now.seat entry.now.deed < length self.new.table.holds) }
        ensures memory { IfErr result (λ why. why ≡ Memory) }
        ensures enough { HasRoom self.old entry.now → IsOk result }
    {
        self.seat(entry.seat)?;
        if let Deed::Interrupt(target) = entry.deed {
            self.seat(target)?;
        }
        self.line.reserve()
    }

    /// What the seat has open.
    fn hold(&self, seat: SeatNo) -> &Hold<u64>
        requires { seat < length self.now.table.holds }
        ensures { result.now ≡ (moment_at self.now).seats.holds seat }
    {
        self.seats.hold(seat)
    }

    /// Whether a request of this side finds nobody.
    fn is_alone(&self, side: Side) -> bool
        ensures { IsTrue result ↔ (partner (end_of self.now.kind.order) (moment_at self.now).seats.line side ≡ None) }
    {
        self.line.is_alone(side)
    }

    /// Whether a request of this seat with this ticket may come now.
    fn requests(&self, seat: SeatNo, ticket: Ticket) -> Result<(), Why>
        requires { seat < length self.now.table.holds }
        ensures timely { IfOk result (λ _. IsFree (moment_at self.now).seats seat
            × ((moment_at self.now).last < ticket)) }
        ensures faulty { IfErr result (λ why. IsUntimely (moment_at self.now) seat ticket why) }
    {
        if self.hold(seat).is_open() {
            return Err(Why::SeatOpen);
        }
        if ticket.number() <= self.last.number() {
            return Err(Why::TicketOrder);
        }
        Ok(())
    }

    /// Whether the seat is flagged.
    fn is_flagged(&self, seat: SeatNo) -> bool
        requires { seat < length self.now.table.holds }
        ensures { result ≡ (moment_at self.now).seats.flags seat }
    {
        self.seats.is_flagged(seat)
    }

    /// Takes the next record in, or tells why it can't stand: the first reason that applies.
    pub(super) fn next(&mut self, entry: Record<Deed>) -> Result<(), Why>
        requires room { 0 < self.old.room }
        requires seat { subject_of entry.seat entry.deed < length self.old.table.holds }
        ensures fits { IfOk result (λ _. Fits self.old.kind (moment_at self.old) entry) }
        ensures after { IfOk result (λ _. moment_at self.new ≡ moment_after self.old.kind (moment_at self.old) entry) }
        ensures kind { self.new.kind ≡ self.old.kind }
        ensures faulty { IfErr result (λ why. IsFaulty self.old.kind (moment_at self.old) entry why) }
    {
        let Record { seat, ticket, deed } = entry;
        match deed {
            Deed::Interrupt(target) => {
                if self.interrupts(target, ticket) {
                    return Ok(());
                }
            }
            Deed::Done | Deed::Got(_, _) | Deed::Withdrawn(_) => {
                if self.hold(seat).open_ticket() != Some(ticket) {
                    return Err(Why::NotOpen);
                }
                if self.takes_ending(seat, ticket, deed) {
                    return Ok(());
                }
            }
            _ => {
                match self.requests(seat, ticket) {
                    Ok(()) => {}
                    Err(why) => return Err(why),
                }
                if self.takes_request(seat, ticket, deed) {
                    return Ok(());
                }
            }
        }
        Err(Why::WrongReply)
    }

    /// Where the place's tickets and items are.
    pub(super) fn standing(&self) -> Standing
        ensures standing { result ≡ standing_at most_seats (moment_at self.now).seats }
        ensures beyond { (seat : ℕ) → most_seats ≤ seat → IsFree (moment_at self.now).seats seat }
    {
        let _seats = self.seats.count();
        let kept = self.line.kept();
        Standing {
            waiting: self.line.len() - kept,
            uncollected: self.seats.settled(),
            kept,
        }
    }
}
