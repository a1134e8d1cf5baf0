//! The endings of a history's open tickets, and its interrupts.

ghost use Rattle.std.specs.Prelude.{◌≡◌, ℕ, ◌<◌, ◌↔◌, ◌==◌, length, true, Option, IsTrue, IsSome};
ghost use Rattle.std.specs.Option.{option_map_or};
ghost use Rattle.meet_tickets.specs.BySeat.{entry_of, without_first, released, withdrawn, interrupted, cut_ticket};
ghost use Rattle.meet_tickets.specs.BySeat.{Allows};
ghost use Rattle.meet_tickets.specs.BySeat.{seats_after};
ghost use Rattle.meet_tickets.specs.declared.lines.Hold.TheVariants.{Waiting, Handed, Served, Cut};
ghost use Rattle.meet_tickets.specs.declared.records.Deed.TheVariants.{Withdrawn};
ghost use Rattle.meet_history.specs.Checking.{is_ending, moment_at};

use crate::checker::place::CheckedPlace;
use meet_tickets::{Cause, Deed, Entry, Hold, SeatNo, Ticket};

impl CheckedPlace {
    /// Takes a record in, if it is an ending's and the rules give it.
    pub(super) fn takes_ending(&mut self, seat: SeatNo, ticket: Ticket, deed: Deed) -> bool
        requires seat { seat < length self.old.table.holds }
        ensures allowed { IsTrue result ↔ ((is_ending deed ≡ true)
            × Allows self.old.kind (moment_at self.old).seats seat ticket deed) }
        ensures seats { IsTrue result → (moment_at self.new).seats
            ≡ seats_after self.old.kind (moment_at self.old).seats seat ticket deed }
        ensures last { self.new.last ≡ self.old.last }
        ensures kind { self.new.kind ≡ self.old.kind }
    {
        match deed {
            Deed::Done => {
                let may = is_handed(self.hold(seat), ticket);
                self.ends(seat, may)
            }
            Deed::Got(mark, with) => {
                let may = is_served(self.hold(seat), ticket, with, mark);
                self.ends(seat, may)
            }
            Deed::Withdrawn(cause) => self.takes_back(seat, ticket, cause),
            _ => false,
        }
    }

    /// Takes a withdrawal's record in, if the rules give it.
    fn takes_back(&mut self, seat: SeatNo, ticket: Ticket, cause: Cause) -> bool
        requires { seat < length self.old.table.holds }
        ensures allowed { IsTrue result ↔ Allows self.old.kind (moment_at self.old).seats seat ticket
            (Withdrawn cause) }
        ensures seats { IsTrue result → (moment_at self.new).seats
            ≡ seats_after self.old.kind (moment_at self.old).seats seat ticket (Withdrawn cause) }
        ensures last { self.new.last ≡ self.old.last }
        ensures kind { self.new.kind ≡ self.old.kind }
    {
        match cause {
            Cause::Cancelled | Cause::Expired => self.withdraws(seat, ticket),
            Cause::Interrupted => {
                let may = is_cut(self.hold(seat), ticket);
                self.ends(seat, may)
            }
        }
    }

    /// The seat's open ticket ends, if it may.
    fn ends(&mut self, seat: SeatNo, may: bool) -> bool
        requires { seat < length self.old.table.holds }
        ensures same { result ≡ may }
        ensures seats { IsTrue result → (moment_at self.new).seats ≡ released (moment_at self.old).seats seat }
        ensures last { self.new.last ≡ self.old.last }
        ensures kind { self.new.kind ≡ self.old.kind }
    {
        if may {
            self.release(seat);
        }
        may
    }

    /// The seat's open ticket ends.
    fn release(&mut self, seat: SeatNo)
        requires { seat < length self.old.table.holds }
        ensures seats { (moment_at self.new).seats ≡ released (moment_at self.old).seats seat }
        ensures last { self.new.last ≡ self.old.last }
        ensures kind { self.new.kind ≡ self.old.kind }
    {
        self.seats.replace(seat, Hold::Free);
    }

    /// This ticket leaves the line and ends, if it is the seat's and stands there.
    fn withdraws(&mut self, seat: SeatNo, ticket: Ticket) -> bool
        requires { seat < length self.old.table.holds }
        ensures allowed { IsTrue result ↔ (((moment_at self.old).seats.holds seat ≡ Waiting ticket)
            × IsSome (entry_of self.old.line ((moment_at self.old).seats.holds seat))) }
        ensures seats { IsTrue result → (moment_at self.new).seats ≡ withdrawn (moment_at self.old).seats seat ticket }
        ensures last { self.new.last ≡ self.old.last }
        ensures kind { self.new.kind ≡ self.old.kind }
    {
        if !waits_with(self.hold(seat), ticket) {
            return false;
        }
        match self.line.remove(ticket) {
            None => false,
            Some(_) => {
                self.seats.replace(seat, Hold::Free);
                true
            }
        }
    }

    /// The target's ticket is cut where it stands in the line, and else the target is flagged. Whether this is the
    /// ticket that an interrupt names: the one that was cut, or 0.
    pub(super) fn interrupts(&mut self, target: SeatNo, ticket: Ticket) -> bool
        requires { target < length self.old.table.holds }
        ensures allowed { IsTrue result ↔ (ticket ≡ cut_ticket (moment_at self.old).seats target) }
        ensures seats { (moment_at self.new).seats ≡ interrupted (moment_at self.old).seats target }
        ensures last { self.new.last ≡ self.old.last }
        ensures kind { self.new.kind ≡ self.old.kind }
    {
        match self.cut_out(target) {
            Some(entry) => {
                let Entry {
                    ticket: cut,
                    seat: _,
                    item,
                    waits: _,
                } = entry;
                self.seats.replace(target, Hold::Cut(cut, item));
                cut == ticket
            }
            None => {
                self.seats.set_flag(target, true);
                ticket.number() == 0
            }
        }
    }

    /// What stands in the line for this seat leaves it.
    fn cut_out(&mut self, seat: SeatNo) -> Option<Entry<u64>>
        requires { seat < length self.old.table.holds }
        ensures entry { result ≡ entry_of self.old.line ((moment_at self.old).seats.holds seat) }
        ensures line { self.new.line ≡ option_map_or
            (λ entry. without_first (λ e. e.ticket == entry.ticket) self.old.line) result self.old.line }
        ensures table { self.new.table ≡ self.old.table }
        ensures last { self.new.last ≡ self.old.last }
        ensures kind { self.new.kind ≡ self.old.kind }
    {
        let ticket = match self.hold(seat) {
            Hold::Waiting(ticket) => *ticket,
            _ => return None,
        };
        self.line.remove(ticket)
    }
}

/// Whether a seat that holds this waits with this ticket.
fn waits_with(hold: &Hold<u64>, ticket: Ticket) -> bool
    ensures { IsTrue result ↔ (hold.now ≡ Waiting ticket) }
{
    match hold {
        Hold::Waiting(own) => *own == ticket,
        Hold::Free | Hold::Handed(_, _, _) | Hold::Served(_, _, _) | Hold::Cut(_, _) => false,
    }
}

/// Whether a seat that holds this is a giver's that was met, with this ticket.
fn is_handed(hold: &Hold<u64>, ticket: Ticket) -> bool
    ensures { IsTrue result ↔ ((u : ℕ) × (mark : ℕ) × (hold.now ≡ Handed ticket u mark)) }
{
    match hold {
        Hold::Handed(own, _, _) => *own == ticket,
        Hold::Free | Hold::Waiting(_) | Hold::Served(_, _, _) | Hold::Cut(_, _) => false,
    }
}

/// Whether a seat that holds this is a taker's that this giver met with this mark, with this ticket.
fn is_served(hold: &Hold<u64>, ticket: Ticket, giver: Ticket, mark: u64) -> bool
    ensures { IsTrue result ↔ (hold.now ≡ Served ticket giver mark) }
{
    match hold {
        Hold::Served(own, with, item) => *own == ticket && *with == giver && *item == mark,
        Hold::Free | Hold::Waiting(_) | Hold::Handed(_, _, _) | Hold::Cut(_, _) => false,
    }
}

/// Whether a seat that holds this was cut, with this ticket.
fn is_cut(hold: &Hold<u64>, ticket: Ticket) -> bool
    ensures { IsTrue result ↔ ((item : Option ℕ) × (hold.now ≡ Cut ticket item)) }
{
    match hold {
        Hold::Cut(own, _) => *own == ticket,
        Hold::Free | Hold::Waiting(_) | Hold::Handed(_, _, _) | Hold::Served(_, _, _) => false,
    }
}
