//! The requests of a history.

ghost use Rattle.std.specs.Prelude.{◌≡◌, ◌<◌, ◌↔◌, length, true, false, Some, MatchOption, IsTrue};
ghost use Rattle.meet_tickets.specs.Meeting.{end_of, Alone, Finds, IsAlone, MayKeep};
ghost use Rattle.meet_tickets.specs.BySeat.{queued, paired_hold, meets, flagged, IsFree, is_request, Allows};
ghost use Rattle.meet_tickets.specs.BySeat.{seats_after};
ghost use Rattle.meet_tickets.specs.declared.places.Side.TheVariants.{Giver, Taker};
ghost use Rattle.meet_history.specs.Checking.{moment_at};

use crate::checker::place::CheckedPlace;
use meet_tickets::{Deed, Entry, Hold, SeatNo, Side, Ticket};

impl CheckedPlace {
    /// Takes a record in, if it is a request's and the rules give it, where its seat is free and its ticket is new.
    pub(super) fn takes_request(&mut self, seat: SeatNo, ticket: Ticket, deed: Deed) -> bool
        requires seat { seat < length self.old.table.holds }
        requires room { 0 < self.old.room }
        requires free { IsFree (moment_at self.old).seats seat }
        requires above { self.old.last < ticket }
        ensures allowed { IsTrue result ↔ ((is_request deed ≡ true)
            × Allows self.old.kind (moment_at self.old).seats seat ticket deed) }
        ensures seats { IsTrue result → (moment_at self.new).seats
            ≡ seats_after self.old.kind (moment_at self.old).seats seat ticket deed }
        ensures last { IsTrue result → self.new.last ≡ ticket }
        ensures kind { self.new.kind ≡ self.old.kind }
    {
        match deed {
            Deed::GiveWaits(mark) => self.waits(seat, ticket, Side::Giver, Some(mark)),
            Deed::TakeWaits => self.waits(seat, ticket, Side::Taker, None),
            Deed::GiveMeets(mark, with) => self.meets(Side::Giver, ticket, Some(mark), with, None),
            Deed::TakeMeets(mark, with) => self.meets(Side::Taker, ticket, None, with, Some(mark)),
            Deed::GiveFails(_) => self.fails(ticket, Side::Giver),
            Deed::TakeFails => self.fails(ticket, Side::Taker),
            Deed::GiveKept(mark) => self.keeps(seat, ticket, mark),
            Deed::EntryInterrupted(side) => self.is_refused_at_entry(seat, ticket, side),
            _ => false,
        }
    }

    /// A request without a partner waits, if its seat isn't flagged.
    fn waits(&mut self, seat: SeatNo, ticket: Ticket, side: Side, item: Option<u64>) -> bool
        requires seat { seat < length self.old.table.holds }
        requires room { 0 < self.old.room }
        requires above { self.old.last < ticket }
        requires side { MatchOption item (side ≡ Taker) (λ _. side ≡ Giver) }
        ensures allowed { IsTrue result ↔ (Alone self.old.kind self.old.line side
            × ((moment_at self.old).seats.flags seat ≡ false)) }
        ensures seats { IsTrue result → (moment_at self.new).seats
            ≡ queued (moment_at self.old).seats seat ticket item true }
        ensures last { IsTrue result → self.new.last ≡ ticket }
        ensures kind { self.new.kind ≡ self.old.kind }
    {
        if !self.is_alone(side) || self.is_flagged(seat) {
            return false;
        }
        self.join(seat, ticket, item, true);
        true
    }

    /// A new entry goes to the line's end.
    #[inline(always)]
    fn join(&mut self, seat: SeatNo, ticket: Ticket, item: Option<u64>, waits: bool)
        requires seat { seat < length self.old.table.holds }
        requires room { 0 < self.old.room }
        requires above { self.old.last < ticket }
        requires alone { IsAlone (end_of self.old.kind.order) self.old.line item }
        ensures seats { (moment_at self.new).seats ≡ queued (moment_at self.old).seats seat ticket item waits }
        ensures last { self.new.last ≡ ticket }
        ensures kind { self.new.kind ≡ self.old.kind }
    {
        self.line.push_back(Entry {
            ticket,
            seat,
            item,
            waits,
        });
        self.last = ticket;
        if waits {
            self.seats.replace(seat, Hold::Waiting(ticket));
        }
    }

    /// A request of this side meets the entry with this ticket and this item, if that is its partner.
    #[inline(always)]
    fn meets(
        &mut self,
        side: Side,
        ticket: Ticket,
        brought: Option<u64>,
        with: Ticket,
        presented: Option<u64>,
    ) -> bool
        requires { self.old.last < ticket }
        ensures allowed { IsTrue result ↔ Finds self.old.kind self.old.line side with presented }
        ensures seats { IsTrue result → (moment_at self.new).seats
            ≡ meets self.old.kind (moment_at self.old).seats ticket brought side }
        ensures last { IsTrue result → self.new.last ≡ ticket }
        ensures kind { self.new.kind ≡ self.old.kind }
    {
        let entry = match self.line.partner(side) {
            None => return false,
            Some(entry) => entry,
        };
        let Entry {
            ticket: met,
            seat,
            item: own,
            waits,
        } = entry;
        if waits {
            self.seats.replace(seat, paired(met, own, ticket, brought));
        }
        self.last = ticket;
        met == with && own == presented
    }

    /// A request without a partner fails.
    fn fails(&mut self, ticket: Ticket, side: Side) -> bool
        requires { self.old.last < ticket }
        ensures allowed { IsTrue result ↔ Alone self.old.kind self.old.line side }
        ensures after { IsTrue result → self.new ≡ record self.old { last = ticket } }
        ensures kind { self.new.kind ≡ self.old.kind }
    {
        if !self.is_alone(side) {
            return false;
        }
        self.last = ticket;
        true
    }

    /// A request without a partner is refused at entry, if its seat is flagged.
    fn is_refused_at_entry(&mut self, seat: SeatNo, ticket: Ticket, side: Side) -> bool
        requires seat { seat < length self.old.table.holds }
        requires above { self.old.last < ticket }
        ensures allowed { IsTrue result ↔ (Alone self.old.kind self.old.line side
            × ((moment_at self.old).seats.flags seat ≡ true)) }
        ensures seats { IsTrue result → (moment_at self.new).seats ≡ flagged (moment_at self.old).seats seat false }
        ensures last { IsTrue result → self.new.last ≡ ticket }
        ensures kind { self.new.kind ≡ self.old.kind }
    {
        if !self.is_alone(side) || !self.is_flagged(seat) {
            return false;
        }
        self.seats.set_flag(seat, false);
        self.last = ticket;
        true
    }

    /// An item is kept, in a place that keeps items and has room for one more, where nobody takes it.
    fn keeps(&mut self, seat: SeatNo, ticket: Ticket, mark: u64) -> bool
        requires seat { seat < length self.old.table.holds }
        requires room { 0 < self.old.room }
        requires above { self.old.last < ticket }
        ensures allowed { IsTrue result ↔ (Alone self.old.kind self.old.line Giver
            × MayKeep self.old.kind self.old.line) }
        ensures seats { IsTrue result → (moment_at self.new).seats
            ≡ queued (moment_at self.old).seats seat ticket (Some mark) false }
        ensures last { IsTrue result → self.new.last ≡ ticket }
        ensures kind { self.new.kind ≡ self.old.kind }
    {
        if !self.is_alone(Side::Giver) || !self.may_keep() {
            return false;
        }
        self.join(seat, ticket, Some(mark), false);
        true
    }

    /// Whether an item more may be kept.
    fn may_keep(&self) -> bool
        ensures { IsTrue result ↔ MayKeep self.now.kind self.now.line }
    {
        if !self.kind.order.keeps() {
            return false;
        }
        match self.kind.bound {
            None => true,
            Some(most) => self.line.kept() < most,
        }
    }
}

/// What the seat of a waiting ticket holds once this request met it.
fn paired(met: Ticket, own: Option<u64>, ticket: Ticket, brought: Option<u64>) -> Hold<u64>
    ensures { result ≡ paired_hold (λ mark. mark) met own ticket brought }
{
    match own {
        Some(item) => Hold::Handed(met, ticket, item),
        None => match brought {
            Some(item) => Hold::Served(met, ticket, item),
            None => Hold::Free,
        },
    }
}
