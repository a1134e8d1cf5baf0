//! The read-only queries of a queue, each at constant cost but `awaits`, which looks for a ticket in the wait queue if
//! nodes don't have the places of their seats. None of these allocates.

ghost use Rattle.std.specs.Prelude.{◌+◌, ◌≡◌, ◌≤◌, ◌-◌, ◌↔◌, IsTrue, option_map, slice_get};
ghost use Rattle.std.specs.Option.{option_and_then};
ghost use Rattle.meet_tickets.specs.Meeting.{waiting_count, kept_count, count_on};
ghost use Rattle.meet_tickets.specs.BySeat.{open_ticket, owed_of, settled_of};
ghost use Rattle.meet_tickets.specs.Limits.{most_seats, last_ticket};
ghost use Rattle.meet_tickets.specs.declared.places.Side.TheVariants.{Giver, Taker};

use crate::meetings::Meetings;
use meet_line::{Line, mark_of};
use meet_tickets::{Hold, LAST_TICKET, Marked, SeatNo, Side, Ticket};

/// Whether an item has this mark, or there is none where this is none.
fn has_mark<T: Marked>(item: &Option<T>, mark: Option<u64>) -> bool
    ensures { IsTrue result ↔ (option_map T.mark_of item.now ≡ mark) }
{
    mark_of(item) == mark
}

impl<T: Marked, L: Line<T>> Meetings<T, L> {
    ghost use Rattle.meet_core.specs.Awaits.{AwaitsAs};
    ghost use Rattle.meet_line.specs.Sound.{IsSound};
    ghost use Rattle.meet_core.specs.Queue.{seats_of, count_of};

    /// Returns the seat's open ticket, if it has one.
    #[inline(always)]
    pub fn open_ticket(&self, seat: SeatNo) -> Option<Ticket>
        ensures { result ≡ open_ticket ((seats_of self.now).holds seat) }
    {
        if seat.number() < self.seats.count() {
            self.seats.hold(seat).open_ticket()
        } else {
            None
        }
    }

    /// Returns the seat whose hold was changed last, if there is one: after a match or an interrupt, that of the
    /// request that waited; none after a buffered item was taken. It is a hint, of which nothing is promised.
    pub fn changed(&self) -> Option<SeatNo> {
        self.seats.changed()
    }

    /// Returns true if the seat's open ticket is this one, with this mark. While its item lies here, since it waits or
    /// was interrupted, the item has to have this mark, or there has to be none if this is none. A ticket that waits is
    /// looked for in the wait queue, at its seat first.
    #[inline(always)]
    pub fn awaits(&self, seat: SeatNo, ticket: Ticket, mark: Option<u64>) -> bool
        ensures { IsTrue result ↔ AwaitsAs T.mark_of (seats_of self.now) seat ticket mark }
    {
        if self.open_ticket(seat) != Some(ticket) {
            return false;
        }
        match self.seats.hold(seat) {
            Hold::Waiting(_) => match self.line.entry_at(seat, ticket) {
                Some(entry) => has_mark(&entry.item, mark),
                None => true,
            },
            Hold::Cut(_, item) => has_mark(item, mark),
            Hold::Free | Hold::Handed(_, _, _) | Hold::Served(_, _, _) => true,
        }
    }

    /// Returns how many seats there are.
    pub fn seats(&self) -> u64
        ensures { result ≡ count_of self.now }
    {
        self.seats.count()
    }

    /// Returns for how many more nodes of the wait queue there is room.
    pub fn room(&self) -> u64
        ensures { result ≡ self.now.room }
    {
        self.line.room()
    }

    /// Returns how many requests are pending.
    pub fn owed(&self) -> u64
        ensures value { result ≡ owed_of (count_of self.now) (seats_of self.now).holds }
        ensures few { result ≤ most_seats }
    {
        self.seats.owed()
    }

    /// Returns how many pending requests stand in the wait queue.
    pub fn waiting(&self) -> u64
        ensures { result ≡ waiting_count self.now.line }
    {
        self.line.len() - self.kept
    }

    /// Returns how many items are buffered: their producers went on.
    pub fn kept(&self) -> u64
        ensures { result ≡ kept_count self.now.line }
    {
        self.kept
    }

    /// Returns how many pending requests were matched or interrupted, and await their follow-up.
    pub fn uncollected(&self) -> u64
        ensures { result ≡ settled_of (count_of self.now) (seats_of self.now).holds }
    {
        self.seats.settled()
    }

    /// Returns how many producers stand in the wait queue.
    pub fn givers(&self) -> u64
        ensures { result ≡ count_on Giver self.now.line }
    {
        self.givers
    }

    /// Returns how many consumers stand in the wait queue.
    pub fn takers(&self) -> u64
        ensures { result ≡ count_on Taker self.now.line }
    {
        self.line.len() - self.givers
    }

    /// Returns the mark of the item that came first, if producers stand in the wait queue.
    pub fn first_mark(&self) -> Option<u64>
        ensures { result ≡ option_and_then (λ e. option_map T.mark_of e.item) (slice_get self.now.line 0) }
    {
        let first = self.line.first()?;
        mark_of(&first.item)
    }

    /// Returns how many tickets are left.
    pub fn tickets_left(&self) -> u64
        ensures { result ≡ last_ticket + 1 - self.now.next }
    {
        LAST_TICKET + 1 - self.next
    }

    /// States what is always true of a queue. Each node of its wait queue has a used ticket. A node that waits is what
    /// its seat holds; one that is buffered has an item, and no seat has its ticket open. No two share a ticket, and
    /// all have one side. It does nothing.
    pub fn stays_sound(&self)
        ensures { IsSound self.now.line (seats_of self.now).holds self.now.next }
    {
        let _ = &self.line;
    }
}
