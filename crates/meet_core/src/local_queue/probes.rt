//! The read-only queries of a queue, each at constant cost but `awaits`, which looks for a ticket in the wait queue if
//! nodes don't have the places of their seats. None of these allocates.

ghost use Rattle.std.specs.Prelude.{◌+◌, ◌≡◌, ◌≤◌, ◌-◌, ◌↔◌, IsOk, IfOk, IfErr, OnOk, OnErr, IsTrue};
ghost use Rattle.std.specs.Prelude.{option_map, slice_get};
ghost use Rattle.std.specs.Option.{option_and_then};
ghost use Rattle.meet_tickets.specs.Meeting.{waiting_count, kept_count, count_on};
ghost use Rattle.meet_tickets.specs.BySeat.{open_ticket, owed_of, settled_of};
ghost use Rattle.meet_tickets.specs.Limits.{most_seats, last_ticket};
ghost use Rattle.meet_tickets.specs.declared.refusals.Refusal.TheVariants.{TicketsSpent};
ghost use Rattle.meet_tickets.specs.declared.places.Side.TheVariants.{Giver, Taker};

use crate::local_queue::{Buffers, LocalQueue};
use meet_line::Line;
use meet_tickets::{Marked, Refusal, SeatNo, Ticket};

impl<T: Marked, L: Line<T>, K: Buffers<T, L>> LocalQueue<T, L, K> {
    ghost use Rattle.meet_core.specs.Awaits.{AwaitsAs};
    ghost use Rattle.meet_line.specs.Sound.{IsSound};
    ghost use Rattle.meet_core.specs.Queue.{seats_of, count_of};

    /// Returns how many items are buffered at most, or none.
    pub fn bound(&self) -> Option<u64>
        ensures { result ≡ self.now.bound }
    {
        self.bound
    }

    /// Returns true if the seat's open ticket is this one, with this mark. While its item lies here, since it waits or
    /// was interrupted, the item has to have this mark, or there has to be none if this is none. A ticket that waits is
    /// looked for in the wait queue, at its seat first.
    #[inline(always)]
    pub fn awaits(&self, seat: SeatNo, ticket: Ticket, mark: Option<u64>) -> bool
        ensures { IsTrue result ↔ AwaitsAs T.mark_of (seats_of self.now.queue) seat ticket mark }
    {
        self.meetings.awaits(seat, ticket, mark)
    }

    /// Returns the seat's open ticket, if it has one. That of a buffered item never is.
    pub fn open_ticket(&self, seat: SeatNo) -> Option<Ticket>
        ensures { result ≡ open_ticket ((seats_of self.now.queue).holds seat) }
    {
        self.meetings.open_ticket(seat)
    }

    /// Returns how many seats there are.
    pub fn seats(&self) -> u64
        ensures { result ≡ count_of self.now.queue }
    {
        self.meetings.seats()
    }

    /// Returns for how many more requests that wait or leave their item buffered there is room.
    pub fn room(&self) -> u64
        ensures { result ≡ self.now.queue.room }
    {
        self.meetings.room()
    }

    /// Returns how many requests are pending. A buffered item reserves no record.
    pub fn owed(&self) -> u64
        ensures value { result ≡ owed_of (count_of self.now.queue) (seats_of self.now.queue).holds }
        ensures few { result ≤ most_seats }
    {
        self.meetings.owed()
    }

    /// Returns how many pending requests stand in the wait queue.
    pub fn waiting(&self) -> u64
        ensures { result ≡ waiting_count self.now.queue.line }
    {
        self.meetings.waiting()
    }

    /// Returns how many pending requests were matched or interrupted, and await their follow-up.
    pub fn uncollected(&self) -> u64
        ensures { result ≡ settled_of (count_of self.now.queue) (seats_of self.now.queue).holds }
    {
        self.meetings.uncollected()
    }

    /// Returns how many items are buffered: their producers went on. No more are than may be.
    pub fn kept(&self) -> u64
        ensures value { result ≡ kept_count self.now.queue.line }
        ensures allowed { K.allows result }
    {
        self.meetings.kept()
    }

    /// Returns how many producers stand in the wait queue, buffered items included.
    pub fn givers(&self) -> u64
        ensures { result ≡ count_on Giver self.now.queue.line }
    {
        self.meetings.givers()
    }

    /// Returns how many consumers stand in the wait queue.
    pub fn takers(&self) -> u64
        ensures { result ≡ count_on Taker self.now.queue.line }
    {
        self.meetings.takers()
    }

    /// Returns the mark of the first item in the wait queue, buffered or waiting.
    pub fn first_mark(&self) -> Option<u64>
        ensures { result ≡ option_and_then (λ e. option_map T.mark_of e.item) (slice_get self.now.queue.line 0) }
    {
        self.meetings.first_mark()
    }

    /// Uses up the next ticket, and changes nothing else.
    ///
    /// # Errors
    /// - TicketsSpent, exactly if none is left: nothing has changed.
    pub fn draw(&mut self) -> Result<Ticket, Refusal>
        ensures ticket { IfOk result (λ ticket. ticket ≡ self.old.queue.next) }
        ensures tickets { IsOk result ↔ (self.old.queue.next ≤ last_ticket) }
        ensures next { OnOk result (self.new ≡ record self.old {
          queue = record self.old.queue { last = self.old.queue.next; next = self.old.queue.next + 1 };
        }) }
        ensures why { IfErr result (λ why. why ≡ TicketsSpent) }
        ensures unchanged { OnErr result (self.new ≡ self.old) }
    {
        self.meetings.spend()
    }

    /// Returns how many tickets are left.
    pub fn tickets_left(&self) -> u64
        ensures { result ≡ last_ticket + 1 - self.now.queue.next }
    {
        self.meetings.tickets_left()
    }

    /// States what is always true of a queue. Each node of its wait queue has a used ticket. A node that waits is what
    /// its seat holds; one that is buffered has an item, and no seat has its ticket open. No two share a ticket, and
    /// all have one side. No more items are buffered than may be. It does nothing.
    pub fn stays_sound(&self)
        ensures sound { IsSound self.now.queue.line (seats_of self.now.queue).holds self.now.queue.next }
        ensures allowed { K.allows (kept_count self.now.queue.line) }
    {
        self.meetings.stays_sound();
    }
}
