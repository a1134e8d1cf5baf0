//! Wait queues with a place for each seat: one type over the end at which it is met. A seat has one pending request at
//! most, so its place is where its node stands, and a node is found by its seat without a search. Nodes that wait come
//! there alone.

ghost use Rattle.std.specs.Prelude.{◌≡◌, ◌≢◌, ◌+◌, ◌<◌, [], ◌∷◌, ◌++◌, All};
ghost use Rattle.meet_line.specs.Seated.{Fits};

use crate::line::Line;
use crate::met_at::{First, Last, MetAt};
use crate::seated::Seated;
use meet_tickets::{End, Entry, Refusal, SeatNo, Ticket};
use std::alloc::Global;
use std::marker::{Model, PhantomData};

/// A wait queue that is met at this end, with a place for each seat. A removal by ticket alone walks; one at its seat
/// doesn't.
#[derive(Drop)]
pub struct SeatLine<T, A: MetAt> {
    line: Seated<T>,
    /// How many nodes there may be without growth.
    limit: usize,
    at: PhantomData<A>,
}

/// The wait queue of a fair place, with a place for each seat.
pub type FairSeats<T> = SeatLine<T, First>;

/// The wait queue of an unfair place, with a place for each seat.
pub type StackSeats<T> = SeatLine<T, Last>;

impl<T, A: MetAt> Model for SeatLine<T, A> {
    ghost use Rattle.std.specs.Prelude.{◌-◌, ◌≤◌, length};
    ghost use Rattle.meet_line.specs.Seated.{Roomy};

    ghost Value = { Roomy T };

    ghost view = { λ line. record {
      entries = line.line.entries;
      room = line.limit - length line.line.entries;
      width = line.line.width;
    } };

    ghost invariant = { λ line. length line.line.entries ≤ line.limit };
}

impl<T, A: MetAt> Line<T> for SeatLine<T, A> {
    ghost entries = { λ line. line.entries };

    ghost spare = { λ line. line.room };

    ghost end = { A.end };

    ghost width = { λ line. line.width };

    ghost fits = { λ width line entry. Fits width line entry };

    ghost seated = { λ width line entry waits within free above.
        record { waits = waits; within = within; free = free } };

    fn empty(alloc: Global) -> Self {
        SeatLine {
            line: Seated::empty(alloc),
            limit: 0,
            at: PhantomData,
        }
    }

    fn widen(&mut self, seats: u64) -> Result<(), Refusal> {
        self.line.widen(seats as usize)
    }

    #[inline(always)]
    fn reserve(&mut self, count: u64) -> Result<(), Refusal> {
        let Some(limit) = self.line.len().checked_add(count as usize) else {
            return Err(Refusal::Memory);
        };
        if limit > self.limit {
            self.limit = limit;
        }
        Ok(())
    }

    #[inline(always)]
    fn push_back(&mut self, entry: Entry<T>)
        requires room { 0 < self.old.room }
        requires fresh { All (λ e. e.ticket ≢ entry.ticket) self.old.entries }
        requires fits { Fits self.old.width self.old.entries entry }
        ensures entries { self.new.entries ≡ self.old.entries ++ entry ∷ [] }
        ensures room { self.new.room + 1 ≡ self.old.room }
        ensures width { self.new.width ≡ self.old.width }
    {
        self.line.push_back(entry);
    }

    #[inline(always)]
    fn meet(&mut self) -> Option<Entry<T>> {
        match A::end() {
            End::Front => self.line.meet_first(),
            End::Back => self.line.meet_last(),
        }
    }

    fn remove(&mut self, ticket: Ticket) -> Option<Entry<T>> {
        self.line.remove(ticket)
    }

    fn remove_at(&mut self, seat: SeatNo, ticket: Ticket) -> Option<Entry<T>> {
        self.line.remove_at(seat, ticket)
    }

    fn first(&self) -> Option<&Entry<T>> {
        self.line.first()
    }

    fn entry(&self, ticket: Ticket) -> Option<&Entry<T>> {
        self.line.entry(ticket)
    }

    fn entry_at(&self, seat: SeatNo, ticket: Ticket) -> Option<&Entry<T>> {
        self.line.entry_at(seat, ticket)
    }

    fn list(&self, alloc: Global) -> Result<Vec<&Entry<T>>, Refusal> {
        self.line.list(alloc)
    }

    fn len(&self) -> u64 {
        self.line.len() as u64
    }

    fn room(&self) -> u64 {
        (self.limit - self.line.len()) as u64
    }

    fn destroy_empty(self) {
        let SeatLine {
            line,
            limit: _,
            at: _,
        } = self;
        line.destroy_empty();
    }
}
