//! Wait queues in a ring: one type over the end at which it is met. If nodes leave at that end, as the buffered jobs of
//! a pool do, it writes less than a wait queue of linked nodes: a node is written once, and nothing else. A node that
//! leaves from elsewhere is looked for from the first one on, and those on one side of it move.

ghost use Rattle.std.specs.Prelude.{◌≡◌, ◌≢◌, ◌+◌, ◌^◌, ◌<◌, ⊤, [], ◌∷◌, ◌++◌, All, AllPairs, length};
ghost use Rattle.meet_tickets.specs.Limits.{most_seats};

use crate::line::{BufferLine, Line};
use crate::met_at::{First, Last, MetAt};
use meet_tickets::{End, Entry, Refusal, SeatNo, Ticket};
use std::alloc::Global;
use std::collections::VecDeque;
use std::marker::{Model, PhantomData};

/// A wait queue that is met at this end, in a ring. Taking from an end moves nothing; a removal from elsewhere walks.
#[derive(Drop)]
pub struct RingLine<T, A: MetAt> {
    entries: VecDeque<Entry<T>>,
    room: usize,
    at: PhantomData<A>,
}

/// A ring whose first node is met.
pub type FairRing<T> = RingLine<T, First>;

/// A ring whose last node is met.
pub type StackRing<T> = RingLine<T, Last>;

impl<T, A: MetAt> Model for RingLine<T, A> {
    ghost use Rattle.std.specs.Prelude.{◌≡◌, ◌≢◌, ◌+◌, ◌≤◌, AllPairs};
    ghost use Rattle.std.specs.VecDeque.{deque_len, deque_capacity};
    ghost use Rattle.meet_line.specs.Lined.{Lined};

    ghost Value = { Lined T };

    ghost view = { λ line. record { entries = line.entries.items; room = line.room } };

    ghost invariant = { λ line. (deque_len line.entries + line.room ≤ deque_capacity line.entries)
        × AllPairs (λ e f. e.ticket ≢ f.ticket) line.entries.items };
}

impl<T, A: MetAt> Line<T> for RingLine<T, A> {
    ghost entries = { λ line. line.entries };

    ghost spare = { λ line. line.room };

    ghost end = { A.end };

    ghost width = { λ line. most_seats };

    ghost fits = { λ width line entry. ⊤ };

    ghost seated = { λ width line entry waits within free above. tt };

    fn empty(alloc: Global) -> Self {
        RingLine {
            entries: VecDeque::new(alloc),
            room: 0,
            at: PhantomData,
        }
    }

    fn widen(&mut self, seats: u64) -> Result<(), Refusal> {
        let _ = seats;
        Ok(())
    }

    #[inline(always)]
    fn reserve(&mut self, count: u64) -> Result<(), Refusal> {
        let count = count as usize;
        if count > self.room {
            if self.entries.reserve(count).is_err() {
                return Err(Refusal::Memory);
            }
            self.room = self.entries.capacity() - self.entries.len();
        }
        Ok(())
    }

    #[inline(always)]
    fn push_back(&mut self, entry: Entry<T>)
        requires room { 0 < self.old.room }
        requires fresh { All (λ e. e.ticket ≢ entry.ticket) self.old.entries }
        ensures entries { self.new.entries ≡ self.old.entries ++ entry ∷ [] }
        ensures room { self.new.room + 1 ≡ self.old.room }
    {
        self.entries.push_back_reserved(entry);
        self.room -= 1;
    }

    #[inline(always)]
    fn meet(&mut self) -> Option<Entry<T>> {
        let met = match A::end() {
            End::Front => self.entries.pop_front()?,
            End::Back => self.entries.pop_back()?,
        };
        self.room += 1;
        Some(met)
    }

    fn remove(&mut self, ticket: Ticket) -> Option<Entry<T>> {
        let index = self
            .entries
            .iter()
            .position(|entry| entry.ticket == ticket)?;
        let removed = self.entries.remove(index)?;
        self.room += 1;
        Some(removed)
    }

    fn remove_at(&mut self, seat: SeatNo, ticket: Ticket) -> Option<Entry<T>> {
        let _ = seat;
        self.remove(ticket)
    }

    #[inline(always)]
    fn first(&self) -> Option<&Entry<T>> {
        self.entries.front()
    }

    fn entry(&self, ticket: Ticket) -> Option<&Entry<T>> {
        self.entries.iter().find(|entry| entry.ticket == ticket)
    }

    fn entry_at(&self, seat: SeatNo, ticket: Ticket) -> Option<&Entry<T>> {
        let _ = seat;
        self.entry(ticket)
    }

    fn list(&self, alloc: Global) -> Result<Vec<&Entry<T>>, Refusal> {
        match self.entries.iter().collect(alloc) {
            Ok(list) => Ok(list),
            Err(_) => Err(Refusal::Memory),
        }
    }

    fn len(&self) -> u64
        ensures count { result ≡ length self.now.entries }
        ensures distinct { AllPairs (λ e f. e.ticket ≢ f.ticket) self.now.entries }
        ensures few { length self.now.entries + self.now.room < 2 ^ 64 }
    {
        self.entries.len() as u64
    }

    fn room(&self) -> u64 {
        self.room as u64
    }

    fn destroy_empty(self) {
        let RingLine {
            entries,
            room: _,
            at: _,
        } = self;
        entries.destroy_empty();
    }
}

impl<T, A: MetAt> BufferLine<T> for RingLine<T, A> {
    ghost any = { λ width line entry waits above. tt };
}
