//! The wait queues of fair and of unfair places: one type over the end at which it is met. The first node is met first,
//! or the last.

ghost use Rattle.std.specs.Prelude.{◌≡◌, ◌≢◌, ◌+◌, ◌*◌, ◌<◌, ◌≤◌, ◌==◌, ◌⊎◌, [], ◌∷◌, ◌++◌, All, find, length};
ghost use Rattle.std.specs.Prelude.{IsOk, IfErr, OnOk, OnErr, ⊤, option_to_list};
ghost use Rattle.meet_tickets.specs.Limits.{most_seats};
ghost use Rattle.meet_tickets.specs.BySeat.{unmet, without_first};
ghost use Rattle.meet_tickets.specs.Meeting.{met};
ghost use Rattle.meet_tickets.specs.declared.refusals.Refusal.TheVariants.{Memory};
ghost use Rattle.meet_line.specs.Rolled.{IsTableSize};
ghost use Rattle.meet_line.specs.Stored.{fellows, IsLookedAt};

use crate::line::{BufferLine, Line};
use crate::linked::Linked;
use crate::met_at::{First, Last, MetAt};
use meet_tickets::{End, Entry, Refusal, SeatNo, Ticket};
use std::alloc::Global;
use std::marker::{Model, PhantomData};

/// A wait queue that is met at this end. Nodes are found in buckets by their tickets, and leave without a walk.
#[derive(Drop)]
pub struct EndLine<T, A: MetAt> {
    line: Linked<T>,
    at: PhantomData<A>,
}

/// The wait queue of a fair place, whose first node is met.
pub type FairLine<T> = EndLine<T, First>;

/// The wait queue of an unfair place, whose last node is met.
pub type StackLine<T> = EndLine<T, Last>;

impl<T, A: MetAt> Model for EndLine<T, A> {
    ghost use Rattle.meet_line.specs.Stored.{Bucketed};

    ghost Value = { Bucketed T };

    ghost view = { λ line. line.line };
}

impl<T, A: MetAt> EndLine<T, A> {
    /// Returns how many nodes the last removal looked at: the ticket's own, and those of its bucket that came later;
    /// all of its bucket, if the ticket wasn't there; 0 before the first removal.
    pub fn looks(&self) -> u64
        ensures { result ≡ self.now.looked }
    {
        self.line.looks() as u64
    }

    /// Returns how many buckets there are: none before room is first made, and then a power of two, not below the
    /// number of the nodes and those that may come without growth.
    pub fn buckets(&self) -> u64
        ensures count { result ≡ self.now.buckets }
        ensures size { IsTableSize result }
        ensures enough { length self.now.entries + self.now.room ≤ result }
    {
        self.line.buckets() as u64
    }
}

impl<T, A: MetAt> Line<T> for EndLine<T, A> {
    ghost entries = { λ line. line.entries };

    ghost spare = { λ line. line.room };

    ghost end = { A.end };

    ghost width = { λ line. most_seats };

    ghost fits = { λ width line entry. ⊤ };

    ghost seated = { λ width line entry waits within free above. tt };

    fn empty(alloc: Global) -> Self
        ensures entries { result.entries ≡ [] }
        ensures room { result.room ≡ 0 }
        ensures looked { result.looked ≡ 0 }
        ensures buckets { result.buckets ≡ 0 }
    {
        EndLine {
            line: Linked::empty(alloc),
            at: PhantomData,
        }
    }

    fn widen(&mut self, seats: u64) -> Result<(), Refusal> {
        let _ = seats;
        Ok(())
    }

    fn reserve(&mut self, count: u64) -> Result<(), Refusal>
        ensures entries { self.new.entries ≡ self.old.entries }
        ensures room { OnOk result (count ≤ self.new.room) }
        ensures more { self.old.room ≤ self.new.room }
        ensures unchanged { OnErr result (self.new.room ≡ self.old.room) }
        ensures memory { IfErr result (λ why. why ≡ Memory) }
        ensures enough { count ≤ self.old.room → IsOk result }
        ensures same { count ≤ self.old.room → self.new ≡ self.old }
        ensures looked { self.new.looked ≡ self.old.looked }
        ensures buckets { self.old.buckets ≤ self.new.buckets }
        ensures few { (self.new.buckets ≡ self.old.buckets)
            ⊎ (self.new.buckets < 2 * (length self.old.entries + count)) }
        ensures failed { OnErr result (self.new.buckets ≡ self.old.buckets) }
    {
        self.line.reserve(count as usize)
    }

    #[inline(always)]
    fn push_back(&mut self, entry: Entry<T>)
        requires room { 0 < self.old.room }
        requires fresh { All (λ e. e.ticket ≢ entry.ticket) self.old.entries }
        ensures entries { self.new.entries ≡ self.old.entries ++ entry ∷ [] }
        ensures room { self.new.room + 1 ≡ self.old.room }
        ensures looked { self.new.looked ≡ self.old.looked }
        ensures buckets { self.new.buckets ≡ self.old.buckets }
    {
        self.line.push_back(entry);
    }

    #[inline(always)]
    fn meet(&mut self) -> Option<Entry<T>>
        ensures entry { result ≡ met A.end self.old.entries }
        ensures entries { self.new.entries ≡ unmet A.end self.old.entries }
        ensures room { self.new.room ≡ self.old.room + length (option_to_list result) }
        ensures looked { self.new.looked ≡ self.old.looked }
        ensures buckets { self.new.buckets ≡ self.old.buckets }
    {
        match A::end() {
            End::Front => self.line.meet_first(),
            End::Back => self.line.meet_last(),
        }
    }

    fn remove(&mut self, ticket: Ticket) -> Option<Entry<T>>
        ensures entry { result ≡ find (λ e. e.ticket == ticket) self.old.entries }
        ensures entries { self.new.entries ≡ without_first (λ e. e.ticket == ticket) self.old.entries }
        ensures room { self.new.room ≡ self.old.room + length (option_to_list result) }
        ensures looked { IsLookedAt self.old.buckets ticket self.old.entries result self.new.looked }
        ensures few { self.new.looked ≤ fellows self.old.buckets ticket self.old.entries }
        ensures buckets { self.new.buckets ≡ self.old.buckets }
    {
        self.line.remove(ticket)
    }

    fn remove_at(&mut self, seat: SeatNo, ticket: Ticket) -> Option<Entry<T>> {
        let _ = seat;
        self.remove(ticket)
    }

    fn first(&self) -> Option<&Entry<T>> {
        self.line.first()
    }

    fn entry(&self, ticket: Ticket) -> Option<&Entry<T>> {
        self.line.entry(ticket)
    }

    fn entry_at(&self, seat: SeatNo, ticket: Ticket) -> Option<&Entry<T>> {
        let _ = seat;
        self.entry(ticket)
    }

    fn list(&self, alloc: Global) -> Result<Vec<&Entry<T>>, Refusal> {
        self.line.list(alloc)
    }

    fn len(&self) -> u64 {
        self.line.len() as u64
    }

    fn room(&self) -> u64 {
        self.line.room() as u64
    }

    fn destroy_empty(self) {
        let EndLine { line, at: _ } = self;
        line.destroy_empty();
    }
}

impl<T, A: MetAt> BufferLine<T> for EndLine<T, A> {
    ghost any = { λ width line entry waits above. tt };
}
