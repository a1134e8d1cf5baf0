//! The wait queue of a transfer queue. Nodes that wait stand at their seats' places; the others, buffered items, stand
//! in a ring, since there may be many of one seat. Each of both is kept in order of arrival, and which of two came first
//! is known by their tickets. So no call but `list` and a removal by a walk takes longer if many items are buffered.

ghost use Rattle.std.specs.Prelude.{◌≡◌, ◌≢◌, ◌+◌, ◌<◌, ◌≤◌, [], ◌∷◌, ◌++◌, All, IfErr, OnOk, OnErr};
ghost use Rattle.std.proofs.Common.{◌∙◌, sym, true≢false};
ghost use Rattle.meet_tickets.specs.declared.places.End.TheVariants.{Front};
ghost use Rattle.meet_tickets.specs.declared.refusals.Refusal.TheVariants.{Memory};
ghost use Rattle.meet_line.specs.Merged.{merged, Comes, is_buffered_next};

use crate::line::{BufferLine, Line};
use crate::merged::{is_next, merge};
use crate::ring_line::FairRing;
use crate::seated::Seated;
use meet_tickets::{Entry, Refusal, SeatNo, Ticket};
use std::alloc::Global;
use std::marker::Model;

/// The wait queue of a transfer queue, whose first node is met. Tickets rise in it. A removal by ticket alone walks; one
/// of a node that waits, at its seat, doesn't.
#[derive(Drop)]
pub struct TransferLine<T> {
    /// The nodes that wait.
    seats: Seated<T>,
    /// The buffered items. It has room for as many more as wait, since a node that leaves gives its room back.
    ring: FairRing<T>,
}

impl<T> Model for TransferLine<T> {
    ghost use Rattle.std.specs.Prelude.{◌-◌, length};
    ghost use Rattle.meet_line.specs.Merged.{Merged, IsMerged};

    ghost Value = { Merged T };

    ghost view = { λ line. record {
      waiting = line.seats.entries;
      buffered = line.ring.entries;
      room = line.ring.room - length line.seats.entries;
      width = line.seats.width;
    } };

    ghost invariant = { λ line. IsMerged line.seats.entries line.ring.entries line.ring.room };
}

impl<T> TransferLine<T> {
    /// Whether the node that came first is a buffered item.
    #[inline(always)]
    fn is_buffered_next(&self) -> bool
        ensures { result ≡ is_buffered_next self.now.waiting self.now.buffered }
    {
        is_next(self.seats.first(), self.ring.first())
    }

    /// Makes room for this many more nodes, if there isn't that room yet.
    #[inline(never)]
    fn grow(&mut self, count: u64) -> Result<(), Refusal>
        requires { self.old.room < count }
        ensures waiting { self.new.waiting ≡ self.old.waiting }
        ensures buffered { self.new.buffered ≡ self.old.buffered }
        ensures room { OnOk result (count ≤ self.new.room) }
        ensures width { self.new.width ≡ self.old.width }
        ensures unchanged { OnErr result (self.new.room ≡ self.old.room) }
        ensures memory { IfErr result (λ why. why ≡ Memory) }
    {
        let Some(all) = count.checked_add(self.seats.len() as u64) else {
            return Err(Refusal::Memory);
        };
        self.ring.reserve(all)
    }
}

impl<T> Line<T> for TransferLine<T> {
    ghost entries = { λ line. merged line.waiting line.buffered };

    ghost spare = { λ line. line.room };

    ghost end = { Front };

    ghost width = { λ line. line.width };

    ghost fits = { λ width line entry. Comes width line entry };

    ghost seated = { λ width line entry waits within free above.
        record { above = above; seated = λ _. record { waits = waits; within = within; free = free } } };

    fn empty(alloc: Global) -> Self {
        TransferLine {
            seats: Seated::empty(alloc),
            ring: FairRing::empty(alloc),
        }
    }

    fn widen(&mut self, seats: u64) -> Result<(), Refusal> {
        self.seats.widen(seats as usize)
    }

    #[inline(always)]
    fn reserve(&mut self, count: u64) -> Result<(), Refusal> {
        if count <= self.room() {
            return Ok(());
        }
        self.grow(count)
    }

    #[inline(always)]
    fn push_back(&mut self, entry: Entry<T>)
        requires room { 0 < self.old.room }
        requires fresh { All (λ e. e.ticket ≢ entry.ticket) (merged self.old.waiting self.old.buffered) }
        requires fits { Comes self.old.width (merged self.old.waiting self.old.buffered) entry }
        ensures entries { merged self.new.waiting self.new.buffered
            ≡ merged self.old.waiting self.old.buffered ++ entry ∷ [] }
        ensures room { self.new.room + 1 ≡ self.old.room }
        ensures width { self.new.width ≡ self.old.width }
    {
        if entry.waits {
            self.seats.push_back(entry);
        } else {
            self.ring.push_back(entry);
        }
    }

    #[inline(always)]
    fn meet(&mut self) -> Option<Entry<T>> {
        if self.is_buffered_next() {
            self.ring.meet()
        } else {
            self.seats.meet_first()
        }
    }

    fn remove(&mut self, ticket: Ticket) -> Option<Entry<T>> {
        match self.seats.remove(ticket) {
            Some(entry) => Some(entry),
            None => self.ring.remove(ticket),
        }
    }

    fn remove_at(&mut self, seat: SeatNo, ticket: Ticket) -> Option<Entry<T>> {
        match self.seats.remove_at(seat, ticket) {
            Some(entry) => Some(entry),
            None => self.ring.remove_at(seat, ticket),
        }
    }

    fn first(&self) -> Option<&Entry<T>> {
        if self.is_buffered_next() {
            self.ring.first()
        } else {
            self.seats.first()
        }
    }

    fn entry(&self, ticket: Ticket) -> Option<&Entry<T>> {
        match self.seats.entry(ticket) {
            Some(entry) => Some(entry),
            None => self.ring.entry(ticket),
        }
    }

    fn entry_at(&self, seat: SeatNo, ticket: Ticket) -> Option<&Entry<T>> {
        match self.seats.entry_at(seat, ticket) {
            Some(entry) => Some(entry),
            None => self.ring.entry_at(seat, ticket),
        }
    }

    fn list(&self, alloc: Global) -> Result<Vec<&Entry<T>>, Refusal> {
        let Ok(waiting) = self.seats.list(alloc) else {
            return Err(Refusal::Memory);
        };
        let Ok(buffered) = self.ring.list(alloc) else {
            return Err(Refusal::Memory);
        };
        merge(alloc, &waiting, &buffered)
    }

    fn len(&self) -> u64 {
        self.ring.len() + self.seats.len() as u64
    }

    #[inline(always)]
    fn room(&self) -> u64 {
        self.ring.room() - self.seats.len() as u64
    }

    fn destroy_empty(self) {
        let TransferLine { seats, ring } = self;
        seats.destroy_empty();
        ring.destroy_empty();
    }
}

impl<T> BufferLine<T> for TransferLine<T> {
    ghost any = { λ width line entry kept above.
        record { above = above; seated = λ waits. absurd (true≢false (sym waits ∙ kept)) } };
}
