//! A wait queue with a place for each seat. A node's seat is its key: it stands at its seat's place, linked to its
//! neighbours.

ghost use Rattle.std.specs.Prelude.{◌≡◌, ◌≢◌, ◌+◌, ◌<◌, ◌≤◌, ◌==◌, [], ◌∷◌, ◌++◌, List, length, map, find};
ghost use Rattle.std.specs.Prelude.{All, AllPairs, IsTrue, IsOk, IfOk, IfErr, OnOk, OnErr, Some, option_map};
ghost use Rattle.std.specs.Prelude.{option_to_list};
ghost use Rattle.std.specs.Slice.{IsItemAt};
ghost use Rattle.meet_tickets.specs.declared.lines.Entry.{Entry};
ghost use Rattle.meet_tickets.specs.Meeting.{met};
ghost use Rattle.meet_tickets.specs.BySeat.{unmet, without_first};
ghost use Rattle.meet_tickets.specs.declared.places.End.TheVariants.{Front, Back};
ghost use Rattle.meet_tickets.specs.declared.refusals.Refusal.TheVariants.{Memory};
ghost use Rattle.meet_line.specs.Seated.{first_seat, Sits, IsRisen, IsLastSeat, Fits, seat_found};

use crate::itemless::let_go_none;
use crate::nodes::Link;
use crate::spots::{Spot, link, unlink, widen_spots};
use meet_tickets::{Entry, Refusal, SeatNo, Ticket};
use std::alloc::Global;
use std::marker::Model;

/// Nodes in order of arrival, each at its seat's place. Only `widen` and `list` allocate.
#[derive(Drop)]
pub(crate) struct Seated<T> {
    first: Link,
    last: Link,
    len: usize,
    spots: Vec<Spot<T>>,
}

impl<T> Model for Seated<T> {
    ghost use Rattle.meet_line.specs.Seated.{Seated, IsSeated, seats_of, seated};

    ghost Value = { Seated T };

    ghost view = { λ s. seated s.spots.items s.first s.len };

    ghost invariant = { λ s.
        IsSeated s.spots.items s.first s.last s.len (seats_of s.spots.items s.first s.len) };
}

impl<T> Seated<T> {
    /// A line with nobody in it, and no place.
    pub(crate) fn empty(alloc: Global) -> Self
        ensures entries { result.entries ≡ [] }
        ensures width { result.width ≡ 0 }
    {
        Seated {
            first: Link::none(),
            last: Link::none(),
            len: 0,
            spots: Vec::new(alloc),
        }
    }

    /// How many nodes there are.
    #[inline(always)]
    pub(crate) fn len(&self) -> usize
        ensures count { result ≡ length self.now.entries }
        ensures distinct { AllPairs (λ e f. e.ticket ≢ f.ticket) self.now.entries }
    {
        self.len
    }

    /// Makes a place for each of this many seats.
    pub(crate) fn widen(&mut self, seats: usize) -> Result<(), Refusal>
        ensures entries { self.new.entries ≡ self.old.entries }
        ensures wide { OnOk result (seats ≤ self.new.width) }
        ensures width { self.old.width ≤ self.new.width }
        ensures unchanged { OnErr result (self.new ≡ self.old) }
        ensures memory { IfErr result (λ why. why ≡ Memory) }
    {
        if widen_spots(&mut self.spots, seats).is_err() {
            return Err(Refusal::Memory);
        }
        Ok(())
    }

    /// A node comes to the end.
    #[inline(always)]
    pub(crate) fn push_back(&mut self, entry: Entry<T>)
        requires fresh { All (λ e. e.ticket ≢ entry.ticket) self.old.entries }
        requires fits { Fits self.old.width self.old.entries entry }
        ensures entries { self.new.entries ≡ self.old.entries ++ entry ∷ [] }
        ensures width { self.new.width ≡ self.old.width }
    {
        let key = entry.seat.number() as usize;
        link(&mut self.spots, &mut self.first, &mut self.last, key, entry);
        self.len += 1;
    }

    /// The node of this seat leaves.
    #[inline(always)]
    fn take_out(&mut self, key: usize) -> Option<Entry<T>>
        requires { Sits self.old.entries key }
        ensures entries { IsRisen self.old.entries self.new.entries key result }
        ensures count { length self.new.entries + 1 ≡ length self.old.entries }
        ensures width { self.new.width ≡ self.old.width }
    {
        let taken = unlink(&mut self.spots, &mut self.first, &mut self.last, key);
        self.len -= 1;
        taken
    }

    /// The seat of the first node, if there is one.
    #[inline(always)]
    fn first_seat(&self) -> Option<usize>
        ensures { result ≡ first_seat self.now.entries }
    {
        self.first.key()
    }

    /// The seat of the last node, if there is one.
    #[inline(always)]
    fn last_seat(&self) -> Option<usize>
        ensures { IsLastSeat self.now.entries result }
    {
        self.last.key()
    }

    /// The seat of the node behind the one of this seat, if there is one.
    fn seat_after(&self, key: usize) -> Option<usize>
        requires { Sits self.now.entries key }
        ensures { (front : List (Entry T)) (e : Entry T) (rest : List (Entry T))
            → self.now.entries ≡ front ++ e ∷ rest → e.seat ≡ key → result ≡ first_seat rest }
    {
        self.spots[key].after.key()
    }

    /// The node of this seat.
    fn node_at(&self, key: usize) -> Option<&Entry<T>>
        requires { Sits self.now.entries key }
        ensures { (front : List (Entry T)) (e : Entry T) (rest : List (Entry T))
            → self.now.entries ≡ front ++ e ∷ rest → e.seat ≡ key → option_map (λ f. f.now) result ≡ Some e }
    {
        self.spots[key].entry.as_ref()
    }

    /// Whether the node of this seat, if there is one, is of this ticket.
    #[inline(always)]
    fn has(&self, key: usize, ticket: Ticket) -> bool
        ensures found { IsTrue result → seat_found self.now.entries ticket ≡ Some key }
        ensures own { (front : List (Entry T)) (e : Entry T) (rest : List (Entry T))
            → self.now.entries ≡ front ++ e ∷ rest → e.seat ≡ key → result ≡ (e.ticket == ticket) }
    {
        if key >= self.spots.len() {
            return false;
        }
        match &self.spots[key].entry {
            None => false,
            Some(entry) => entry.ticket == ticket,
        }
    }

    /// The seat of the node of this ticket, if it is there: by a walk from the first node on.
    fn find(&self, ticket: Ticket) -> Option<usize>
        ensures { result ≡ seat_found self.now.entries ticket }
    {
        let mut at = self.first_seat();
        for _step in 0..self.len() {
            let Some(key) = at else {
                return None;
            };
            if self.has(key, ticket) {
                return Some(key);
            }
            at = self.seat_after(key);
        }
        None
    }

    /// The first node leaves, if there is one.
    #[inline(always)]
    pub(crate) fn meet_first(&mut self) -> Option<Entry<T>>
        ensures entry { result ≡ met Front self.old.entries }
        ensures entries { self.new.entries ≡ unmet Front self.old.entries }
        ensures count { length self.new.entries + length (option_to_list result) ≡ length self.old.entries }
        ensures width { self.new.width ≡ self.old.width }
    {
        let key = self.first_seat()?;
        self.take_out(key)
    }

    /// The last node leaves, if there is one.
    // Not inlined as `meet_first` is: the line of each end has the text of both, and the compiler drops the attribute of
    // a caller that has grown too large.
    pub(crate) fn meet_last(&mut self) -> Option<Entry<T>>
        ensures entry { result ≡ met Back self.old.entries }
        ensures entries { self.new.entries ≡ unmet Back self.old.entries }
        ensures count { length self.new.entries + length (option_to_list result) ≡ length self.old.entries }
        ensures width { self.new.width ≡ self.old.width }
    {
        let key = self.last_seat()?;
        self.take_out(key)
    }

    /// The node of this ticket leaves, if it is there.
    pub(crate) fn remove(&mut self, ticket: Ticket) -> Option<Entry<T>>
        ensures entry { result ≡ find (λ e. e.ticket == ticket) self.old.entries }
        ensures entries { self.new.entries ≡ without_first (λ e. e.ticket == ticket) self.old.entries }
        ensures count { length self.new.entries + length (option_to_list result) ≡ length self.old.entries }
        ensures width { self.new.width ≡ self.old.width }
    {
        let key = self.find(ticket)?;
        self.take_out(key)
    }

    /// The same, and the place of this seat is looked at first.
    pub(crate) fn remove_at(&mut self, seat: SeatNo, ticket: Ticket) -> Option<Entry<T>>
        ensures entry { result ≡ find (λ e. e.ticket == ticket) self.old.entries }
        ensures entries { self.new.entries ≡ without_first (λ e. e.ticket == ticket) self.old.entries }
        ensures count { length self.new.entries + length (option_to_list result) ≡ length self.old.entries }
        ensures width { self.new.width ≡ self.old.width }
    {
        let key = seat.number() as usize;
        if self.has(key, ticket) {
            return self.take_out(key);
        }
        self.remove(ticket)
    }

    /// The node that came first, if anybody is there.
    #[inline(always)]
    pub(crate) fn first(&self) -> Option<&Entry<T>>
        ensures { IsItemAt self.now.entries 0 result }
    {
        let key = self.first_seat()?;
        self.node_at(key)
    }

    /// The node of this ticket, if it is there.
    pub(crate) fn entry(&self, ticket: Ticket) -> Option<&Entry<T>>
        ensures { option_map (λ e. e.now) result ≡ find (λ e. e.ticket == ticket) self.now.entries }
    {
        let key = self.find(ticket)?;
        self.node_at(key)
    }

    /// The same, and the place of this seat is looked at first.
    pub(crate) fn entry_at(&self, seat: SeatNo, ticket: Ticket) -> Option<&Entry<T>>
        ensures { option_map (λ e. e.now) result ≡ find (λ e. e.ticket == ticket) self.now.entries }
    {
        let key = seat.number() as usize;
        if self.has(key, ticket) {
            return self.node_at(key);
        }
        self.entry(ticket)
    }

    /// The nodes in order of arrival, borrowed. Fails only if an allocation fails.
    pub(crate) fn list(&self, alloc: Global) -> Result<Vec<&Entry<T>>, Refusal>
        ensures entries { IfOk result (λ list. map (λ e. e.now) list.items ≡ self.now.entries) }
        ensures memory { IfErr result (λ why. why ≡ Memory) }
    {
        let Ok(mut list) = Vec::with_capacity(alloc, self.len()) else {
            return Err(Refusal::Memory);
        };
        let mut at = self.first_seat();
        for _step in 0..self.len() {
            if let Some(key) = at {
                if let Some(entry) = self.node_at(key) {
                    list.push_reserved(entry);
                }
                at = self.seat_after(key);
            }
        }
        Ok(list)
    }

    /// Lets an empty line go, also where its items can't be dropped.
    pub(crate) fn destroy_empty(self)
        requires { self.entries ≡ [] }
    {
        let Seated {
            first: _,
            last: _,
            len: _,
            mut spots,
        } = self;
        while let Some(spot) = spots.pop() {
            let Spot {
                entry,
                before: _,
                after: _,
            } = spot;
            let_go_none(entry);
        }
        spots.destroy_empty();
    }
}
