//! A wait queue whose nodes are linked to their neighbours, and found in buckets by their tickets.

ghost use Rattle.std.specs.Prelude.{◌≡◌, ◌≢◌, ◌+◌, ◌*◌, ◌<◌, ◌≤◌, ◌==◌, ◌⊎◌, [], ◌∷◌, ◌++◌, length, map, find};
ghost use Rattle.std.specs.Prelude.{All, AllPairs, IsOk, IfOk, IfErr, OnOk, OnErr, None};
ghost use Rattle.std.specs.Prelude.{option_map, option_to_list, slice_set};
ghost use Rattle.std.specs.Slice.{IsItemAt};
ghost use Rattle.meet_tickets.specs.Meeting.{met};
ghost use Rattle.meet_tickets.specs.BySeat.{unmet, without_first};
ghost use Rattle.meet_tickets.specs.declared.places.End.TheVariants.{Front, Back};
ghost use Rattle.meet_tickets.specs.declared.refusals.Refusal.TheVariants.{Memory};
ghost use Rattle.meet_line.specs.Rolled.{StandsAt, IsLeft, IsTableSize};
ghost use Rattle.meet_line.specs.Stored.{slot_at, entries_of, Holds, fellows, IsLookedAt};

use crate::itemless::let_go_none;
use crate::roll::Roll;
use meet_tickets::{Entry, Refusal, Ticket};
use std::alloc::Global;
use std::marker::Model;

/// Entries in order of arrival. Only `reserve` allocates. What each call writes stands last, in the roll too.
#[derive(Drop)]
pub(crate) struct Linked<T> {
    slots: Vec<Option<Entry<T>>>,
    looked: usize,
    roll: Roll,
    room: usize,
}

impl<T> Model for Linked<T> {
    ghost use Rattle.meet_line.specs.Stored.{Bucketed};

    ghost Value = { Bucketed T };

    ghost use Rattle.meet_line.specs.Stored.{entries_of, IsStored};

    ghost view = { λ l. record {
      entries = entries_of l.slots.items l.roll.places;
      room = l.room;
      buckets = l.roll.buckets;
      looked = l.looked;
    } };

    ghost invariant = { λ l. IsStored l.roll l.slots.items l.room };
}

/// The entry under this key leaves the roll and its slot.
#[inline(always)]
fn take_out<T>(roll: &mut Roll, slots: &mut Vec<Option<Entry<T>>>, key: usize) -> Option<Entry<T>>
    requires stands { StandsAt roll.old.places key }
    requires holds { Holds slots.old.items roll.old.places }
    requires wide { key < length slots.old.items }
    ensures entry { result ≡ slot_at slots.old.items key }
    ensures places { IsLeft roll.old.places roll.new.places key }
    ensures slots { slots.new.items ≡ slice_set slots.old.items key None }
    ensures width { roll.new.width ≡ roll.old.width }
    ensures buckets { roll.new.buckets ≡ roll.old.buckets }
{
    roll.remove(key);
    slots[key].take()
}

impl<T> Linked<T> {
    /// A line with nobody in it, and no room.
    pub(crate) fn empty(alloc: Global) -> Self
        ensures entries { result.entries ≡ [] }
        ensures room { result.room ≡ 0 }
        ensures looked { result.looked ≡ 0 }
        ensures buckets { result.buckets ≡ 0 }
    {
        Linked {
            roll: Roll::new(alloc),
            slots: Vec::new(alloc),
            room: 0,
            looked: 0,
        }
    }

    /// How many entries there are.
    pub(crate) fn len(&self) -> usize
        ensures count { result ≡ length self.now.entries }
        ensures distinct { AllPairs (λ e f. e.ticket ≢ f.ticket) self.now.entries }
    {
        self.roll.len()
    }

    /// How many entries more may come without growth.
    pub(crate) fn room(&self) -> usize
        ensures { result ≡ self.now.room }
    {
        self.room
    }

    /// How many nodes the last removal looked at.
    pub(crate) fn looks(&self) -> usize
        ensures { result ≡ self.now.looked }
    {
        self.looked
    }

    /// How many buckets there are.
    pub(crate) fn buckets(&self) -> usize
        ensures count { result ≡ self.now.buckets }
        ensures size { IsTableSize result }
        ensures enough { length self.now.entries + self.now.room ≤ result }
    {
        self.roll.buckets()
    }

    /// Makes room for this many entries more.
    #[inline(always)]
    pub(crate) fn reserve(&mut self, count: usize) -> Result<(), Refusal>
        ensures entries { self.new.entries ≡ self.old.entries }
        ensures room { OnOk result (count ≤ self.new.room) }
        ensures more { self.old.room ≤ self.new.room }
        ensures unchanged { OnErr result (self.new.room ≡ self.old.room) }
        ensures memory { IfErr result (λ why. why ≡ Memory) }
        ensures enough { count ≤ self.old.room → IsOk result }
        ensures looked { self.new.looked ≡ self.old.looked }
        ensures same { count ≤ self.old.room → self.new ≡ self.old }
        ensures buckets { self.old.buckets ≤ self.new.buckets }
        ensures few { (self.new.buckets ≡ self.old.buckets)
            ⊎ (self.new.buckets < 2 * (length self.old.entries + count)) }
        ensures failed { OnErr result (self.new.buckets ≡ self.old.buckets) }
    {
        if count <= self.room {
            return Ok(());
        }
        self.grow(count)
    }

    /// The same, where there isn't enough room yet.
    #[inline(never)]
    fn grow(&mut self, count: usize) -> Result<(), Refusal>
        requires { self.old.room < count }
        ensures entries { self.new.entries ≡ self.old.entries }
        ensures room { OnOk result (count ≤ self.new.room) }
        ensures unchanged { OnErr result (self.new.room ≡ self.old.room) }
        ensures memory { IfErr result (λ why. why ≡ Memory) }
        ensures looked { self.new.looked ≡ self.old.looked }
        ensures buckets { self.old.buckets ≤ self.new.buckets }
        ensures few { (self.new.buckets ≡ self.old.buckets)
            ⊎ (self.new.buckets < 2 * (length self.old.entries + count)) }
        ensures failed { OnErr result (self.new.buckets ≡ self.old.buckets) }
    {
        if self.roll.reserve(&mut self.slots, count).is_err() {
            return Err(Refusal::Memory);
        }
        let room = self.roll.spare();
        self.room = room;
        Ok(())
    }

    /// An entry comes to the end.
    #[inline(always)]
    pub(crate) fn push_back(&mut self, entry: Entry<T>)
        requires room { 0 < self.old.room }
        requires fresh { All (λ e. e.ticket ≢ entry.ticket) self.old.entries }
        ensures entries { self.new.entries ≡ self.old.entries ++ entry ∷ [] }
        ensures room { self.new.room + 1 ≡ self.old.room }
        ensures looked { self.new.looked ≡ self.old.looked }
        ensures buckets { self.new.buckets ≡ self.old.buckets }
    {
        let key = self.roll.push_back(entry.ticket.number());
        let_go_none(self.slots[key].replace(entry));
        self.room -= 1;
    }

    /// The first entry leaves, if there is one.
    #[inline(always)]
    pub(crate) fn meet_first(&mut self) -> Option<Entry<T>>
        ensures entry { result ≡ met Front self.old.entries }
        ensures entries { self.new.entries ≡ unmet Front self.old.entries }
        ensures room { self.new.room ≡ self.old.room + length (option_to_list result) }
        ensures looked { self.new.looked ≡ self.old.looked }
        ensures buckets { self.new.buckets ≡ self.old.buckets }
    {
        let key = self.roll.first()?;
        let met = take_out(&mut self.roll, &mut self.slots, key);
        self.room += 1;
        met
    }

    /// The last entry leaves, if there is one.
    pub(crate) fn meet_last(&mut self) -> Option<Entry<T>>
        ensures entry { result ≡ met Back self.old.entries }
        ensures entries { self.new.entries ≡ unmet Back self.old.entries }
        ensures room { self.new.room ≡ self.old.room + length (option_to_list result) }
        ensures looked { self.new.looked ≡ self.old.looked }
        ensures buckets { self.new.buckets ≡ self.old.buckets }
    {
        let key = self.roll.last()?;
        let met = take_out(&mut self.roll, &mut self.slots, key);
        self.room += 1;
        met
    }

    /// The entry of this ticket leaves, if it is there.
    pub(crate) fn remove(&mut self, ticket: Ticket) -> Option<Entry<T>>
        ensures entry { result ≡ find (λ e. e.ticket == ticket) self.old.entries }
        ensures entries { self.new.entries ≡ without_first (λ e. e.ticket == ticket) self.old.entries }
        ensures room { self.new.room ≡ self.old.room + length (option_to_list result) }
        ensures looked { IsLookedAt self.old.buckets ticket self.old.entries result self.new.looked }
        ensures few { self.new.looked ≤ fellows self.old.buckets ticket self.old.entries }
        ensures buckets { self.new.buckets ≡ self.old.buckets }
    {
        let found = self.roll.find(ticket.number());
        self.looked = found.looked;
        let key = found.key?;
        let removed = take_out(&mut self.roll, &mut self.slots, key);
        self.room += 1;
        removed
    }

    /// The entry that came first, if anybody is there.
    pub(crate) fn first(&self) -> Option<&Entry<T>>
        ensures { IsItemAt self.now.entries 0 result }
    {
        self.slots[self.roll.first()?].as_ref()
    }

    /// The entry of this ticket, if it is there.
    pub(crate) fn entry(&self, ticket: Ticket) -> Option<&Entry<T>>
        ensures { option_map (λ e. e.now) result ≡ find (λ e. e.ticket == ticket) self.now.entries }
    {
        let key = self.roll.find(ticket.number()).key?;
        self.slots[key].as_ref()
    }

    /// The entries in order of arrival, borrowed. Fails only if an allocation fails.
    pub(crate) fn list(&self, alloc: Global) -> Result<Vec<&Entry<T>>, Refusal>
        ensures entries { IfOk result (λ list. map (λ e. e.now) list.items ≡ self.now.entries) }
        ensures memory { IfErr result (λ why. why ≡ Memory) }
    {
        let Ok(mut list) = Vec::with_capacity(alloc, self.roll.len()) else {
            return Err(Refusal::Memory);
        };
        let mut at = self.roll.first();
        for _step in 0..self.roll.len() {
            if let Some(key) = at {
                if let Some(entry) = &self.slots[key] {
                    list.push_reserved(entry);
                }
                at = self.roll.after(key);
            }
        }
        Ok(list)
    }

    /// Lets an empty line go, also where its items can't be dropped.
    pub(crate) fn destroy_empty(self)
        requires { self.entries ≡ [] }
    {
        let Linked {
            roll: _,
            mut slots,
            room: _,
            looked: _,
        } = self;
        while let Some(slot) = slots.pop() {
            let_go_none(slot);
        }
        slots.destroy_empty();
    }
}
