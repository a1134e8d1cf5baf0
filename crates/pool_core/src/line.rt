//! The wait queue of a pool: its buffered jobs, or the takes of its waiting workers.

ghost use Rattle.std.specs.Prelude.{◌≡◌, ◌≢◌, ◌+◌, ◌<◌, ◌≤◌, ◌==◌, ◌^◌, IsTrue, IsFalse, true, is_some, []};
ghost use Rattle.std.specs.Prelude.{◌∷◌, ◌++◌, find, map, filter, length, vec_len, All, AllPairs, OnOk, OnErr};
ghost use Rattle.std.specs.Prelude.{MatchOption, ⊤, None, IsOk, IfOk, IfErr, option_to_list, option_map, if◌then◌else◌};
ghost use Rattle.std.specs.Vec.{vec_capacity};
ghost use Rattle.meet_tickets.specs.Meeting.{is_on, partner, kept_count};
ghost use Rattle.meet_tickets.specs.declared.places.Side.TheVariants.{Giver, Taker};
ghost use Rattle.meet_tickets.specs.declared.places.End.TheVariants.{Front as AtFront, Back as AtBack};
ghost use Rattle.meet_tickets.specs.BySeat.{unmet, without_first};
ghost use Rattle.meet_tickets.specs.declared.refusals.Refusal.TheVariants.{Memory};
ghost use Rattle.meet_line.specs.Seen.{marked_entry};
ghost use Rattle.pool_core.specs.Pools.{kept_tasks};
ghost use Rattle.pool_core.specs.Lines.{line_end, entries_of, room_of, kept_one};

use crate::stages::Task;
use meet_line::{FairRing, Line, StackLine, let_go_none, marked_line};
use meet_tickets::{End, Entry, Marked, Refusal, Side, Ticket};
use std::alloc::Global;
use std::marker::Model;

/// A wait queue that is met at either end. It counts the buffered jobs.
#[derive(Drop)]
pub struct JobLine<J> {
    line: ByEnd<J>,
    kept: u64,
}

/// The end at which a node is met.
#[derive(Drop)]
pub enum ByEnd<J> {
    /// At the front: first in, first out.
    Front(FairRing<J>),
    /// At the back: last in, first out.
    Back(StackLine<J>),
}

impl<J> Model for JobLine<J> {
    ghost use Rattle.std.specs.Prelude.{◌≡◌};
    ghost use Rattle.meet_tickets.specs.Meeting.{kept_count};
    ghost use Rattle.pool_core.specs.Lines.{EndedLine, line_end, entries_of, room_of};

    ghost Value = { EndedLine J };

    ghost view = { λ jobs. record {
      end = line_end jobs.line;
      entries = entries_of jobs.line;
      room = room_of jobs.line;
    } };

    ghost invariant = { λ jobs. jobs.kept ≡ kept_count (entries_of jobs.line) };
}

impl<J> JobLine<J> {
    /// Creates an empty wait queue without room, which is met at this end.
    pub fn new(alloc: Global, end: End) -> Self
        ensures end { result.end ≡ end }
        ensures entries { result.entries ≡ [] }
        ensures room { result.room ≡ 0 }
    {
        let line = match end {
            End::Front => ByEnd::Front(FairRing::empty(alloc)),
            End::Back => ByEnd::Back(StackLine::empty(alloc)),
        };
        JobLine { line, kept: 0 }
    }

    /// Drops an empty wait queue, even if its jobs can't be dropped.
    pub fn destroy_empty(self)
        requires { self.entries ≡ [] }
    {
        let JobLine { line, kept: _ } = self;
        match line {
            ByEnd::Front(line) => line.destroy_empty(),
            ByEnd::Back(line) => line.destroy_empty(),
        }
    }

    /// Makes room for `count` nodes more.
    ///
    /// # Errors
    /// - Memory, if an allocation fails, and never if there is that room.
    pub fn reserve(&mut self, count: u64) -> Result<(), Refusal>
        ensures same { self.new ≡ record self.old { room = self.new.room } }
        ensures room { OnOk result (count ≤ self.new.room) }
        ensures more { self.old.room ≤ self.new.room }
        ensures unchanged { OnErr result (self.new ≡ self.old) }
        ensures memory { IfErr result (λ why. why ≡ Memory) }
        ensures enough { count ≤ self.old.room → IsOk result }
    {
        match &mut self.line {
            ByEnd::Front(line) => line.reserve(count),
            ByEnd::Back(line) => line.reserve(count),
        }
    }

    /// Puts a take at the end.
    #[inline(always)]
    pub fn push_take(&mut self, entry: Entry<J>)
        requires room { 0 < self.old.room }
        requires fresh { All (λ e. e.ticket ≢ entry.ticket) self.old.entries }
        requires waits { IsTrue entry.waits }
        ensures end { self.new.end ≡ self.old.end }
        ensures entries { self.new.entries ≡ self.old.entries ++ entry ∷ [] }
        ensures room { self.new.room + 1 ≡ self.old.room }
    {
        push_by(&mut self.line, entry);
    }

    /// Puts a buffered job at the end.
    #[inline(always)]
    pub fn push_kept(&mut self, entry: Entry<J>)
        requires room { 0 < self.old.room }
        requires fresh { All (λ e. e.ticket ≢ entry.ticket) self.old.entries }
        requires kept { IsFalse entry.waits }
        requires few { kept_count self.old.entries + 1 < 2 ^ 64 }
        ensures end { self.new.end ≡ self.old.end }
        ensures entries { self.new.entries ≡ self.old.entries ++ entry ∷ [] }
        ensures room { self.new.room + 1 ≡ self.old.room }
    {
        push_by(&mut self.line, entry);
        self.kept += 1;
    }

    /// Removes the counterpart of a request of this side, if it has one.
    #[inline(always)]
    pub fn partner(&mut self, side: Side) -> Option<Entry<J>>
        ensures end { self.new.end ≡ self.old.end }
        ensures partner { result ≡ partner self.old.end self.old.entries side }
        ensures entries { self.new.entries ≡ (if is_some result then unmet self.old.end self.old.entries
            else self.old.entries) }
        ensures room { self.new.room ≡ self.old.room + length (option_to_list result) }
    {
        let met = partner_by(&mut self.line, side);
        self.kept -= kept_one(&met);
        met
    }

    /// Removes the node of this ticket, if it is there.
    pub fn remove(&mut self, ticket: Ticket) -> Option<Entry<J>>
        ensures end { self.new.end ≡ self.old.end }
        ensures entry { result ≡ find (λ e. e.ticket == ticket) self.old.entries }
        ensures entries { self.new.entries ≡ without_first (λ e. e.ticket == ticket) self.old.entries }
        ensures room { self.new.room ≡ self.old.room + length (option_to_list result) }
    {
        let removed = remove_by(&mut self.line, ticket);
        self.kept -= kept_one(&removed);
        removed
    }

    /// Removes the take of this ticket, if it is there.
    pub fn remove_take(&mut self, ticket: Ticket)
        requires { MatchOption (find (λ e. e.ticket == ticket) self.old.entries) ⊤ (λ e. e.item ≡ None) }
        ensures end { self.new.end ≡ self.old.end }
        ensures entries { self.new.entries ≡ without_first (λ e. e.ticket == ticket) self.old.entries }
        ensures places { length self.new.entries + self.new.room ≡ length self.old.entries + self.old.room }
    {
        let Some(taker) = self.remove(ticket) else {
            return;
        };
        let Entry {
            ticket: _,
            seat: _,
            item,
            waits: _,
        } = taker;
        let_go_none(item);
    }

    /// Removes the takes; the buffered jobs stay.
    pub fn drop_takes(&mut self)
        requires { AllPairs (λ e f. is_some e.item ≡ is_some f.item) self.old.entries }
        ensures end { self.new.end ≡ self.old.end }
        ensures entries { self.new.entries ≡ filter (is_on Giver) self.old.entries }
        ensures places { length self.new.entries + self.new.room ≡ length self.old.entries + self.old.room }
    {
        while let Some(taker) = self.partner(Side::Giver) {
            let Entry {
                ticket: _,
                seat: _,
                item,
                waits: _,
            } = taker;
            let_go_none(item);
        }
    }

    /// Moves the buffered jobs, in order of arrival, to the end of the list.
    pub fn hand_back(&mut self, list: &mut Vec<Task<J>>)
        requires givers { All (λ e. is_some e.item ≡ true) self.old.entries }
        requires front { self.old.end ≡ AtBack → self.old.entries ≡ [] }
        requires fits { vec_len list.old + length self.old.entries ≤ vec_capacity list.old }
        ensures end { self.new.end ≡ self.old.end }
        ensures entries { self.new.entries ≡ [] }
        ensures room { self.new.room ≡ self.old.room + length self.old.entries }
        ensures list { list.new.items ≡ list.old.items ++ kept_tasks self.old.entries }
        ensures capacity { vec_capacity list.new ≡ vec_capacity list.old }
    {
        match &mut self.line {
            ByEnd::Front(line) => empty_line(line, list),
            ByEnd::Back(_) => {}
        }
        self.kept = 0;
    }

    /// Returns true if a request of this side has a counterpart.
    #[inline(always)]
    pub fn has_partner(&self, side: Side) -> bool
        ensures { result ≡ is_some (partner self.now.end self.now.entries side) }
    {
        match &self.line {
            ByEnd::Front(line) => has_partner(line, side),
            ByEnd::Back(line) => has_partner(line, side),
        }
    }

    /// Returns the oldest buffered job, in a wait queue that is met at its front; it stays there. One that is met at
    /// its back buffers none.
    pub fn first_kept(&self) -> Option<&Entry<J>>
        ensures front { self.now.end ≡ AtFront → option_map (λ e. e.now) result
            ≡ partner AtFront self.now.entries Taker }
        ensures back { self.now.end ≡ AtBack → result ≡ None }
    {
        match &self.line {
            ByEnd::Front(line) => kept_first(line),
            ByEnd::Back(_) => None,
        }
    }

    /// Returns how many jobs are buffered.
    pub fn kept(&self) -> u64
        ensures { result ≡ kept_count self.now.entries }
    {
        self.kept
    }
}

/// The kept job that came first.
fn kept_first<J>(line: &FairRing<J>) -> Option<&Entry<J>>
    ensures { option_map (λ e. e.now) result ≡ partner AtFront line.now.entries Taker }
{
    let first = line.first()?;
    if first.is_on(Side::Taker) {
        None
    } else {
        Some(first)
    }
}

/// Whether a request of this side has a partner in this line.
#[inline(always)]
fn has_partner<J, L: Line<J>>(line: &L, side: Side) -> bool
    ensures { result ≡ is_some (partner L.end (L.entries line.now) side) }
{
    match line.first() {
        None => false,
        Some(first) => !first.is_on(side),
    }
}

/// The partner of a request of this side leaves its line.
#[inline(always)]
fn meet<J, L: Line<J>>(line: &mut L, side: Side) -> Option<Entry<J>>
    ensures partner { result ≡ partner L.end (L.entries line.old) side }
    ensures entries { L.entries line.new ≡ (if is_some result then unmet L.end (L.entries line.old)
        else L.entries line.old) }
    ensures room { L.spare line.new ≡ L.spare line.old + length (option_to_list result) }
{
    if has_partner(line, side) {
        line.meet()
    } else {
        None
    }
}

/// The jobs leave a line of givers, from its front on, and go behind the others of the list.
fn empty_line<J>(line: &mut FairRing<J>, list: &mut Vec<Task<J>>)
    requires givers { All (λ e. is_some e.item ≡ true) line.old.entries }
    requires fits { vec_len list.old + length line.old.entries ≤ vec_capacity list.old }
    ensures entries { line.new.entries ≡ [] }
    ensures room { line.new.room ≡ line.old.room + length line.old.entries }
    ensures list { list.new.items ≡ list.old.items ++ kept_tasks line.old.entries }
    ensures capacity { vec_capacity list.new ≡ vec_capacity list.old }
{
    while let Some(entry) = line.meet() {
        let Entry {
            ticket,
            seat: _,
            item,
            waits: _,
        } = entry;
        let job = item.unwrap();
        list.push_reserved(Task { ticket, job });
    }
}

/// An entry comes to a line's end.
#[inline(always)]
fn push_by<J>(line: &mut ByEnd<J>, entry: Entry<J>)
    requires room { 0 < room_of line.old }
    requires fresh { All (λ e. e.ticket ≢ entry.ticket) (entries_of line.old) }
    ensures end { line_end line.new ≡ line_end line.old }
    ensures entries { entries_of line.new ≡ entries_of line.old ++ entry ∷ [] }
    ensures room { room_of line.new + 1 ≡ room_of line.old }
{
    match line {
        ByEnd::Front(line) => line.push_back(entry),
        ByEnd::Back(line) => line.push_back(entry),
    }
}

/// The partner of a request of this side leaves its line.
#[inline(always)]
fn partner_by<J>(line: &mut ByEnd<J>, side: Side) -> Option<Entry<J>>
    ensures end { line_end line.new ≡ line_end line.old }
    ensures partner { result ≡ partner (line_end line.old) (entries_of line.old) side }
    ensures entries { entries_of line.new ≡ (if is_some result then unmet (line_end line.old) (entries_of line.old)
        else entries_of line.old) }
    ensures room { room_of line.new ≡ room_of line.old + length (option_to_list result) }
{
    match line {
        ByEnd::Front(line) => meet(line, side),
        ByEnd::Back(line) => meet(line, side),
    }
}

/// The entry of this ticket leaves its line.
fn remove_by<J>(line: &mut ByEnd<J>, ticket: Ticket) -> Option<Entry<J>>
    ensures end { line_end line.new ≡ line_end line.old }
    ensures entry { result ≡ find (λ e. e.ticket == ticket) (entries_of line.old) }
    ensures entries { entries_of line.new ≡ without_first (λ e. e.ticket == ticket) (entries_of line.old) }
    ensures room { room_of line.new ≡ room_of line.old + length (option_to_list result) }
{
    match line {
        ByEnd::Front(line) => line.remove(ticket),
        ByEnd::Back(line) => line.remove(ticket),
    }
}

/// One for a kept job, else 0.
#[inline(always)]
fn kept_one<J>(entry: &Option<Entry<J>>) -> u64
    ensures { result ≡ kept_one entry.now }
{
    match entry {
        Some(entry) => u64::from(!entry.waits),
        None => 0,
    }
}

impl<J: Marked> JobLine<J> {
    /// Returns the nodes in order of arrival, jobs by their tags.
    ///
    /// # Errors
    /// - Memory, if an allocation fails.
    pub fn tagged(&self, alloc: Global) -> Result<Vec<Entry<u64>>, Refusal>
        ensures entries { IfOk result (λ copies. copies.items ≡ map (marked_entry J.mark_of) self.now.entries) }
        ensures memory { IfErr result (λ why. why ≡ Memory) }
    {
        match &self.line {
            ByEnd::Front(line) => marked_line(alloc, line),
            ByEnd::Back(line) => marked_line(alloc, line),
        }
    }
}
