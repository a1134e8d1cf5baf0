//! The line of a history's marks, met at the end of its place.

ghost use Rattle.std.specs.Prelude.{◌≡◌, ◌≢◌, ◌+◌, ◌<◌, ◌==◌, [], ◌∷◌, ◌++◌, find, length, map, All, OnOk, IsOk, IfOk};
ghost use Rattle.std.specs.Prelude.{IfErr};
ghost use Rattle.std.specs.Prelude.{◌↔◌, None, is_some, AllPairs, IsTrue, if◌then◌else◌};
ghost use Rattle.meet_tickets.specs.Meeting.{partner, kept_count, count_on, IsAlone};
ghost use Rattle.meet_tickets.specs.declared.places.Side.TheVariants.{Giver};
ghost use Rattle.meet_tickets.specs.BySeat.{unmet, without_first};
ghost use Rattle.meet_tickets.specs.declared.refusals.Refusal.TheVariants.{Memory};
ghost use Rattle.meet_history.specs.Marks.{met_end, entries_of, room_of, IsNewest, one_if_gives, one_if_kept};
ghost use Rattle.meet_history.specs.Marks.{count_if_gives, count_if_kept};

use meet_line::{FairLine, Line, StackLine, is_alone, meet};
use meet_tickets::{End, Entry, Refusal, Side, Ticket};
use std::alloc::{AllocError, Global};
use std::marker::Model;

/// A line of entries whose items are marks. It counts the givers and the kept ones.
#[derive(Drop)]
pub(crate) struct MarkLine {
    line: ByEnd,
    givers: u64,
    newest: u64,
    kept: u64,
}

/// The end at which an entry is met.
#[derive(Drop)]
enum ByEnd {
    Front(FairLine<u64>),
    Back(StackLine<u64>),
}

impl Model for MarkLine {
    ghost use Rattle.std.specs.Prelude.{◌≡◌, ◌≤◌, All, AllPairs, is_some};
    ghost use Rattle.meet_tickets.specs.Meeting.{kept_count, count_on};
    ghost use Rattle.meet_tickets.specs.declared.places.Side.TheVariants.{Giver};
    ghost use Rattle.meet_history.specs.Marks.{MarkedLine, met_end, entries_of, room_of};

    ghost Value = { MarkedLine };

    ghost view = { λ marks. record {
      end = met_end marks.line;
      entries = entries_of marks.line;
      room = room_of marks.line;
      newest = marks.newest;
    } };

    ghost invariant = { λ marks. All (λ e. e.ticket ≤ marks.newest) (entries_of marks.line)
        × (marks.kept ≡ kept_count (entries_of marks.line))
        × AllPairs (λ e f. is_some e.item ≡ is_some f.item) (entries_of marks.line)
        × (marks.givers ≡ count_on Giver (entries_of marks.line)) };
}

impl MarkLine {
    /// A line with nobody in it, whose entries are met at this end.
    pub(crate) fn new(alloc: Global, end: End) -> Self
        ensures end { result.end ≡ end }
        ensures entries { result.entries ≡ [] }
        ensures newest { result.newest ≡ 0 }
    {
        let line = match end {
            End::Front => ByEnd::Front(FairLine::empty(alloc)),
            End::Back => ByEnd::Back(StackLine::empty(alloc)),
        };
        MarkLine {
            line,
            givers: 0,
            kept: 0,
            newest: 0,
        }
    }

    /// The line of these entries, whose tickets rise, and which are of one side. Fails only if an allocation fails.
    pub(crate) fn of(alloc: Global, end: End, entries: &[Entry<u64>]) -> Result<Self, Refusal>
        requires rises { AllPairs (λ e f. e.ticket < f.ticket) entries.now }
        requires one_side { AllPairs (λ e f. is_some e.item ≡ is_some f.item) entries.now }
        requires named { All (λ e. 0 < e.ticket) entries.now }
        ensures end { IfOk result (λ marks. marks.end ≡ end) }
        ensures entries { IfOk result (λ marks. marks.entries ≡ entries.now) }
        ensures newest { IfOk result (λ marks. IsNewest entries.now marks.newest) }
        ensures memory { IfErr result (λ why. why ≡ Memory) }
    {
        let mut marks = MarkLine::new(alloc, end);
        for entry in entries {
            marks.reserve()?;
            marks.push_back(copy(entry));
        }
        Ok(marks)
    }

    /// Makes room for an entry more. Fails only if an allocation fails.
    #[inline(always)]
    pub(crate) fn reserve(&mut self) -> Result<(), Refusal>
        ensures end { self.new.end ≡ self.old.end }
        ensures entries { self.new.entries ≡ self.old.entries }
        ensures newest { self.new.newest ≡ self.old.newest }
        ensures room { OnOk result (0 < self.new.room) }
        ensures memory { IfErr result (λ why. why ≡ Memory) }
        ensures enough { 0 < self.old.room → IsOk result }
    {
        match &mut self.line {
            ByEnd::Front(line) => line.reserve(1),
            ByEnd::Back(line) => line.reserve(1),
        }
    }

    /// An entry comes to the line's end.
    #[inline(always)]
    pub(crate) fn push_back(&mut self, entry: Entry<u64>)
        requires room { 0 < self.old.room }
        requires above { self.old.newest < entry.ticket }
        requires alone { IsAlone self.old.end self.old.entries entry.item }
        ensures end { self.new.end ≡ self.old.end }
        ensures entries { self.new.entries ≡ self.old.entries ++ entry ∷ [] }
        ensures newest { self.new.newest ≡ entry.ticket }
    {
        let ticket = entry.ticket;
        let gives = one_if_gives(&entry);
        let kept = one_if_kept(&entry);
        push_by(&mut self.line, entry);
        let _entries = len_of(&self.line);
        self.newest = ticket.number();
        self.givers += gives;
        self.kept += kept;
    }

    /// Whether a request of this side finds nobody.
    #[inline(always)]
    pub(crate) fn is_alone(&self, side: Side) -> bool
        ensures { IsTrue result ↔ (partner self.now.end self.now.entries side ≡ None) }
    {
        match &self.line {
            ByEnd::Front(line) => is_alone(line, self.givers, side),
            ByEnd::Back(line) => is_alone(line, self.givers, side),
        }
    }

    /// The partner of a request of this side leaves the line, if it has one.
    #[inline(always)]
    pub(crate) fn partner(&mut self, side: Side) -> Option<Entry<u64>>
        ensures end { self.new.end ≡ self.old.end }
        ensures partner { result ≡ partner self.old.end self.old.entries side }
        ensures entries { self.new.entries ≡ (if is_some result then unmet self.old.end self.old.entries
            else self.old.entries) }
        ensures newest { self.new.newest ≡ self.old.newest }
    {
        let partner = partner_by(&mut self.line, self.givers, side);
        self.givers -= count_if_gives(&partner);
        self.kept -= count_if_kept(&partner);
        partner
    }

    /// The entry of this ticket leaves the line, if it is there.
    pub(crate) fn remove(&mut self, ticket: Ticket) -> Option<Entry<u64>>
        ensures end { self.new.end ≡ self.old.end }
        ensures entry { result ≡ find (λ e. e.ticket == ticket) self.old.entries }
        ensures entries { self.new.entries ≡ without_first (λ e. e.ticket == ticket) self.old.entries }
        ensures newest { self.new.newest ≡ self.old.newest }
    {
        let removed = remove_by(&mut self.line, ticket);
        self.givers -= count_if_gives(&removed);
        self.kept -= count_if_kept(&removed);
        removed
    }

    /// How many entries are kept.
    pub(crate) fn kept(&self) -> u64
        ensures value { result ≡ kept_count self.now.entries }
    {
        self.kept
    }

    /// How many entries there are.
    pub(crate) fn len(&self) -> u64
        ensures { result ≡ length self.now.entries }
    {
        len_of(&self.line)
    }

    /// The entries once more, in order of request. Fails only if an allocation fails.
    pub(crate) fn entries(&self, alloc: Global) -> Result<Vec<Entry<u64>>, Refusal>
        ensures entries { IfOk result (λ copies. copies.items ≡ self.now.entries) }
        ensures memory { IfErr result (λ why. why ≡ Memory) }
    {
        let list = list_by(alloc, &self.line)?;
        match copies(alloc, list.as_slice()) {
            Ok(copies) => Ok(copies),
            Err(_) => Err(Refusal::Memory),
        }
    }
}

/// The entries of a line in order of request, borrowed. Fails only if an allocation fails.
fn list_by(alloc: Global, line: &ByEnd) -> Result<Vec<&Entry<u64>>, Refusal>
    ensures entries { IfOk result (λ list. map (λ e. e.now) list.items ≡ entries_of line.now) }
    ensures memory { IfErr result (λ why. why ≡ Memory) }
{
    match line {
        ByEnd::Front(line) => line.list(alloc),
        ByEnd::Back(line) => line.list(alloc),
    }
}

/// The same entry once more.
fn copy(entry: &Entry<u64>) -> Entry<u64>
    ensures { result ≡ entry.now }
{
    Entry {
        ticket: entry.ticket,
        seat: entry.seat,
        item: entry.item,
        waits: entry.waits,
    }
}

/// These entries once more. Fails only if an allocation fails.
fn copies(alloc: Global, list: &[&Entry<u64>]) -> Result<Vec<Entry<u64>>, AllocError>
    ensures { IfOk result (λ copies. copies.items ≡ map (λ e. e.now) list.now) }
{
    list.iter().map(|entry| copy(*entry)).collect(alloc)
}

/// How many entries a line has.
fn len_of(line: &ByEnd) -> u64
    ensures { result ≡ length (entries_of line.now) }
{
    match line {
        ByEnd::Front(line) => line.len(),
        ByEnd::Back(line) => line.len(),
    }
}

/// An entry comes to a line's end.
#[inline(always)]
fn push_by(line: &mut ByEnd, entry: Entry<u64>)
    requires room { 0 < room_of line.old }
    requires fresh { All (λ e. e.ticket ≢ entry.ticket) (entries_of line.old) }
    ensures end { met_end line.new ≡ met_end line.old }
    ensures entries { entries_of line.new ≡ entries_of line.old ++ entry ∷ [] }
{
    match line {
        ByEnd::Front(line) => line.push_back(entry),
        ByEnd::Back(line) => line.push_back(entry),
    }
}

/// The partner of a request of this side leaves its line, in which so many givers stand.
#[inline(always)]
fn partner_by(line: &mut ByEnd, givers: u64, side: Side) -> Option<Entry<u64>>
    requires givers { givers ≡ count_on Giver (entries_of line.old) }
    requires side { AllPairs (λ e f. is_some e.item ≡ is_some f.item) (entries_of line.old) }
    ensures end { met_end line.new ≡ met_end line.old }
    ensures partner { result ≡ partner (met_end line.old) (entries_of line.old) side }
    ensures rest { entries_of line.new ≡ (if is_some result then unmet (met_end line.old) (entries_of line.old)
        else entries_of line.old) }
{
    match line {
        ByEnd::Front(line) => meet(line, givers, side),
        ByEnd::Back(line) => meet(line, givers, side),
    }
}

/// The entry of this ticket leaves its line.
fn remove_by(line: &mut ByEnd, ticket: Ticket) -> Option<Entry<u64>>
    ensures end { met_end line.new ≡ met_end line.old }
    ensures entry { result ≡ find (λ e. e.ticket == ticket) (entries_of line.old) }
    ensures entries { entries_of line.new ≡ without_first (λ e. e.ticket == ticket) (entries_of line.old) }
{
    match line {
        ByEnd::Front(line) => line.remove(ticket),
        ByEnd::Back(line) => line.remove(ticket),
    }
}

/// One for a giver, else 0.
fn one_if_gives(entry: &Entry<u64>) -> u64
    ensures { result ≡ one_if_gives entry.now }
{
    u64::from(entry.item.is_some())
}

/// One for a kept entry, else 0.
fn one_if_kept(entry: &Entry<u64>) -> u64
    ensures { result ≡ one_if_kept entry.now }
{
    u64::from(!entry.waits)
}

/// One where a giver is there, else 0.
fn count_if_gives(entry: &Option<Entry<u64>>) -> u64
    ensures { result ≡ count_if_gives entry.now }
{
    match entry {
        Some(entry) => one_if_gives(entry),
        None => 0,
    }
}

/// One where a kept entry is there, else 0.
fn count_if_kept(entry: &Option<Entry<u64>>) -> u64
    ensures { result ≡ count_if_kept entry.now }
{
    match entry {
        Some(entry) => one_if_kept(entry),
        None => 0,
    }
}
