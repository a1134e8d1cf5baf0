//! The wait queue of a place. A removal at an end, and of an entry near the back, costs the same however long it is.

ghost use Rattle.std.specs.Prelude.{◌≡◌, ◌++◌, ◌∷◌, [], ◌==◌, ◌<◌, AllPairs, find, length, IfOk, OnOk};
ghost use Rattle.std.specs.List.{position};
ghost use Rattle.meet_tickets.specs.BySeat.{without_first, unmet};

use meet_tickets::{End, Entry, Ticket};
use std::alloc::{AllocError, Global};
use std::marker::Model;

/// How many entries may have left at the front before room is made of theirs.
const MOST_GONE: usize = 32;

/// The entries of a wait queue, the front first.
#[derive(Drop)]
pub(crate) struct Line {
    /// Those that left at the front, and then those that are there.
    entries: Vec<Entry<u64>>,
    /// How many left at the front.
    gone: usize,
    /// Whether tickets are known to rise. They do in a history; the search names its calls by other tickets.
    rises: bool,
}

impl Model for Line {
    ghost use Rattle.std.specs.Prelude.{ℕ, ◌≡◌, ◌≤◌, ◌<◌, true, drop, vec_len, List, AllPairs};
    ghost use Rattle.meet_tickets.specs.declared.lines.Entry.{Entry};

    ghost Value = { List (Entry ℕ) };

    ghost view = { λ line. drop line.gone line.entries.items };

    ghost invariant = { λ line. (line.gone ≤ vec_len line.entries)
        × (line.rises ≡ true → AllPairs (λ e f. e.ticket < f.ticket) (drop line.gone line.entries.items)) };
}

/// The same entry once more.
pub(crate) fn copied_entry(entry: &Entry<u64>) -> Entry<u64>
    ensures { result ≡ entry.now }
{
    Entry {
        ticket: entry.ticket,
        seat: entry.seat,
        item: entry.item,
        waits: entry.waits,
    }
}

/// The index of the entry of this ticket, looked for from the front.
fn index_from_front(entries: &[Entry<u64>], ticket: Ticket) -> Option<usize>
    ensures { result ≡ position (λ e. e.ticket == ticket) entries.now }
{
    entries.iter().position(|entry| entry.ticket == ticket)
}

/// The index of the entry of this ticket among entries whose tickets rise, looked for from the back.
fn index_from_back(entries: &[Entry<u64>], ticket: Ticket) -> Option<usize>
    requires { AllPairs (λ e f. e.ticket < f.ticket) entries.now }
    ensures { result ≡ position (λ e. e.ticket == ticket) entries.now }
{
    let mut index = entries.len();
    while 0 < index {
        index -= 1;
        let found = entries[index].ticket.number();
        if found == ticket.number() {
            return Some(index);
        }
        if found < ticket.number() {
            return None;
        }
    }
    None
}

impl Line {
    /// Nobody waits.
    pub(crate) fn empty(alloc: Global) -> Line
        ensures { result ≡ [] }
    {
        Line {
            entries: Vec::new(alloc),
            gone: 0,
            rises: true,
        }
    }

    /// The entries, the front first.
    pub(crate) fn as_slice(&self) -> &[Entry<u64>]
        ensures { result.now ≡ self.now }
    {
        &self.entries[self.gone..]
    }

    /// The same line once more. Fails only if an allocation fails.
    pub(crate) fn copied(&self, alloc: Global) -> Result<Line, AllocError>
        ensures { IfOk result (λ copy. copy ≡ self.now) }
    {
        let mut entries = Vec::new(alloc);
        for entry in self.as_slice() {
            entries.push(copied_entry(entry))?;
        }
        Ok(Line {
            entries,
            gone: 0,
            rises: false,
        })
    }

    /// An entry joins at the back. Fails only if an allocation fails.
    pub(crate) fn push(&mut self, entry: Entry<u64>) -> Result<(), AllocError>
        ensures { OnOk result (self.new ≡ self.old ++ entry ∷ []) }
    {
        let rises = match self.as_slice().last() {
            None => true,
            Some(last) => self.rises && last.ticket.number() < entry.ticket.number(),
        };
        self.rises = false;
        self.entries.push(entry)?;
        self.rises = rises;
        Ok(())
    }

    /// The index of the entry of this ticket, if it is there.
    fn index_of(&self, ticket: Ticket) -> Option<usize>
        ensures { result ≡ position (λ e. e.ticket == ticket) self.now }
    {
        let entries = self.as_slice();
        if self.rises {
            index_from_back(entries, ticket)
        } else {
            index_from_front(entries, ticket)
        }
    }

    /// The entry of this ticket, if it is there.
    pub(crate) fn entry(&self, ticket: Ticket) -> Option<Entry<u64>>
        ensures { result ≡ find (λ e. e.ticket == ticket) self.now }
    {
        match self.index_of(ticket) {
            None => None,
            Some(index) => Some(copied_entry(&self.as_slice()[index])),
        }
    }

    /// The entry of this ticket leaves, if it is there.
    pub(crate) fn leave(&mut self, ticket: Ticket)
        ensures { self.new ≡ without_first (λ e. e.ticket == ticket) self.old }
    {
        if let Some(index) = self.index_of(ticket) {
            let _left = self.entries.remove(self.gone + index);
        }
    }

    /// Gives back the room of those that left at the front, where there is much of it.
    fn make_room(&mut self)
        ensures { self.new ≡ self.old }
    {
        let count = self.entries.len();
        if MOST_GONE <= self.gone && count / 2 <= self.gone {
            let left = count - self.gone;
            self.entries.rotate_left(self.gone);
            self.entries.truncate(left);
            self.gone = 0;
        }
    }

    /// The entry that is met leaves a line that isn't empty.
    pub(crate) fn leave_met(&mut self, end: End)
        requires { 0 < length self.old }
        ensures { self.new ≡ unmet end self.old }
    {
        match end {
            End::Front => {
                self.gone += 1;
                self.make_room();
            }
            End::Back => {
                let _met = self.entries.pop();
            }
        }
    }
}
