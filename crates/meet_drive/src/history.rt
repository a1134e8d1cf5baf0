//! The log of a demo run, put together chapter by chapter while its queue goes on.

ghost use Rattle.std.specs.Prelude.{◌≡◌, ◌++◌, [], length, OnOk, OnErr};

use meet_sync::Chapter;
use meet_tickets::{Deed, Record, Refusal};
use std::alloc::Global;
use std::mem;

/// The records that a demo run's queue handed out so far, in order, and a list for those to come.
#[derive(Drop)]
pub struct History {
    records: Vec<Record<Deed>>,
    room: Vec<Record<Deed>>,
}

impl History {
    /// Creates a history without a record.
    pub fn new(alloc: Global) -> Self
        ensures { result.records.items ≡ [] }
    {
        History {
            records: Vec::new(alloc),
            room: Vec::new(alloc),
        }
    }

    /// Returns how many records were handed out.
    pub fn count(&self) -> u64
        ensures { result ≡ length self.now.records.items }
    {
        self.records.len() as u64
    }

    /// Returns a list into which the queue may write from now on, with the room of the chapter before.
    pub fn take_room(&mut self, alloc: Global) -> Vec<Record<Deed>>
        ensures { self.new.records ≡ self.old.records }
    {
        mem::replace(&mut self.room, Vec::new(alloc))
    }

    /// Appends a chapter to those before it; its list is the room of the next but one.
    ///
    /// # Errors
    /// Nothing is appended. The first that applies:
    /// - Differs, if the chapter doesn't begin where these end.
    /// - Memory, if an allocation fails.
    pub fn append(&mut self, chapter: Chapter) -> Result<(), Refusal>
        ensures written { OnOk result (self.new.records.items ≡ self.old.records.items ++ chapter.records.items) }
        ensures begins { OnOk result (chapter.base.gone ≡ length self.old.records.items) }
        ensures unchanged { OnErr result (self.new.records.items ≡ self.old.records.items) }
    {
        if chapter.base.gone != self.count() {
            return Err(Refusal::Differs);
        }
        if self
            .records
            .extend_from_slice(chapter.records.as_slice())
            .is_err()
        {
            return Err(Refusal::Memory);
        }
        self.room = chapter.records;
        Ok(())
    }

    /// Returns the records that were handed out.
    pub fn into_records(self) -> Vec<Record<Deed>>
        ensures { result ≡ self.records }
    {
        self.records
    }
}
