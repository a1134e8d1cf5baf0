//! Segments of a log, returned whole: to be kept before they are compacted, or read while the book goes on.

ghost use Rattle.std.specs.Prelude.{◌≡◌, ◌+◌, ◌≤◌, [], None, length, IfOk, IfErr};
ghost use Rattle.std.specs.Vec.{vec_capacity};
ghost use Rattle.meet_book.specs.Booking.{cut_refusal};
ghost use Rattle.meet_tickets.specs.Refusals.{IsWhy};
ghost use Rattle.meet_tickets.specs.declared.refusals.Refusal.TheVariants.{Memory};

use crate::book::Book;
use crate::object::{Bases, Object};
use meet_tickets::{MOST_GONE, Record, Refusal, Refused};
use std::mem;

/// A segment of a log: records that followed one another, and the snapshot of all before them.
#[derive(Drop)]
pub struct Chapter<O: Object> {
    /// The snapshot of the records before these.
    pub base: O::Base,
    /// The records since, in order.
    pub records: Vec<Record<O::Deed>>,
}

impl<O: Bases> Book<O>
where
    O::Base: Drop,
{
    /// Rotates the log: compacts it as `cut` does, and returns the records, with the base on which they stand. `room`
    /// becomes the list of the records to come, and its own records are dropped: so a list is used again.
    ///
    /// # Errors
    /// Nothing has changed, and the list is returned empty.
    /// - HistoryFull, exactly if more than 2^63 - 1 records would be compacted.
    /// - Memory, if an allocation fails.
    pub fn rotate(
        &mut self,
        room: Vec<Record<O::Deed>>,
    ) -> Result<Chapter<O>, Refused<Vec<Record<O::Deed>>>>
        ensures taken { IfOk result (λ chapter. (chapter.base ≡ self.old.base)
            × (chapter.records.items ≡ self.old.records)) }
        ensures gone { IfOk result (λ _. O.gone_of self.new.base
            ≡ O.gone_of self.old.base + length self.old.records) }
        ensures base { IfOk result (λ _. O.is_base self.old.object (O.gone_of self.new.base) self.new.base) }
        ensures records { IfOk result (λ _. self.new.records ≡ []) }
        ensures room { IfOk result (λ _. vec_capacity room ≤ self.new.room) }
        ensures object { self.new.object ≡ self.old.object }
        ensures cap { self.new.cap ≡ self.old.cap }
        ensures leads { O.leads self.old.base self.old.records self.old.object }
        ensures admitted { IfOk result (λ _. cut_refusal (O.gone_of self.old.base) self.old ≡ None) }
        ensures why { IfErr result (λ refused. IsWhy (cut_refusal (O.gone_of self.old.base) self.old) refused.why) }
        ensures back { IfErr result (λ refused. refused.back.items ≡ []) }
        ensures unchanged { IfErr result (λ _. self.new ≡ self.old) }
    {
        let mut next = room;
        next.clear();
        let gone = O::gone(&self.base) + self.records.len() as u64;
        if gone > MOST_GONE {
            return Err(Refused {
                why: Refusal::HistoryFull,
                back: next,
            });
        }
        if next.reserve(self.object.owed() as usize).is_err() {
            return Err(Refused {
                why: Refusal::Memory,
                back: next,
            });
        }
        match self.object.base(self.alloc, gone) {
            Ok(base) => Ok(Chapter {
                base: mem::replace(&mut self.base, base),
                records: mem::replace(&mut self.records, next),
            }),
            Err(why) => Err(Refused { why, back: next }),
        }
    }

    /// Copies base and records, while the book goes on.
    ///
    /// # Errors
    /// - Memory, if an allocation fails.
    pub fn copy(&self) -> Result<Chapter<O>, Refusal>
        ensures base { IfOk result (λ chapter. chapter.base ≡ self.now.base) }
        ensures records { IfOk result (λ chapter. chapter.records.items ≡ self.now.records) }
        ensures leads { O.leads self.now.base self.now.records self.now.object }
        ensures within { length self.now.records ≤ self.now.cap }
        ensures memory { IfErr result (λ why. why ≡ Memory) }
    {
        let mut records = Vec::new(self.alloc);
        if records.extend_from_slice(self.records.as_slice()).is_err() {
            return Err(Refusal::Memory);
        }
        match O::copy_base(self.alloc, &self.base) {
            Ok(base) => Ok(Chapter { base, records }),
            Err(why) => Err(why),
        }
    }
}
