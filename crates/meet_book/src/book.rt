//! The log (the book) that a place keeps of its steps.

ghost use Rattle.std.specs.Prelude.{◌≡◌, ◌+◌, ◌-◌, ◌<◌, ◌≤◌, ◌^◌, Option, Some, None, [], ◌++◌, length};
ghost use Rattle.std.specs.Prelude.{option_to_list, vec_len, ⊤, IfNone, IsOk, IfOk, IfErr, OnOk, OnErr, MatchOption};
ghost use Rattle.std.specs.Vec.{vec_capacity};
ghost use Rattle.meet_book.specs.Booked.{Booked};
ghost use Rattle.meet_book.specs.Booking.{book_refusal, cut_refusal, record_of_receipt};
ghost use Rattle.meet_tickets.specs.Refusals.{IsWhy};
ghost use Rattle.meet_tickets.specs.declared.refusals.Refusal.TheVariants.{Memory, HistoryFull};
ghost use Rattle.meet_tickets.specs.Limits.{most_records, most_gone};

mod chapters;
mod drain;

use crate::object::{Bases, Object};
use crate::receipt::Receipt;
pub use chapters::Chapter;
use meet_tickets::{MOST_GONE, Record, Refusal, Refused, SeatNo};
use std::alloc::Global;
use std::marker::Model;

/// A bounded log of an object's steps: the object (the place), the snapshot (the base) of the compacted records, and
/// the records of all steps since. On the base the records are legal, and they lead to the place as it is. There is
/// room for those that its pending requests may still need.
///
/// The records stand before the object, so that their number, which each step writes, lies beside what a step writes
/// first of the object.
#[derive(Drop)]
pub struct Book<O: Object> {
    records: Vec<Record<O::Deed>>,
    object: O,
    cap: u64,
    alloc: Global,
    base: O::Base,
}

impl<O: Object> Model for Book<O> {
    ghost Value = { Booked O O.Base O.Deed };

    ghost view = { λ book. record {
      object = book.object;
      base = book.base;
      records = book.records.items;
      room = vec_capacity book.records - vec_len book.records;
      cap = book.cap;
    } };

    ghost invariant = { λ book.
        O.leads book.base book.records.items book.object
        × (O.gone_of book.base ≤ most_gone)
        × (book.cap ≤ most_records)
        × (length book.records.items + O.owed_of book.object ≤ book.cap)
        × (vec_len book.records + O.owed_of book.object ≤ vec_capacity book.records) };
}

impl<O: Object> Book<O> {
    /// Creates the log of a place that has no history yet. `cap` is its capacity in records, 1 to 1,048,576.
    pub fn new(alloc: Global, object: O, cap: u64) -> Self
        requires fresh { O.leads O.no_base [] object }
        requires cap_from { 0 < cap }
        requires cap_to { cap ≤ most_records }
        ensures { result ≡ record { object = object; base = O.no_base; records = []; room = 0; cap = cap } }
    {
        Book {
            alloc,
            object,
            base: O::empty_base(alloc),
            records: Vec::new(alloc),
            cap,
        }
    }

    /// Returns the place itself, to be read.
    pub fn probe(&self) -> &O
        ensures { result.now ≡ self.now.object }
    {
        &self.object
    }

    /// Returns the snapshot of the compacted records.
    pub fn base(&self) -> &O::Base
        ensures { result.now ≡ self.now.base }
    {
        &self.base
    }

    /// Returns the records since the book was compacted last, in order. On its base they are legal, and lead to the
    /// place as it is.
    ///
    /// # Example
    /// From `crates/examples/src/one_thread/recorded.rt`:
    ///
    ///     let records = book.records(); // the records since the book was cut last
    ///     println!(rt; "{} records", records.len())?;
    pub fn records(&self) -> &[Record<O::Deed>]
        ensures records { result.now ≡ self.now.records }
        ensures leads { O.leads self.now.base self.now.records self.now.object }
        ensures within { length self.now.records + O.owed_of self.now.object ≤ self.now.cap }
        ensures room { O.owed_of self.now.object ≤ self.now.room }
    {
        self.records.as_slice()
    }

    /// Returns its capacity, in records.
    pub fn cap(&self) -> u64
        ensures { result ≡ self.now.cap }
    {
        self.cap
    }

    /// Returns how many records were written since the first, the compacted ones included.
    pub fn written(&self) -> u64
        ensures { result ≡ O.gone_of self.now.base + length self.now.records }
    {
        O::gone(&self.base) + self.records.len() as u64
    }

    /// Makes room for `records` records, beside those that are reserved for pending requests, and `room` in the place.
    /// While that lasts, no call fails with Memory.
    ///
    /// # Errors
    /// - Memory, if an allocation fails: nothing but the book's room has changed.
    pub fn reserve(&mut self, records: u64, room: u64) -> Result<(), Refusal>
        requires few { records ≤ most_records }
        ensures room { OnOk result (O.owed_of self.old.object + records ≤ self.new.room) }
        ensures spare { OnOk result (room ≤ O.spare self.new.object) }
        ensures object { OnOk result (self.new.object ≡ O.with_room self.old.object (O.spare self.new.object)) }
        ensures records { self.new.records ≡ self.old.records }
        ensures base { self.new.base ≡ self.old.base }
        ensures cap { self.new.cap ≡ self.old.cap }
        ensures more { self.old.room ≤ self.new.room }
        ensures memory { IfErr result (λ why. why ≡ Memory) }
        ensures unchanged { OnErr result (self.new ≡ record self.old { room = self.new.room }) }
        ensures enough { O.owed_of self.old.object + records ≤ self.old.room → room ≤ O.spare self.old.object
            → IsOk result }
    {
        make_room(&mut self.object, &mut self.records, records, room)
    }

    /// Why a call is refused, Memory aside: the first that applies.
    #[inline(always)]
    fn refusal(&self, seat: SeatNo, call: &O::Call) -> Option<Refusal>
        ensures first { result ≡ book_refusal (O.refusal_of self.now.object seat call.now)
            (O.owed_of self.now.object) (O.need_of call.now) self.now }
        ensures few { IfNone result (O.owed_of self.now.object + O.need_of call.now < 2 ^ 64) }
    {
        if let Err(why) = self.object.admit(seat, call) {
            return Some(why);
        }
        let free = self.cap - self.records.len() as u64 - self.object.owed();
        if free < O::need(call) {
            Some(Refusal::HistoryFull)
        } else {
            None
        }
    }

    /// Makes a seat's call, and writes its record, if it has one, with the next number, which counts the compacted
    /// records too. An admitted call that needs no record never fails.
    ///
    /// # Errors
    /// Nothing but room has changed, and the call is returned. The first that applies:
    /// - The place's own reason (`admit`).
    /// - HistoryFull, exactly if the records, those that are reserved and those that this call may need are more than
    ///   the capacity.
    /// - Memory, if an allocation fails, and never if there is room for them and for the call in its place.
    ///
    /// # Example
    /// From `crates/examples/src/one_thread/recorded.rt`:
    ///
    ///     let given = book.step(seat, QueueCall::Give(item));
    ///     let (_, receipt) = given.map_err(Refused::into_why)?; // QueueAnswer::Gave(..), Some(receipt)
    #[inline(always)]
    pub fn step(
        &mut self,
        seat: SeatNo,
        call: O::Call,
    ) -> Result<(O::Answer, Option<Receipt<O::Deed>>), Refused<O::Call>>
        ensures step { IfOk result (λ made. O.steps self.old.object seat call made.0 self.new.object) }
        ensures record { IfOk result (λ made. record_of_receipt made.1 ≡ O.record_of seat call made.0) }
        ensures place { IfOk result (λ made. MatchOption made.1 ⊤ (λ receipt. receipt.place
            ≡ O.gone_of self.old.base + length self.old.records + 1)) }
        ensures seat { IfOk result (λ made. MatchOption made.1 ⊤ (λ receipt. receipt.entry.seat ≡ seat)) }
        ensures records { IfOk result (λ made. self.new.records ≡ self.old.records
            ++ option_to_list (record_of_receipt made.1)) }
        ensures admitted { IfOk result (λ _. book_refusal (O.refusal_of self.old.object seat call)
            (O.owed_of self.old.object) (O.need_of call) self.old ≡ None) }
        ensures why { IfErr result (λ refused. IsWhy
            (book_refusal (O.refusal_of self.old.object seat call) (O.owed_of self.old.object) (O.need_of call)
            self.old) refused.why) }
        ensures back { IfErr result (λ refused. refused.back ≡ call) }
        ensures unchanged { IfErr result (λ _. self.new ≡ record self.old { room = self.new.room }) }
        ensures room { length self.old.records + self.old.room ≤ length self.new.records + self.new.room }
        ensures spare { O.spare self.old.object ≤ O.spare self.new.object + O.room_of call }
        ensures cap { self.new.cap ≡ self.old.cap }
        ensures base { self.new.base ≡ self.old.base }
        ensures ending { O.need_of call ≡ 0 → O.refusal_of self.old.object seat call ≡ None → IsOk result }
        ensures enough { O.owed_of self.old.object + O.need_of call ≤ self.old.room
            → O.room_of call ≤ O.spare self.old.object
            → book_refusal (O.refusal_of self.old.object seat call) (O.owed_of self.old.object) (O.need_of call)
            self.old ≡ None → IsOk result }
    {
        match self.refusal(seat, &call) {
            Some(why) => return Err(Refused { why, back: call }),
            None => {}
        }
        let need = O::need(&call);
        if need > 0 {
            let room = O::room(&call);
            if let Err(why) = make_room(&mut self.object, &mut self.records, need, room) {
                return Err(Refused { why, back: call });
            }
        }
        let (answer, record) = self.object.step(seat, call);
        let gone = O::gone(&self.base);
        let receipt = write(gone, &mut self.records, record);
        Ok((answer, receipt))
    }

    /// Returns the place, its base and its records. On the base the records are legal, and lead to the place as it is.
    pub fn into_parts(self) -> (O, O::Base, Vec<Record<O::Deed>>)
        ensures object { result.0 ≡ self.object }
        ensures base { result.1 ≡ self.base }
        ensures records { result.2.items ≡ self.records }
        ensures leads { O.leads self.base self.records self.object }
    {
        (self.object, self.base, self.records)
    }
}

impl<O: Bases> Book<O>
where
    O::Base: Drop,
{
    /// Compacts the log (a checkpoint): the base of the place as it is stands for the records from now on. Returns how
    /// many records were compacted since the first; their numbers go on rising. It writes no record.
    ///
    /// # Errors
    /// Nothing has changed.
    /// - HistoryFull, exactly if more than 2^63 - 1 records would be compacted.
    /// - Memory, if the base can't grow.
    ///
    /// # Example
    /// From `crates/examples/src/one_thread/recorded.rt`:
    ///
    ///     let gone = book.cut()?; // folds them into book.base(): a book never fills for good
    pub fn cut(&mut self) -> Result<u64, Refusal>
        ensures gone { IfOk result (λ gone. gone ≡ O.gone_of self.old.base + length self.old.records) }
        ensures folded { IfOk result (λ gone. O.gone_of self.new.base ≡ gone) }
        ensures base { IfOk result (λ gone. O.is_base self.old.object gone self.new.base) }
        ensures records { IfOk result (λ _. self.new.records ≡ []) }
        ensures object { self.new.object ≡ self.old.object }
        ensures room { length self.new.records + self.new.room ≡ length self.old.records + self.old.room }
        ensures cap { self.new.cap ≡ self.old.cap }
        ensures leads { O.leads self.new.base self.new.records self.new.object }
        ensures admitted { IfOk result (λ _. cut_refusal (O.gone_of self.old.base) self.old ≡ None) }
        ensures why { IfErr result (IsWhy (cut_refusal (O.gone_of self.old.base) self.old)) }
        ensures unchanged { IfErr result (λ _. self.new ≡ self.old) }
    {
        let gone = O::gone(&self.base) + self.records.len() as u64;
        if gone > MOST_GONE {
            return Err(Refusal::HistoryFull);
        }
        let base = self.object.base(self.alloc, gone)?;
        self.base = base;
        self.records.clear();
        Ok(gone)
    }
}

/// Grows a list of records that has no room for `wanted` more.
///
/// # Errors
/// - Memory, if an allocation fails.
#[cold]
#[inline(never)]
fn grow<D: Copy>(records: &mut Vec<Record<D>>, wanted: usize) -> Result<(), Refusal>
    ensures records { records.new.items ≡ records.old.items }
    ensures capacity { vec_capacity records.old ≤ vec_capacity records.new }
    ensures free { OnOk result (vec_len records.new + wanted ≤ vec_capacity records.new) }
    ensures memory { IfErr result (λ why. why ≡ Memory) }
{
    match records.reserve(wanted) {
        Ok(()) => Ok(()),
        Err(_) => Err(Refusal::Memory),
    }
}

/// Makes room for this many records beside those that are owed, and this much in the place.
#[inline(always)]
fn make_room<O: Object>(
    object: &mut O,
    records: &mut Vec<Record<O::Deed>>,
    need: u64,
    room: u64,
) -> Result<(), Refusal>
    requires few { O.owed_of object.old + need < 2 ^ 64 }
    requires owed { vec_len records.old + O.owed_of object.old ≤ vec_capacity records.old }
    ensures same { object.new ≡ O.with_room object.old (O.spare object.new) }
    ensures asks_none { room ≡ 0 → object.new ≡ object.old }
    ensures room { OnOk result (room ≤ O.spare object.new) }
    ensures more { O.spare object.old ≤ O.spare object.new }
    ensures records { records.new.items ≡ records.old.items }
    ensures len { vec_len records.new ≡ vec_len records.old }
    ensures capacity { vec_capacity records.old ≤ vec_capacity records.new }
    ensures free { OnOk result (vec_len records.new + O.owed_of object.old + need ≤ vec_capacity records.new) }
    ensures owed { vec_len records.new + O.owed_of object.old ≤ vec_capacity records.new }
    ensures unchanged { OnErr result (object.new ≡ object.old) }
    ensures memory { IfErr result (λ why. why ≡ Memory) }
    ensures enough { vec_len records.old + O.owed_of object.old + need ≤ vec_capacity records.old
        → room ≤ O.spare object.old → IsOk result }
{
    let wanted = object.owed() + need;
    if records.capacity() - records.len() < wanted as usize {
        grow(records, wanted as usize)?;
    }
    if room == 0 {
        return Ok(());
    }
    object.reserve(room)
}

/// Puts a record behind the others, where there is one, and answers its receipt.
#[inline(always)]
fn write<D: Copy>(
    gone: u64,
    records: &mut Vec<Record<D>>,
    made: Option<Record<D>>,
) -> Option<Receipt<D>>
    requires few { gone + length records.old.items + 1 < 2 ^ 64 }
    requires room { vec_len records.old + length (option_to_list made) ≤ vec_capacity records.old }
    ensures entry { record_of_receipt result ≡ made }
    ensures place { MatchOption result ⊤ (λ receipt. receipt.place ≡ gone + length records.old.items + 1) }
    ensures records { records.new.items ≡ records.old.items ++ option_to_list made }
    ensures capacity { vec_capacity records.new ≡ vec_capacity records.old }
{
    let record = made?;
    records.push_reserved(record);
    Some(Receipt::new(gone + records.len() as u64, record))
}
