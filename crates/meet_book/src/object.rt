//! What a book requires of a place: each of its calls is one step, which writes one record or none.

ghost use Rattle.std.specs.Prelude.{◌≡◌, ◌≢◌, ℕ, ◌+◌, ◌<◌, ◌≤◌, Option, Some, None, List, [], ◌++◌, length};
ghost use Rattle.std.specs.Prelude.{option_to_list, MatchOption, ⊤, IsOk, IfOk, IfErr, OnOk, OnErr};
ghost use Rattle.std.specs.Vec.{vec_capacity};
ghost use Rattle.meet_tickets.specs.declared.records.Record.{Record};
ghost use Rattle.meet_tickets.specs.declared.refusals.Refusal.{Refusal};
ghost use Rattle.meet_tickets.specs.declared.refusals.Refusal.TheVariants.{Memory, HistoryFull, TicketsSpent};
ghost use Rattle.meet_book.specs.Draining.{TakesOne};

use meet_tickets::{Record, Refusal, SeatNo};
use std::alloc::Global;

/// A place (a shared object) whose calls are atomic steps. Only `reserve` allocates.
pub trait Object {
    /// A seat's call.
    type Call;

    /// Its result.
    type Answer;

    /// What a record states of a step.
    type Deed: Copy;

    /// The snapshot of the compacted records.
    type Base;

    /// The base of no records.
    ghost no_base: { Self.Base };

    /// How many records were compacted.
    ghost gone_of: { Self.Base → ℕ };

    /// These records are legal after this base, and lead to the place as it is.
    ghost leads: { Self.Base → List (Record Self.Deed) → Self → Type 0 };

    /// A seat's call makes this step: its result, and what it leaves.
    ghost steps: { Self → ℕ → Self.Call → Self.Answer → Self → Type 0 };

    /// The record of a seat's call with this result, if one is written.
    ghost record_of: { ℕ → Self.Call → Self.Answer → Option (Record Self.Deed) };

    /// Why a seat's call fails, HistoryFull and Memory aside: the first reason that applies.
    ghost refusal_of: { Self → ℕ → Self.Call → Option Refusal };

    /// How many records the pending requests may still need (the reserved ones).
    ghost owed_of: { Self → ℕ };

    /// How many records a call may need: its own, and those that it will reserve.
    ghost need_of: { Self.Call → ℕ };

    /// The number of seats of the place.
    ghost seat_count_of: { Self → ℕ };

    /// How much of the place's room a call may use up.
    ghost room_of: { Self.Call → ℕ };

    /// How much room the place has.
    ghost spare: { Self → ℕ };

    /// The same place with this much room.
    ghost with_room: { Self → ℕ → Self };

    /// Returns the base of no records. It doesn't allocate.
    fn empty_base(alloc: Global) -> Self::Base
        ensures { result ≡ no_base };

    /// Returns how many records were compacted. It doesn't allocate.
    fn gone(base: &Self::Base) -> u64
        ensures { result ≡ gone_of base.now };

    /// Returns whether this seat's call is admitted. It doesn't allocate.
    ///
    /// # Errors
    /// - The first reason of the place that applies (`refusal_of`); never Memory or HistoryFull.
    fn admit(&self, seat: SeatNo, call: &Self::Call) -> Result<(), Refusal>
        ensures admitted { IfOk result (λ _. refusal_of self.now seat call.now ≡ None) }
        ensures why { IfErr result (λ why. refusal_of self.now seat call.now ≡ Some why) }
        ensures own { IfErr result (λ why. (why ≢ Memory) × (why ≢ HistoryFull)) };

    /// Returns how many records this call may need. It doesn't allocate.
    fn need(call: &Self::Call) -> u64
        ensures { result ≡ need_of call.now };

    /// Returns how much of the place's room this call may use up. It doesn't allocate.
    fn room(call: &Self::Call) -> u64
        ensures { result ≡ room_of call.now };

    /// Returns how many records the pending requests may still need. It doesn't allocate.
    fn owed(&self) -> u64
        ensures { result ≡ owed_of self.now };

    /// Makes this much room.
    ///
    /// # Errors
    /// - Memory, if an allocation fails, and never if there is this much.
    fn reserve(&mut self, room: u64) -> Result<(), Refusal>
        ensures same { self.new ≡ with_room self.old (spare self.new) }
        ensures room { OnOk result (room ≤ spare self.new) }
        ensures more { spare self.old ≤ spare self.new }
        ensures unchanged { OnErr result (self.new ≡ self.old) }
        ensures memory { IfErr result (λ why. why ≡ Memory) }
        ensures enough { room ≤ spare self.old → IsOk result };

    /// Makes an admitted call, for which there is room, and returns its result and its record. It doesn't allocate, and
    /// uses up the call's room at most.
    fn step(&mut self, seat: SeatNo, call: Self::Call) -> (Self::Answer, Option<Record<Self::Deed>>)
        requires admitted { refusal_of self.old seat call ≡ None }
        requires room { room_of call ≤ spare self.old }
        ensures step { steps self.old seat call result.0 self.new }
        ensures record { result.1 ≡ record_of seat call result.0 }
        ensures leads { (base : Self.Base) (records : List (Record Self.Deed)) → leads base records self.old
            → leads base (records ++ option_to_list result.1) self.new }
        ensures owed { length (option_to_list result.1) + owed_of self.new ≤ owed_of self.old + need_of call }
        ensures room { spare self.old ≤ spare self.new + room_of call };

    /// A record is of the seat that called.
    ghost own_record: { (seat : ℕ) (call : Self.Call) (answer : Self.Answer)
        → MatchOption (record_of seat call answer) ⊤ (λ entry. entry.seat ≡ seat) };

    /// A place that has the room that it has is the same.
    ghost same_place: { (o : Self) → with_room o (spare o) ≡ o };

    /// A step changes no number of seats.
    ghost same_seats: { (old : Self) (seat : ℕ) (call : Self.Call) (answer : Self.Answer) (new : Self)
        → steps old seat call answer new → seat_count_of new ≡ seat_count_of old };

    /// Nor does room.
    ghost roomy_seats: { (o : Self) (room : ℕ) → seat_count_of (with_room o room) ≡ seat_count_of o };

    /// Room changes no refusal.
    ghost same_refusal: { (o : Self) (room seat : ℕ) (call : Self.Call)
        → refusal_of (with_room o room) seat call ≡ refusal_of o seat call };

    /// Room changes nothing that is owed.
    ghost same_owed: { (o : Self) (room : ℕ) → owed_of (with_room o room) ≡ owed_of o };

    /// Room changes no history.
    ghost same_leads: { (o : Self) (room : ℕ) (base : Self.Base) (records : List (Record Self.Deed))
        → leads base records o → leads base records (with_room o room) };

    /// Room changes no step of a call that asks for it.
    ghost same_steps: { (o : Self) (room seat : ℕ) (call : Self.Call) (answer : Self.Answer) (new : Self)
        → 0 < room_of call → steps (with_room o room) seat call answer new → steps o seat call answer new };

    /// A call that needs no record uses no room.
    ghost roomless: { (call : Self.Call) → need_of call ≡ 0 → room_of call ≡ 0 };

    /// A place without a history owes nothing.
    ghost fresh_owes: { (o : Self) → leads no_base [] o → owed_of o ≡ 0 };

    /// The base of no records has none gone.
    ghost none_gone: { gone_of no_base ≡ 0 };
}

/// A place whose records can be compacted.
pub trait Bases: Object {
    /// This base states all that the place shows of itself, and how many records were compacted.
    ghost is_base: { Self → ℕ → Self.Base → Type 0 };

    /// Returns the base of the place as it is, after `gone` records were compacted. It stands for any base and records
    /// that lead to the place.
    ///
    /// # Errors
    /// - Memory, if an allocation fails.
    fn base(&self, alloc: Global, gone: u64) -> Result<Self::Base, Refusal>
        ensures base { IfOk result (is_base self.now gone) }
        ensures gone { IfOk result (λ new. Self.gone_of new ≡ gone) }
        ensures leads { IfOk result (λ new. (base : Self.Base) (records : List (Record Self.Deed))
            → Self.leads base records self.now → Self.leads new [] self.now) }
        ensures memory { IfErr result (λ why. why ≡ Memory) };

    /// Copies a base.
    ///
    /// # Errors
    /// - Memory, if an allocation fails.
    fn copy_base(alloc: Global, base: &Self::Base) -> Result<Self::Base, Refusal>
        ensures same { IfOk result (λ copy. copy ≡ base.now) }
        ensures memory { IfErr result (λ why. why ≡ Memory) };
}

/// A place whose items can be drained: one poll after another, all in one critical section.
pub trait Drains: Object {
    /// The call that takes one item, if one is there.
    ghost poll: { Self.Call };

    /// How many items are there to be taken.
    ghost available_of: { Self → ℕ };

    /// How many tickets are left.
    ghost unspent_of: { Self → ℕ };

    /// Returns how many items are there to be taken. It doesn't allocate.
    fn available(&self) -> u64
        ensures { result ≡ available_of self.now };

    /// Returns how many tickets are left. It doesn't allocate.
    fn tickets_left(&self) -> u64
        ensures { result ≡ unspent_of self.now };

    /// Returns whether this seat's poll is admitted. It doesn't allocate.
    ///
    /// # Errors
    /// - The first reason of the place that applies (`refusal_of`); never Memory or HistoryFull, and TicketsSpent only
    ///   if no ticket is left.
    fn admit_poll(&self, seat: SeatNo) -> Result<(), Refusal>
        ensures admitted { IfOk result (λ _. Self.refusal_of self.now seat poll ≡ None) }
        ensures why { IfErr result (λ why. Self.refusal_of self.now seat poll ≡ Some why) }
        ensures own { IfErr result (λ why. (why ≢ Memory) × (why ≢ HistoryFull)) }
        ensures tickets { 0 < unspent_of self.now → Self.refusal_of self.now seat poll ≢ Some TicketsSpent };

    /// Returns the call that takes one item, if one is there. It doesn't allocate.
    fn poll_call(&self) -> Self::Call
        ensures call { result ≡ poll }
        ensures takes { (seat : ℕ) (answer : Self.Answer) (new : Self)
            → Self.steps self.now seat poll answer new → Self.refusal_of self.now seat poll ≡ None
            → 0 < available_of self.now
            → TakesOne available_of unspent_of Self.owed_of (λ o. Self.refusal_of o seat poll)
            (Self.record_of seat poll answer) self.now new };

    /// Returns the seat that may go on, now that a poll has taken its item. It is a hint: nothing is promised of it.
    fn met(&self) -> Option<SeatNo>;

    /// A poll uses no room.
    ghost poll_fits: { Self.room_of poll ≡ 0 };
}

/// A watch is notified of the seats that may go on after the polls of a drain. What it learns is a hint.
pub trait Watch {
    /// Notifies it: a poll was made, and this seat may go on.
    fn tell(&mut self, seat: Option<SeatNo>);
}

/// A `Watch` that ignores all notifications.
#[derive(Drop)]
pub struct Unwatched {}

impl Watch for Unwatched {
    fn tell(&mut self, _seat: Option<SeatNo>) {}
}

/// A place whose results state whom a call should wake.
pub trait Wakes: Object {
    /// Returns the seat that may go on, now that a call had this result and has left the place like this. It is a hint:
    /// nothing is promised of it.
    fn wakes(&self, answer: &Self::Answer) -> Option<SeatNo>;
}

/// A place that can be taken apart, with all that lies in it.
pub trait Leaves: Object {
    /// One thing that lies in the place.
    type Left;

    /// How many things lie in the place.
    ghost left_count: { Self → ℕ };

    /// What lies in a place to which these records lead after this base: these things, each once, and no other.
    ghost are_left: { Self.Base → List (Record Self.Deed) → List Self.Left → Type 0 };

    /// Returns how many things lie in the place. It doesn't allocate.
    fn left(&self) -> u64
        ensures { result ≡ left_count self.now };

    /// Moves what lies in the place into this empty list, which has room for it, and returns the list. It doesn't
    /// allocate.
    fn leave(self, empty: Vec<Self::Left>) -> Vec<Self::Left>
        requires empty { empty.items ≡ [] }
        requires room { left_count self ≤ vec_capacity empty }
        ensures { (base : Self.Base) (records : List (Record Self.Deed)) → Self.leads base records self
            → are_left base records result.items };
}
