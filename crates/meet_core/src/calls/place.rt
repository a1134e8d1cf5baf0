//! What a queue for threads requires of a queue of one thread. What only some of its calls require stands in traits of
//! its own, since each call pays for all that is required.

use crate::calls::queue_calls::{QueueAnswer, QueueCall};
use crate::left::Left;
use meet_book::{Drains, Leaves, Object, Wakes};
use meet_tickets::{Base, Deed, Marked, Refusal, SeatNo, Ticket};
use std::alloc::Global;

/// A queue of one thread as a book's object, always of one kind: its steps, errors and records are those of a queue of
/// this kind, and so is its history.
pub trait QueuePlace: Object<
    Call = QueueCall<Self::Item>,
    Answer = QueueAnswer<Self::Item>,
    Deed = Deed,
    Base = Base,
>
    + Wakes {
    ghost use Rattle.std.specs.Prelude.{◌≡◌, ◌↔◌, ◌≤◌, ℕ, IsTrue, IfOk, IfErr, List, []};
    ghost use Rattle.meet_tickets.specs.declared.places.Kind.{Kind};
    ghost use Rattle.meet_tickets.specs.declared.records.Record.{Record};
    ghost use Rattle.meet_tickets.specs.declared.records.Deed.{Deed};
    ghost use Rattle.meet_tickets.specs.Bases.{Based, no_base};
    ghost use Rattle.meet_tickets.specs.BySeat.{nobody};
    ghost use Rattle.meet_tickets.specs.Limits.{most_seats};
    ghost use Rattle.meet_tickets.specs.declared.refusals.Refusal.TheVariants.{Memory};
    ghost use Rattle.meet_core.specs.Awaits.{AwaitsAs};
    ghost use Rattle.meet_core.specs.Queue.{Queue, seats_of, count_of};
    ghost use Rattle.meet_core.specs.QueueRecords.{queue_record};
    ghost use Rattle.meet_core.specs.QueueRoom.{roomy};
    ghost use Rattle.meet_core.specs.QueueSteps.{QueueStep, LeadsTo, queue_refusal, queue_need};
    ghost use Rattle.meet_core.specs.declared.calls.queue_calls.QueueCall.{QueueCall};
    ghost use Rattle.meet_core.specs.declared.calls.queue_calls.QueueAnswer.{QueueAnswer};

    /// The type of its items.
    type Item: Marked;

    /// Its kind.
    ghost kind: { Kind };

    /// What it shows of itself.
    ghost queue_of: { Self → Queue Self.Item };

    /// Creates an empty queue with `seats` seats (at most 65,536), without a history; its first ticket is 1.
    ///
    /// # Errors
    /// - Memory, if an allocation fails.
    fn unused(alloc: Global, seats: u64) -> Result<Self, Refusal>
        requires seats { seats ≤ most_seats }
        ensures free { IfOk result (λ queue. seats_of (queue_of queue) ≡ nobody) }
        ensures seats { IfOk result (λ queue. count_of (queue_of queue) ≡ seats) }
        ensures last { IfOk result (λ queue. (queue_of queue).last ≡ 0) }
        ensures next { IfOk result (λ queue. (queue_of queue).next ≡ 1) }
        ensures history { IfOk result (λ queue. Self.leads Self.no_base [] queue) }
        ensures memory { IfErr result (λ why. why ≡ Memory) };

    /// Returns true if the seat's open ticket is this one, with this mark. While its item lies here, since it waits or
    /// was interrupted, the item has to have this mark, or there has to be none if this is none.
    fn awaits(&self, seat: SeatNo, ticket: Ticket, mark: Option<u64>) -> bool
        ensures { IsTrue result ↔ AwaitsAs Self.Item.mark_of (seats_of (queue_of self.now)) seat ticket mark };

    /// Drops an empty queue, even if its items can't be dropped.
    fn destroy_empty(self)
        requires empty { seats_of (queue_of self) ≡ nobody };

    /// It makes the steps of a queue of its kind.
    ghost is_step: { (old : Self) (seat : ℕ) (call : QueueCall Self.Item) (answer : QueueAnswer Self.Item) (new : Self)
        → Self.steps old seat call answer new
        → QueueStep Self.Item.mark_of kind (queue_of old) seat call answer (queue_of new) };

    /// It writes the records of a queue.
    ghost is_record: { (seat : ℕ) (call : QueueCall Self.Item) (answer : QueueAnswer Self.Item)
        → Self.record_of seat call answer ≡ queue_record Self.Item.mark_of seat call answer };

    /// Its calls fail as a queue's do.
    ghost is_refusal: { (o : Self) (seat : ℕ) (call : QueueCall Self.Item)
        → Self.refusal_of o seat call ≡ queue_refusal (queue_of o) seat call };

    /// A call of it needs as many records as one of a queue.
    ghost is_need: { (call : QueueCall Self.Item) → Self.need_of call ≡ queue_need call };

    /// Its seats are those that it shows.
    ghost is_count: { (o : Self) → Self.seat_count_of o ≡ count_of (queue_of o) };

    /// Its room is the one that it shows.
    ghost is_room: { (o : Self) → Self.spare o ≡ (queue_of o).room };

    /// With other room it shows nothing else.
    ghost is_roomy: { (o : Self) (room : ℕ) → queue_of (Self.with_room o room) ≡ roomy (queue_of o) room };

    /// It has no base of its own.
    ghost is_no_base: { Self.no_base ≡ no_base };

    /// Nor counts what is gone otherwise.
    ghost is_gone: { Self.gone_of ≡ (λ (base : Based). base.gone) };

    /// Its history is that of a queue of its kind.
    ghost is_history: { (base : Based) (records : List (Record Deed)) (o : Self) → Self.leads base records o
        → LeadsTo Self.Item.mark_of kind base records (queue_of o) };
}

/// Such a queue whose items can be drained as those of a queue.
pub trait QueueDrains: QueuePlace + Drains {
    ghost use Rattle.std.specs.Prelude.{◌≡◌};
    ghost use Rattle.meet_core.specs.QueueSteps.{queue_available};
    ghost use Rattle.meet_core.specs.declared.calls.queue_calls.QueueCall.TheVariants.{Poll};

    /// A drain polls it.
    ghost is_poll: { Self.poll ≡ Poll };

    /// As many items can be drained as producers stand in the wait queue.
    ghost is_available: { (o : Self) → Self.available_of o ≡ queue_available (Self.queue_of o) };
}

/// Such a queue that leaves what a queue leaves.
pub trait QueueLeaves: QueuePlace + Leaves<Left = Left<Self::Item>> {
    ghost use Rattle.std.specs.Prelude.{List};
    ghost use Rattle.meet_tickets.specs.declared.records.Record.{Record};
    ghost use Rattle.meet_tickets.specs.declared.records.Deed.{Deed};
    ghost use Rattle.meet_tickets.specs.Bases.{Based};
    ghost use Rattle.meet_core.specs.LeftTold.{AreLeftOn};
    ghost use Rattle.meet_core.specs.declared.left.Left.{Left};

    /// It leaves what a queue leaves.
    ghost is_left: { (base : Based) (records : List (Record Deed)) (left : List (Left Self.Item))
        → Self.are_left base records left → AreLeftOn Self.Item.mark_of base records left };
}
