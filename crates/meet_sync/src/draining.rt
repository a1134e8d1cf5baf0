//! The bulk poll (the drain) of a queue for threads.

ghost use Rattle.std.specs.Prelude.{◌≡◌, ◌⊎◌, Some, None, [], ◌≤◌, length, min, vec_len, IfOk, IfErr, IsSome};
ghost use Rattle.std.specs.Vec.{vec_capacity};
ghost use Rattle.meet_place.specs.Seats.{IsLater};
ghost use Rattle.meet_sync.specs.Drained.{DrainedTo, IsLeastFor, AllBring, AreItemsOf, item_told};
ghost use Rattle.meet_sync.specs.Asking.{RefusedAs};
ghost use Rattle.meet_sync.specs.Told.{IsRequestWhy};

use crate::asked::SeatRefused;
use crate::queue::Queue;
use meet_core::{Polled, QueueAnswer, QueueDrains};
use meet_place::{Gate, Ledgers, Seat};
use meet_tickets::{Deed, Refusal};
use std::alloc::Global;
use std::sync::Wait;

/// The item that an answer brings.
fn item_of_answer<T>(answer: QueueAnswer<T>) -> T
    requires { IsSome (item_told answer) }
    ensures { item_told answer ≡ Some result }
{
    match answer {
        QueueAnswer::Polled(Polled::Meets(_, _, item)) => item,
        _ => unreachable!(),
    }
}

/// The items that the answers bring, in their order. The empty list has room for them.
fn items_of<T>(answers: Vec<QueueAnswer<T>>, empty: Vec<T>) -> Vec<T>
    requires empty { empty.items ≡ [] }
    requires room { vec_len answers ≤ vec_capacity empty }
    requires items { AllBring answers.items }
    ensures items { AreItemsOf answers.items result.items }
    ensures count { vec_len result ≡ vec_len answers }
{
    let mut items = empty;
    let mut rest = answers.into_iter();
    while let Some(answer) = rest.next() {
        items.push_reserved(item_of_answer(answer));
    }
    rest.destroy_empty();
    items
}

/// A seat, and the items that its drain took.
#[derive(Debug, Drop)]
pub struct DrainedItems<T, N: Ledgers> {
    /// The seat, with a receipt for each item.
    pub seat: Seat<Deed, N>,
    /// The items, in the order in which they were taken.
    pub items: Vec<T>,
}

/// A drain of no more items makes room for as many as were asked for, and takes the lock once. Above that it looks
/// first how many there are, and asks for no more room than is of use. Our choice.
const FEW: u64 = 64;

impl<O: QueueDrains, G: Gate, N: Ledgers> Queue<O, G, N> {
    /// For how many items a drain of up to `max` makes room: `max` where that is few, else as many of it as are there.
    fn room_for<R: Wait>(&self, rt: &R, max: u64) -> u64
        ensures { (result ≡ max) ⊎ ((look : O) × (O.seat_count_of look ≡ N.parts)
            × (result ≡ min (O.available_of look) max)) }
    {
        if max <= FEW {
            return max;
        }
        self.place.available(rt).min(max)
    }

    /// Takes the items, one poll after another under one hold. It refuses Memory where the list of the items or the
    /// seat's can't grow; else what the book does, before anything is taken.
    fn take_all<R: Wait>(
        &self,
        rt: &R,
        alloc: Global,
        seat: &mut Seat<Deed, N>,
        max: u64,
    ) -> Result<Vec<O::Item>, Refusal>
        ensures number { seat.new.number ≡ seat.old.number }
        ensures past { seat.new.past ≡ seat.old.past }
        ensures count { IfOk result (λ items. IsLeastFor O.Item N.parts max (length items.items)) }
        ensures drained { IfOk result (λ items. DrainedTo O.Item.mark_of seat.old seat.new items.items) }
        ensures later { IsLater seat.old.moment seat.new.moment seat.old.list seat.new.list }
        ensures why { IfErr result IsRequestWhy }
        ensures same { IfErr result (λ _. seat.new.list ≡ seat.old.list) }
    {
        let there = self.room_for(rt, max);
        let Ok(empty) = Vec::with_capacity(alloc, there as usize) else {
            return Err(Refusal::Memory);
        };
        match self.place.locked_drain(rt, alloc, seat, there) {
            Ok(answers) => Ok(items_of(answers, empty)),
            Err(why) => {
                empty.destroy_empty();
                Err(why)
            }
        }
    }

    /// Takes up to `max` items that producers in the wait queue brought, in the order in which polls would. All are
    /// taken in one critical section, each by a logged poll. If `max` is above 64 it looks first how many there are,
    /// and takes no more.
    ///
    /// # Errors
    /// The seat is returned, and nothing is taken. The first that applies:
    /// - Memory, if a list can't grow.
    /// - SeatOpen, if the seat has a pending request (an open ticket).
    /// - TicketsSpent, if fewer request ids (tickets) are left than items to take.
    /// - HistoryFull, if the log has no room for the records.
    /// - Memory, if the queue can't grow.
    ///
    /// # Example
    /// From `crates/meet_sync_tests/src/drains.rt`:
    ///
    ///     match store.drain(rt, alloc, taker, 3) {
    ///         Ok(drained) => drained,
    ///
    /// Java: `BlockingQueue.drainTo`.
    pub fn drain<R: Wait>(
        &self,
        rt: &R,
        alloc: Global,
        mut seat: Seat<Deed, N>,
        max: u64,
    ) -> Result<DrainedItems<O::Item, N>, SeatRefused<O::Item, N>>
        ensures number { IfOk result (λ drained. drained.seat.number ≡ seat.number) }
        ensures past { IfOk result (λ drained. drained.seat.past ≡ seat.past) }
        ensures count { IfOk result (λ drained. IsLeastFor O.Item N.parts max (length drained.items.items)) }
        ensures drained { IfOk result (λ drained. DrainedTo O.Item.mark_of seat drained.seat drained.items.items) }
        ensures later { IfOk result (λ drained. IsLater seat.moment drained.seat.moment seat.list drained.seat.list) }
        ensures refused { IfErr result (RefusedAs IsRequestWhy seat None) }
    {
        match self.take_all(rt, alloc, &mut seat, max) {
            Ok(items) => Ok(DrainedItems { seat, items }),
            Err(why) => Err(SeatRefused {
                why,
                seat,
                item: None,
            }),
        }
    }
}
