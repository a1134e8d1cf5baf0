//! The transfer queue for threads.

ghost use Rattle.std.specs.Prelude.{◌≡◌, ◌<◌, ⊤, None, IfOk, IfErr};
ghost use Rattle.meet_core.specs.QueueSteps.{bounded_kind};
ghost use Rattle.meet_sync.specs.Asking.{item_of, RefusedAs};
ghost use Rattle.meet_sync.specs.Ending.{EndedAs};
ghost use Rattle.meet_sync.specs.Told.{IsRequestWhy};
ghost use Rattle.meet_sync.specs.declared.asked.Request.TheVariants.{Put, Give, Offer};

use crate::asked::{Asked, Ended, Request, SeatRefused};
use crate::queue::Queue;
use meet_place::{Gate, Ledgers, Seat};
use meet_tickets::{Deed, Marked};
use meet_transfer::Unbounded;
use std::sync::Wait;
use std::time::Clock;

/// The transfer queue for threads.
///
/// Java: `LinkedTransferQueue`.
pub type TransferQueue<T, G, N> = Queue<Unbounded<T>, G, N>;

impl<T: Marked, G: Gate, N: Ledgers> Queue<Unbounded<T>, G, N> {
    /// Gives the item to a consumer that waits, and ends with Gave; or buffers it, and ends with Kept. It never waits,
    /// and never ends with Failed.
    ///
    /// # Errors
    /// - Memory, SeatOpen, TicketsSpent or HistoryFull, as `request`.
    ///
    /// # Example
    /// From `crates/examples/src/pipeline/stages.rt`:
    ///
    ///     let put = out.put(rt, seat, number).map_err(SeatRefused::into_why)?;
    ///     seat = put.seat;
    ///
    /// Java: `LinkedTransferQueue.put`.
    pub fn put<R: Wait>(
        &self,
        rt: &R,
        seat: Seat<Deed, N>,
        item: T,
    ) -> Result<Ended<T, N>, SeatRefused<T, N>>
        ensures ended { IfOk result (λ ended. EndedAs (bounded_kind None) ⊥ T.mark_of seat (Put item) ended) }
        ensures refused { IfErr result (RefusedAs IsRequestWhy seat (item_of (Put item))) }
    {
        match self.request(rt, seat, Request::Put(item)) {
            Ok(asked) => match asked {
                Asked::Settled(seat, answer) => Ok(Ended {
                    seat,
                    end: answer.into_end(),
                }),
                // A queue that keeps its items lets no put wait.
                Asked::Parked(_) => unreachable!(),
            },
            Err(refused) => Err(refused),
        }
    }

    /// Puts the item, as `put` does.
    ///
    /// # Errors
    /// - Memory, SeatOpen, TicketsSpent or HistoryFull, as `request`.
    ///
    /// Java: `LinkedTransferQueue.offer`.
    pub fn offer<R: Wait>(
        &self,
        rt: &R,
        seat: Seat<Deed, N>,
        item: T,
    ) -> Result<Ended<T, N>, SeatRefused<T, N>>
        ensures ended { IfOk result (λ ended. EndedAs (bounded_kind None) ⊥ T.mark_of seat (Put item) ended) }
        ensures refused { IfErr result (RefusedAs IsRequestWhy seat (item_of (Put item))) }
    {
        self.put(rt, seat, item)
    }

    /// Puts the item, as `put` does. It never waits, so the limit has no effect.
    ///
    /// # Errors
    /// - Memory, SeatOpen, TicketsSpent or HistoryFull, as `request`.
    ///
    /// Java: `LinkedTransferQueue.offer` with a timeout.
    pub fn offer_for<R: Wait>(
        &self,
        rt: &R,
        seat: Seat<Deed, N>,
        item: T,
        _limit: u64,
    ) -> Result<Ended<T, N>, SeatRefused<T, N>>
        ensures ended { IfOk result (λ ended. EndedAs (bounded_kind None) ⊥ T.mark_of seat (Put item) ended) }
        ensures refused { IfErr result (RefusedAs IsRequestWhy seat (item_of (Put item))) }
    {
        self.offer(rt, seat, item)
    }

    /// Gives an item, and waits until it is taken, which may be never. It ends with Gave if a consumer waited there,
    /// and with Done if one came. If its seat is interrupted, it ends with EntryInterrupted or Interrupted, which
    /// return the item.
    ///
    /// # Errors
    /// - Memory, SeatOpen, TicketsSpent or HistoryFull, as `request`.
    ///
    /// # Example
    /// From `crates/meet_shop/src/calls.rt`:
    ///
    ///     Call::Transfer(item) => whole(queue.transfer(rt, seat, item)),
    ///
    /// Java: `LinkedTransferQueue.transfer`.
    pub fn transfer<R: Wait + Clock>(
        &self,
        rt: &R,
        seat: Seat<Deed, N>,
        item: T,
    ) -> Result<Ended<T, N>, SeatRefused<T, N>>
        ensures ended { IfOk result (λ ended. EndedAs (bounded_kind None) ⊥ T.mark_of seat (Give item) ended) }
        ensures refused { IfErr result (RefusedAs IsRequestWhy seat (item_of (Give item))) }
    {
        self.ask(rt, seat, Request::Give(item), None)
    }

    /// Gives an item to a consumer that waits, and ends with Gave. If none waits, it ends with Failed, which returns
    /// the item. It doesn't wait.
    ///
    /// # Errors
    /// - Memory, SeatOpen, TicketsSpent or HistoryFull, as `request`.
    ///
    /// # Example
    /// From `crates/meet_shop/src/calls.rt`:
    ///
    ///     Call::TryTransfer(item) => whole(queue.try_transfer(rt, seat, item)),
    ///
    /// Java: `LinkedTransferQueue.tryTransfer`.
    pub fn try_transfer<R: Wait + Clock>(
        &self,
        rt: &R,
        seat: Seat<Deed, N>,
        item: T,
    ) -> Result<Ended<T, N>, SeatRefused<T, N>>
        ensures ended { IfOk result (λ ended. EndedAs (bounded_kind None) ⊥ T.mark_of seat (Offer item) ended) }
        ensures refused { IfErr result (RefusedAs IsRequestWhy seat (item_of (Offer item))) }
    {
        self.ask(rt, seat, Request::Offer(item), None)
    }

    /// Gives an item, and waits for `limit` milliseconds at most. It ends as `transfer`, or with TimedOut, which
    /// returns the item. With a limit of 0 it is `try_transfer`.
    ///
    /// # Errors
    /// - Memory, SeatOpen, TicketsSpent or HistoryFull, as `request`.
    ///
    /// # Example
    /// From `crates/examples/src/parcels/passing.rt`:
    ///
    ///     match counter.transfer_for(rt, seat, parcel, plan.patience) {
    ///         Ok(ended) => {
    ///             match counter.tend(rt, ended.seat) {
    ///                 Ok(tended) => seat = tended,
    ///                 Err(refused) => return stopped(refused, hand),
    ///             }
    ///         }
    ///         Err(refused) => return stopped(refused, hand),
    ///     }
    ///
    /// Java: `LinkedTransferQueue.tryTransfer` with a timeout.
    pub fn transfer_for<R: Wait + Clock>(
        &self,
        rt: &R,
        seat: Seat<Deed, N>,
        item: T,
        limit: u64,
    ) -> Result<Ended<T, N>, SeatRefused<T, N>>
        ensures now { limit ≡ 0 → IfOk result (λ ended. EndedAs (bounded_kind None) ⊥ T.mark_of seat (Offer item)
            ended) }
        ensures timed { 0 < limit → IfOk result (λ ended. EndedAs (bounded_kind None) ⊤ T.mark_of seat (Give item)
            ended) }
        ensures refused { IfErr result (RefusedAs IsRequestWhy seat (item_of (Give item))) }
    {
        self.give_for(rt, seat, item, limit)
    }
}
