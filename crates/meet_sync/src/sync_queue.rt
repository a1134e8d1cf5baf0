//! The synchronous queue for threads.

ghost use Rattle.std.specs.Prelude.{◌≡◌, ◌<◌, ⊤, IfOk, IfErr};
ghost use Rattle.meet_core.specs.QueueSteps.{kind_of};
ghost use Rattle.meet_sync.specs.Asking.{item_of, RefusedAs};
ghost use Rattle.meet_sync.specs.Ending.{EndedAs};
ghost use Rattle.meet_sync.specs.Told.{IsRequestWhy};
ghost use Rattle.meet_sync.specs.declared.asked.Request.TheVariants.{Give, Offer};

use crate::asked::{Ended, Request, SeatRefused};
use crate::queue::Queue;
use meet_core::Dual;
use meet_line::Line;
use meet_place::{Gate, Ledgers, Seat};
use meet_tickets::{Deed, Marked};
use std::sync::Wait;
use std::time::Clock;

/// The synchronous queue for threads: over a `FairLine` in fair mode, over a `StackLine` in the default mode.
///
/// Java: `SynchronousQueue`.
pub type SyncQueue<T, L, G, N> = Queue<Dual<T, L>, G, N>;

impl<T: Marked, L: Line<T>, G: Gate, N: Ledgers> Queue<Dual<T, L>, G, N> {
    /// Gives an item, and waits until it is taken, which may be never. It ends with Gave if a consumer waited there,
    /// and with Done if one came. If its seat is interrupted, it ends with EntryInterrupted or Interrupted, which
    /// return the item.
    ///
    /// # Errors
    /// - Memory, SeatOpen, TicketsSpent or HistoryFull, as `request`.
    ///
    /// # Example
    /// From `crates/meet_shop/src/calls.rt`:
    ///
    ///     Call::Put(item) => whole(queue.put(rt, seat, item)),
    ///
    /// Java: `SynchronousQueue.put`.
    pub fn put<R: Wait + Clock>(
        &self,
        rt: &R,
        seat: Seat<Deed, N>,
        item: T,
    ) -> Result<Ended<T, N>, SeatRefused<T, N>>
        ensures ended { IfOk result (λ ended. EndedAs (kind_of L.end) ⊥ T.mark_of seat (Give item) ended) }
        ensures refused { IfErr result (RefusedAs IsRequestWhy seat (item_of (Give item))) }
    {
        self.ask(rt, seat, Request::Give(item), None)
    }

    /// Gives an item to a consumer that waits, and ends with Gave. If none waits, it ends with Failed, which returns
    /// the item. It doesn't wait.
    ///
    /// # Errors
    /// - Memory, SeatOpen, TicketsSpent or HistoryFull, as `request`.
    ///
    /// # Example
    /// From `crates/meet_shop/src/calls.rt`:
    ///
    ///     Call::Offer(item) => whole(queue.offer(rt, seat, item)),
    ///
    /// Java: `SynchronousQueue.offer`.
    pub fn offer<R: Wait + Clock>(
        &self,
        rt: &R,
        seat: Seat<Deed, N>,
        item: T,
    ) -> Result<Ended<T, N>, SeatRefused<T, N>>
        ensures ended { IfOk result (λ ended. EndedAs (kind_of L.end) ⊥ T.mark_of seat (Offer item) ended) }
        ensures refused { IfErr result (RefusedAs IsRequestWhy seat (item_of (Offer item))) }
    {
        self.ask(rt, seat, Request::Offer(item), None)
    }

    /// Gives an item, and waits for `limit` milliseconds at most. It ends as `put`, or with TimedOut, which returns the
    /// item. With a limit of 0 it is `offer`.
    ///
    /// # Errors
    /// - Memory, SeatOpen, TicketsSpent or HistoryFull, as `request`.
    ///
    /// # Example
    /// From `crates/examples/src/server/serving.rt`:
    ///
    ///     match server.queue.offer_for(rt, seat, connection, PATIENCE) {
    ///         Ok(offered) => {
    ///             tend_and_release(rt, server, offered.seat)?;
    ///             match offered.end {
    ///                 End::TimedOut(back) => Ok(back),
    ///                 _ => Ok(None),
    ///             }
    ///         }
    ///
    /// Java: `SynchronousQueue.offer` with a timeout.
    pub fn offer_for<R: Wait + Clock>(
        &self,
        rt: &R,
        seat: Seat<Deed, N>,
        item: T,
        limit: u64,
    ) -> Result<Ended<T, N>, SeatRefused<T, N>>
        ensures now { limit ≡ 0 → IfOk result (λ ended. EndedAs (kind_of L.end) ⊥ T.mark_of seat (Offer item) ended) }
        ensures timed { 0 < limit → IfOk result (λ ended. EndedAs (kind_of L.end) ⊤ T.mark_of seat (Give item) ended) }
        ensures refused { IfErr result (RefusedAs IsRequestWhy seat (item_of (Give item))) }
    {
        self.give_for(rt, seat, item, limit)
    }
}
