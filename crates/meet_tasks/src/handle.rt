//! The handles by which the threads of a task call their queue.

ghost use Rattle.std.specs.Prelude.{◌≡◌, ◌<◌, ◌≤◌, ⊤, ℕ, ◌+◌, ◌%◌, ◌^◌, true, false, if◌then◌else◌, IsOk, IsSome, IsErrAnd, IfSome, IfOk, IfErr, Some, None, ◌∷◌, [], length, max};
ghost use Rattle.meet_tickets.specs.declared.refusals.Refusal.TheVariants.{NoSuchSeat, Memory};
ghost use Rattle.meet_place.specs.Tending.{Tends, is_to_look, may_lie};
ghost use Rattle.meet_tickets.specs.Limits.{most_gone};
ghost use Rattle.meet_tickets.specs.Meeting.{keeps};
ghost use Rattle.meet_sync.specs.Chronicles.{IsChapter};
ghost use Rattle.meet_sync.specs.Asking.{item_of};
ghost use Rattle.meet_sync.specs.Drained.{IsLeastFor};
ghost use Rattle.meet_sync.specs.Ending.{MayRunOut};
ghost use Rattle.meet_sync.specs.Told.{IsRequestWhy, IsInterruptWhy, IsCutWhy};
ghost use Rattle.meet_sync.specs.declared.asked.Request.TheVariants.{Put, Give, Offer, Take, Poll};
ghost use Rattle.meet_threads.specs.LabelMarks.{label_mark, IsOf};
ghost use Rattle.meet_tasks.specs.Outcomes.{EndFits, SendsAs, ReceivesAs, FailsAs};
ghost use Rattle.meet_tasks.specs.Handles.{HandleView, CalledAs, DrainsAs, Keeps, InterruptsAs, InterruptsAll, InterruptsSome, TendsAs, TrimsAs, RotatesAs};

use crate::outcomes::{NotReceived, Unsent, received, sent};
use crate::probes::Probes;
use crate::refused::CallRefused;
use meet_sync::{Chapter, End, Request};
use meet_threads::Labelled;
use meet_tickets::{Marked, Refusal};
use std::sync::Wait;
use std::time::Clock;

/// Makes the calls of one thread at a queue, one after another (a worker's handle). They are those of `BlockingQueue`
/// and `TransferQueue`, and the probes (`Probes`). A synchronous queue is a transfer queue without capacity: `put` and
/// `transfer` are the same there, as the documentation of `TransferQueue` states.
///
/// A call that writes records first compacts the log if that is more than half full (`tend`), so the log doesn't fill
/// (tested, not proved). After `keep_log` no call does.
///
/// # Example
/// From `crates/example_first/src/main.rt`:
///
///     fn produce<Q: QueueHandle<u64>>(&self, queue: &mut Q) -> Self::Produced {
///         queue.offer_for(7, 60_000) // milliseconds
///     }
pub trait QueueHandle<T: Marked>: Probes {
    /// The runtime handle for blocking and the clock.
    type Runtime: Wait + Clock;

    /// A moment of its queue: how many records had been written by then. It takes no bytes.
    type Moment: Drop;

    /// The number of records that a moment states.
    ghost written_by: { Self.Moment → ℕ };

    /// The number of seats of its queue.
    ghost count: { ℕ };

    /// The capacity of its queue's log, in records.
    ghost cap: { ℕ };

    /// Its seat, whether it keeps the log, and how many labels it gave.
    ghost handle_of: { Self → HandleView };

    /// Returns the number of its seat, from 0.
    fn number(&self) -> u64
        ensures { IfSome (handle_of self.now).seat (λ seat. result ≡ seat.number) };

    /// Returns the number of seats of its queue.
    fn seats(&self) -> u64
        ensures { result ≡ count };

    /// Returns the moment that its seat knows of (`Seat::moment`): all records that the seat wrote, and all that it was
    /// shown, stand up to there. It can be copied, and sent to another thread, whose handle is shown it by `learn`.
    ///
    /// # Example
    /// From `crates/meet_tasks_tests/src/moments.rt`:
    ///
    ///     let put = queue.put(7);
    ///     let behind = queue.moment();
    fn moment(&self) -> Self::Moment
        ensures { IfSome (handle_of self.now).seat (λ seat. written_by result ≡ seat.moment) };

    /// Raises the seat's moment to this one of its queue, if that is later. Each later call of the handle stands behind
    /// it in the log.
    fn learn(&mut self, moment: &Self::Moment)
        ensures { IfSome (handle_of self.old).seat (λ seat. handle_of self.new
            ≡ record (handle_of self.old) {
              seat = Some (record seat {
                moment = max seat.moment
                    (written_by moment.now);
              });
            }) };

    /// Keeps the log: of the later calls of this handle only `tend` and `rotate` compact it. Then a call fails with
    /// HistoryFull after 1,048,576 records, unless `rotate` returned them before. The log is kept only if each handle of
    /// the task keeps it, as those of a `KeepLog` do.
    ///
    /// # Example
    /// From `crates/meet_tasks/src/tasks.rt`:
    ///
    ///     queue.keep_log();
    ///     self.0.run(queue)
    fn keep_log(&mut self)
        ensures { handle_of self.new ≡ record (handle_of self.old) { keeps_log = true } };

    /// Labels a value with an item id (a mark): the number of the seat, and from there on each 65,536th. So no other seat
    /// of this queue gives the mark to a label, nor does this one until it has labelled 2^48 values.
    ///
    /// # Example
    /// From `crates/examples/src/strings.rt`:
    ///
    ///     let item = queue.label(format!(in self.0; "an ibis")?);
    fn label<V>(&mut self, value: V) -> Labelled<V>
        ensures value { result.value ≡ value }
        ensures mark { IfSome (handle_of self.old).seat (λ seat.
            result.mark ≡ label_mark seat.number (handle_of self.old).labels) }
        ensures own { IfSome (handle_of self.old).seat (λ seat. IsOf seat.number result.mark) }
        ensures next { handle_of self.new
            ≡ record (handle_of self.old) { labels = ((handle_of self.old).labels + 1) % 2 ^ 64 } };

    /// Makes a whole call of the queue: a request, and the wait for its completion. `limit` is in milliseconds; without
    /// one only a counterpart or an interrupt ends the wait. If the compaction before it fails, the call goes on.
    ///
    /// # Errors
    /// The item is returned, and nothing is logged.
    /// - Memory, if an allocation fails.
    /// - HistoryFull, if the log has no room for the records that the call may need.
    /// - TicketsSpent, if all 2^63 - 1 request ids (tickets) are used.
    /// - SeatOpen, if the seat has a pending request (an open ticket).
    fn ask(&mut self, request: Request<T>, limit: Option<u64>) -> Result<End<T>, CallRefused<T>>
        ensures ended { IfOk result (λ end. CalledAs cap count Self.kind (MayRunOut limit) T.mark_of
            (handle_of self.old) (handle_of self.new) request end) }
        ensures fits { IfOk result (EndFits (item_of request)) }
        ensures same { IfErr result (λ _. Keeps cap count (handle_of self.old) (handle_of self.new)) }
        ensures item { IfErr result (λ refused. refused.item ≡ item_of request) }
        ensures why { IfErr result (λ refused. IsRequestWhy refused.why) };

    /// Interrupts the thread that has the seat of this number. If it waits, its call ends as interrupted; otherwise the
    /// interrupt becomes pending (the seat is flagged), and its next call that would wait ends as interrupted.
    ///
    /// # Errors
    /// Nothing is logged.
    /// - NoSuchSeat, exactly if the queue has no seat of this number.
    /// - HistoryFull, if the log has no room for the record.
    /// - Memory, if an allocation fails.
    ///
    /// # Example
    /// From `crates/meet_tasks_tests/src/calls.rt`:
    ///
    ///     if queue.number() == 0 {
    ///         return queue.interrupt(1).is_ok();
    ///     }
    ///
    /// Java: `Thread.interrupt`.
    fn interrupt(&mut self, target: u64) -> Result<(), CallRefused<T>>
        ensures interrupted { IfOk result (λ _. InterruptsAs cap count
            (handle_of self.old) (handle_of self.new) (target ∷ [])) }
        ensures missing { count ≤ target → IsErrAnd result (λ refused. refused.why ≡ NoSuchSeat) }
        ensures there { IfOk result (λ _. target < count) }
        ensures same { IfErr result (λ _. Keeps cap count (handle_of self.old) (handle_of self.new)) }
        ensures item { IfErr result (λ refused. refused.item ≡ None) }
        ensures why { IfErr result (λ refused. IsInterruptWhy count target refused.why) };

    /// Interrupts every other seat, in the order of their numbers. So the users of a queue are stopped.
    ///
    /// # Errors
    /// The seats below some number were interrupted, and no others.
    /// - HistoryFull, if the log has no room for a record.
    /// - Memory, if an allocation fails.
    ///
    /// # Example
    /// From `crates/meet_tasks_tests/src/stops.rt`:
    ///
    ///     if queue.number() == 0 {
    ///         return queue.interrupt_all().is_ok();
    ///     }
    ///     match queue.poll_for(LIMIT) {
    ///         Err(NotReceived::Interrupted) => true,
    ///         _ => false,
    ///     }
    fn interrupt_all(&mut self) -> Result<(), CallRefused<T>>
        ensures all { IfOk result (λ _. InterruptsAll cap count (handle_of self.old) (handle_of self.new)) }
        ensures some { IfErr result (λ _. InterruptsSome cap count (handle_of self.old) (handle_of self.new)) }
        ensures item { IfErr result (λ refused. refused.item ≡ None) }
        ensures why { IfErr result (λ refused. IsCutWhy refused.why) };

    /// Takes up to `max` items that producers in the wait queue brought, in the order in which polls would, in one
    /// critical section, each by a logged poll (`Queue::drain`).
    ///
    /// # Errors
    /// Nothing is taken.
    /// - Memory, HistoryFull, TicketsSpent or SeatOpen, as `ask`.
    ///
    /// # Example
    /// From `crates/meet_tasks_tests/src/drains.rt`:
    ///
    ///     let two = match queue.drain(2) {
    ///         Ok(items) => items.as_slice() == [7, 8].as_slice(),
    ///
    /// Java: `BlockingQueue.drainTo`.
    fn drain(&mut self, max: u64) -> Result<Vec<T>, CallRefused<T>>
        ensures drained { IfOk result (λ items. DrainsAs cap count T.mark_of (handle_of self.old) (handle_of self.new)
            items.items) }
        ensures count { IfOk result (λ items. IsLeastFor T count max (length items.items)) }
        ensures same { IfErr result (λ _. Keeps cap count (handle_of self.old) (handle_of self.new)) }
        ensures item { IfErr result (λ refused. refused.item ≡ None) }
        ensures why { IfErr result (λ refused. IsRequestWhy refused.why) };

    /// Compacts the log if it is more than half full. Each call does this first, unless the handle keeps the log. It
    /// does nothing if few receipts lie in the seat's list, or the last of them doesn't show that the log may be more
    /// than half full (`is_to_look`).
    ///
    /// # Errors
    /// The records stay; the seat's receipts for what was compacted before are dropped.
    /// - HistoryFull, if more than 2^63 - 1 records would be compacted.
    /// - Memory, if an allocation fails.
    fn tend(&mut self) -> Result<(), CallRefused<T>>
        ensures few { IfSome (handle_of self.old).seat (λ seat. length seat.list ≤ may_lie cap count
            → IsOk result × (handle_of self.new ≡ handle_of self.old)) }
        ensures idle { IfSome (handle_of self.old).seat (λ seat. is_to_look cap count seat ≡ false
            → IsOk result × (handle_of self.new ≡ handle_of self.old)) }
        ensures looked { IfSome (handle_of self.old).seat (λ seat. is_to_look cap count seat ≡ true
            → IfOk result (λ _. IfSome (handle_of self.new).seat (Tends seat))) }
        ensures tended { IfOk result (λ _. TendsAs (handle_of self.old) (handle_of self.new)) }
        ensures trimmed { IfErr result (λ _. TrimsAs (handle_of self.old) (handle_of self.new)) }
        ensures item { IfErr result (λ refused. refused.item ≡ None) }
        ensures why { IfErr result (λ refused. IsCutWhy refused.why) };

    /// Compacts the log, and returns the records so far with the base on which they stand (`Queue::rotate`). Its
    /// chapters, one after another, are the history before that of the closed queue. A seat keeps its receipts for them
    /// until it tends (`tend`).
    ///
    /// # Errors
    /// Nothing has changed.
    /// - HistoryFull, if more than 2^63 - 1 records would be compacted.
    /// - Memory, if an allocation fails.
    ///
    /// # Example
    /// From `crates/meet_tasks_tests/src/chapters.rt`:
    ///
    ///     let first = match queue.rotate() {
    ///         Ok(chapter) => chapter.records.len() == 2,
    fn rotate(&mut self) -> Result<Chapter, CallRefused<T>>
        ensures chapter { IfOk result (λ chapter. IsChapter Self.kind chapter.base chapter.records.items) }
        ensures counted { IfOk result (λ chapter. RotatesAs (handle_of self.old) (handle_of self.new)
            (length chapter.records.items)) }
        ensures few { IfOk result (λ chapter. chapter.base.gone + length chapter.records.items ≤ most_gone) }
        ensures cap { IfOk result (λ chapter. length chapter.records.items ≤ cap) }
        ensures same { IfErr result (λ _. handle_of self.new ≡ handle_of self.old) }
        ensures item { IfErr result (λ refused. refused.item ≡ None) }
        ensures why { IfErr result (λ refused. IsCutWhy refused.why) };

    /// Copies the records so far, and the base on which they stand, in one critical section (`Queue::history`).
    ///
    /// # Errors
    /// - Memory, if an allocation fails.
    ///
    /// # Example
    /// From `crates/meet_tasks_tests/src/chapters.rt`:
    ///
    ///     let copied = match queue.history() {
    ///         Ok(chapter) => chapter.records.len() == 1,
    fn history(&self) -> Result<Chapter, Refusal>
        ensures chapter { IfOk result (λ chapter. IsChapter Self.kind chapter.base chapter.records.items) }
        ensures cap { IfOk result (λ chapter. length chapter.records.items ≤ cap) }
        ensures why { IfErr result (λ why. why ≡ Memory) };

    /// Makes a producer's whole call, as `ask`, and returns Ok if its item was sent: a consumer took it, or the queue
    /// buffers it.
    ///
    /// # Errors
    /// The item is returned, and why it wasn't sent.
    final fn send(&mut self, request: Request<T>, limit: Option<u64>) -> Result<(), Unsent<T>>
        requires { IsSome (item_of request) }
        ensures sent { IfOk result (λ _. SendsAs cap count Self.kind (MayRunOut limit) T.mark_of
            (handle_of self.old) (handle_of self.new) request) }
        ensures unsent { IfErr result (λ unsent. FailsAs cap count Self.kind (MayRunOut limit) T.mark_of
            (handle_of self.old) (handle_of self.new) request unsent.why (Some unsent.item)) }
    {
        sent(self.ask(request, limit))
    }

    /// Makes a consumer's whole call, as `ask`, and returns the item that it received.
    ///
    /// # Errors
    /// Why it received none.
    final fn receive(&mut self, request: Request<T>, limit: Option<u64>) -> Result<T, NotReceived>
        requires { item_of request ≡ None }
        ensures received { IfOk result (λ item. ReceivesAs cap count Self.kind (MayRunOut limit) T.mark_of
            (handle_of self.old) (handle_of self.new) request item) }
        ensures nothing { IfErr result (λ why. FailsAs cap count Self.kind (MayRunOut limit) T.mark_of
            (handle_of self.old) (handle_of self.new) request why None) }
    {
        received(self.ask(request, limit))
    }

    /// Puts an item. At a transfer queue it is buffered if no consumer waits; at a synchronous queue the call waits
    /// until the item is taken.
    ///
    /// # Errors
    /// The item is returned: the call was interrupted, or refused as `ask`.
    ///
    /// Java: `BlockingQueue.put`.
    final fn put(&mut self, item: T) -> Result<(), Unsent<T>>
        ensures sent { IfOk result (λ _. SendsAs cap count Self.kind ⊥ T.mark_of
            (handle_of self.old) (handle_of self.new) (Put item)) }
        ensures unsent { IfErr result (λ unsent. FailsAs cap count Self.kind ⊥ T.mark_of
            (handle_of self.old) (handle_of self.new) (Put item) unsent.why (Some unsent.item)) }
    {
        self.send(Request::Put(item), None)
    }

    /// Gives an item, and waits until it is taken.
    ///
    /// # Errors
    /// The item is returned: the call was interrupted, or refused as `ask`.
    ///
    /// Java: `TransferQueue.transfer`.
    final fn transfer(&mut self, item: T) -> Result<(), Unsent<T>>
        ensures sent { IfOk result (λ _. SendsAs cap count Self.kind ⊥ T.mark_of
            (handle_of self.old) (handle_of self.new) (Give item)) }
        ensures unsent { IfErr result (λ unsent. FailsAs cap count Self.kind ⊥ T.mark_of
            (handle_of self.old) (handle_of self.new) (Give item) unsent.why (Some unsent.item)) }
    {
        self.send(Request::Give(item), None)
    }

    /// Gives an item to a consumer that waits. It doesn't wait.
    ///
    /// # Errors
    /// The item is returned: no consumer was there, or the call was refused as `ask`.
    ///
    /// Java: `TransferQueue.tryTransfer`.
    final fn try_transfer(&mut self, item: T) -> Result<(), Unsent<T>>
        ensures sent { IfOk result (λ _. SendsAs cap count Self.kind ⊥ T.mark_of
            (handle_of self.old) (handle_of self.new) (Offer item)) }
        ensures unsent { IfErr result (λ unsent. FailsAs cap count Self.kind ⊥ T.mark_of
            (handle_of self.old) (handle_of self.new) (Offer item) unsent.why (Some unsent.item)) }
    {
        self.send(Request::Offer(item), None)
    }

    /// Gives an item, and waits until it is taken, for `limit` milliseconds at most. With a limit of 0 it is
    /// `try_transfer`.
    ///
    /// # Errors
    /// The item is returned: the time was up, or the call was interrupted, or refused as `ask`.
    ///
    /// Java: `TransferQueue.tryTransfer` with a timeout.
    final fn transfer_for(&mut self, item: T, limit: u64) -> Result<(), Unsent<T>>
        ensures now_sent { limit ≡ 0 → IfOk result (λ _. SendsAs cap count Self.kind ⊥ T.mark_of
            (handle_of self.old) (handle_of self.new) (Offer item)) }
        ensures now_unsent { limit ≡ 0 → IfErr result (λ unsent. FailsAs cap count Self.kind ⊥ T.mark_of
            (handle_of self.old) (handle_of self.new) (Offer item) unsent.why (Some unsent.item)) }
        ensures timed_sent { 0 < limit → IfOk result (λ _. SendsAs cap count Self.kind ⊤ T.mark_of
            (handle_of self.old) (handle_of self.new) (Give item)) }
        ensures timed_unsent { 0 < limit → IfErr result (λ unsent. FailsAs cap count Self.kind ⊤ T.mark_of
            (handle_of self.old) (handle_of self.new) (Give item) unsent.why (Some unsent.item)) }
    {
        if limit == 0 {
            return self.try_transfer(item);
        }
        self.send(Request::Give(item), Some(limit))
    }

    /// Gives an item to a consumer that waits, at a synchronous queue. At a transfer queue it is `put`. It doesn't wait.
    ///
    /// # Errors
    /// The item is returned: no consumer was there, or the call was refused as `ask`.
    ///
    /// Java: `offer` of the queue.
    final fn offer(&mut self, item: T) -> Result<(), Unsent<T>>
        ensures sent { IfOk result (λ _. SendsAs cap count Self.kind ⊥ T.mark_of
            (handle_of self.old) (handle_of self.new) (if keeps Self.kind.order then Put item else Offer item)) }
        ensures unsent { IfErr result (λ unsent. FailsAs cap count Self.kind ⊥ T.mark_of
            (handle_of self.old) (handle_of self.new) (if keeps Self.kind.order then Put item else Offer item)
            unsent.why (Some unsent.item)) }
    {
        if self.keeps_items() {
            return self.put(item);
        }
        self.try_transfer(item)
    }

    /// Gives an item, and waits until it is taken, for `limit` milliseconds at most, at a synchronous queue: with a
    /// limit of 0 it is `offer`. At a transfer queue it is `put`, with each limit.
    ///
    /// # Errors
    /// The item is returned: the time was up, or the call was interrupted, or refused as `ask`.
    ///
    /// Java: `offer` of the queue with a timeout.
    final fn offer_for(&mut self, item: T, limit: u64) -> Result<(), Unsent<T>>
        ensures kept_sent { keeps Self.kind.order ≡ true → IfOk result (λ _. SendsAs cap count Self.kind ⊥ T.mark_of
            (handle_of self.old) (handle_of self.new) (Put item)) }
        ensures kept_unsent { keeps Self.kind.order ≡ true → IfErr result (λ unsent.
            FailsAs cap count Self.kind ⊥ T.mark_of
            (handle_of self.old) (handle_of self.new) (Put item) unsent.why (Some unsent.item)) }
        ensures now_sent { keeps Self.kind.order ≡ false → limit ≡ 0 → IfOk result (λ _.
            SendsAs cap count Self.kind ⊥ T.mark_of
            (handle_of self.old) (handle_of self.new) (Offer item)) }
        ensures now_unsent { keeps Self.kind.order ≡ false → limit ≡ 0 → IfErr result (λ unsent.
            FailsAs cap count Self.kind ⊥ T.mark_of
            (handle_of self.old) (handle_of self.new) (Offer item) unsent.why (Some unsent.item)) }
        ensures timed_sent { keeps Self.kind.order ≡ false → 0 < limit → IfOk result (λ _.
            SendsAs cap count Self.kind ⊤ T.mark_of
            (handle_of self.old) (handle_of self.new) (Give item)) }
        ensures timed_unsent { keeps Self.kind.order ≡ false → 0 < limit → IfErr result (λ unsent.
            FailsAs cap count Self.kind ⊤ T.mark_of
            (handle_of self.old) (handle_of self.new) (Give item) unsent.why (Some unsent.item)) }
    {
        if self.keeps_items() {
            self.put(item)
        } else {
            self.transfer_for(item, limit)
        }
    }

    /// Takes an item, and waits until there is one.
    ///
    /// # Errors
    /// The call was interrupted, or refused as `ask`.
    ///
    /// Java: `BlockingQueue.take`.
    final fn take(&mut self) -> Result<T, NotReceived>
        ensures received { IfOk result (λ item. ReceivesAs cap count Self.kind ⊥ T.mark_of
            (handle_of self.old) (handle_of self.new) Take item) }
        ensures nothing { IfErr result (λ why. FailsAs cap count Self.kind ⊥ T.mark_of
            (handle_of self.old) (handle_of self.new) Take why None) }
    {
        self.receive(Request::Take, None)
    }

    /// Takes an item from a producer that is there. It doesn't wait.
    ///
    /// # Errors
    /// No producer was there, or the call was refused as `ask`.
    ///
    /// Java: `Queue.poll`.
    final fn poll(&mut self) -> Result<T, NotReceived>
        ensures received { IfOk result (λ item. ReceivesAs cap count Self.kind ⊥ T.mark_of
            (handle_of self.old) (handle_of self.new) Poll item) }
        ensures nothing { IfErr result (λ why. FailsAs cap count Self.kind ⊥ T.mark_of
            (handle_of self.old) (handle_of self.new) Poll why None) }
    {
        self.receive(Request::Poll, None)
    }

    /// Takes an item, and waits for one for `limit` milliseconds at most. With a limit of 0 it is `poll`.
    ///
    /// # Errors
    /// The time was up, or the call was interrupted, or refused as `ask`.
    ///
    /// Java: `BlockingQueue.poll` with a timeout.
    final fn poll_for(&mut self, limit: u64) -> Result<T, NotReceived>
        ensures now_received { limit ≡ 0 → IfOk result (λ item. ReceivesAs cap count Self.kind ⊥ T.mark_of
            (handle_of self.old) (handle_of self.new) Poll item) }
        ensures now_nothing { limit ≡ 0 → IfErr result (λ why. FailsAs cap count Self.kind ⊥ T.mark_of
            (handle_of self.old) (handle_of self.new) Poll why None) }
        ensures timed_received { 0 < limit → IfOk result (λ item. ReceivesAs cap count Self.kind ⊤ T.mark_of
            (handle_of self.old) (handle_of self.new) Take item) }
        ensures timed_nothing { 0 < limit → IfErr result (λ why. FailsAs cap count Self.kind ⊤ T.mark_of
            (handle_of self.old) (handle_of self.new) Take why None) }
    {
        if limit == 0 {
            return self.poll();
        }
        self.receive(Request::Take, Some(limit))
    }
}
