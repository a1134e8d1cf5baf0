//! The calls of a handle, with its seat: each returns the seat beside what the handle's caller gets.

ghost use Rattle.std.specs.Prelude.{◌≡◌, ◌+◌, ◌<◌, ◌≤◌, ◌⊎◌, ℕ, None, true, false, [], ◌∷◌, length, IsOk, IsErrAnd, IfOk, IfErr};
ghost use Rattle.meet_tickets.specs.Limits.{most_gone, most_records};
ghost use Rattle.meet_tickets.specs.declared.refusals.Refusal.TheVariants.{NoSuchSeat};
ghost use Rattle.meet_place.specs.Seats.{SameSeat, Checkpoints, Trims};
ghost use Rattle.meet_place.specs.Tending.{Tends, is_to_look, may_lie};
ghost use Rattle.meet_sync.specs.Chronicles.{IsChapter};
ghost use Rattle.meet_sync.specs.Drained.{DrainedTo, IsLeastFor};
ghost use Rattle.meet_sync.specs.Asking.{item_of};
ghost use Rattle.meet_sync.specs.Ending.{EndsAs, MayRunOut};
ghost use Rattle.meet_sync.specs.Stopping.{Interrupts, others};
ghost use Rattle.meet_sync.specs.Told.{IsRequestWhy, IsInterruptWhy, IsCutWhy};
ghost use Rattle.meet_chosen.specs.Chosen.{order_of};
ghost use Rattle.meet_tasks.specs.Handles.{Readies, is_time, kind_at};
ghost use Rattle.meet_tasks.specs.Outcomes.{EndFits};

use crate::ledgers::QueueLedgers;
use crate::refused::{CallRefused, refused_apart};
use meet_cells::ParkGate;
use meet_chosen::ChosenQueue;
use meet_core::QueuePlace;
use meet_line::let_go_none;
use meet_sync::{Chapter, DrainedItems, End, Ended, Queue, Request, Seat};
use meet_tickets::{Deed, MOST_RECORDS, Marked, Refusal, SeatNo};
use std::alloc::Global;
use std::sync::Wait;
use std::time::Clock;

/// Drops the result of a call that brought no item.
fn drop_itemless<T>(called: Result<(), CallRefused<T>>)
    requires itemless { IfErr called (λ refused. refused.item ≡ None) }
{
    match called {
        Ok(()) => {}
        Err(refused) => {
            let CallRefused { why: _, item } = refused;
            let_go_none(item);
        }
    }
}

/// The seat for a call that writes records: it compacts the log first if the handle doesn't keep it, and it is time to.
/// If that fails the records stay, and the call is made all the same.
pub(crate) fn ready<T, N, R>(
    rt: &R,
    queue: &ChosenQueue<T, ParkGate, N>,
    keeps_log: bool,
    seats: u64,
    seat: Seat<Deed, N>,
) -> Seat<Deed, N>
where
    T: Marked,
    N: QueueLedgers,
    R: Wait,
    requires seats { seats ≡ N.parts }
    requires cap { N.cap ≡ most_records }
    ensures { Readies (is_time N.cap N.parts keeps_log seat) seat result }
{
    if keeps_log || !seat.is_to_look(MOST_RECORDS, seats) {
        return seat;
    }
    let (seat, tended) = tend(rt, queue, seat);
    drop_itemless(tended);
    seat
}

/// Makes a whole call of a queue of one kind: a request, and the wait for its completion.
#[inline(always)]
pub(crate) fn ask<O, N, R>(
    rt: &R,
    queue: &Queue<O, ParkGate, N>,
    seat: Seat<Deed, N>,
    request: Request<O::Item>,
    limit: Option<u64>,
) -> (Seat<Deed, N>, Result<End<O::Item>, CallRefused<O::Item>>)
where
    O: QueuePlace,
    N: QueueLedgers,
    R: Wait + Clock,
    ensures ended { IfOk result.1 (λ end. SameSeat seat result.0
        × EndsAs O.kind (MayRunOut limit) O.Item.mark_of seat result.0 request end) }
    ensures fits { IfOk result.1 (EndFits (item_of request)) }
    ensures same { IfErr result.1 (λ _. SameSeat seat result.0 × (result.0.list ≡ seat.list)) }
    ensures item { IfErr result.1 (λ refused. refused.item ≡ item_of request) }
    ensures why { IfErr result.1 (λ refused. IsRequestWhy refused.why) }
{
    match queue.ask(rt, seat, request, limit) {
        Ok(ended) => {
            let Ended { seat, end } = ended;
            (seat, Ok(end))
        }
        Err(refused) => {
            let (seat, error) = refused_apart(refused);
            (seat, Err(error))
        }
    }
}

/// Interrupts the seat of this number.
pub(crate) fn interrupt<T, N, R>(
    rt: &R,
    queue: &ChosenQueue<T, ParkGate, N>,
    seat: Seat<Deed, N>,
    target: u64,
) -> (Seat<Deed, N>, Result<(), CallRefused<T>>)
where
    T: Marked,
    N: QueueLedgers,
    R: Wait,
    ensures interrupted { IfOk result.1 (λ _. Interrupts seat result.0 (target ∷ [])) }
    ensures missing { N.parts ≤ target → IsErrAnd result.1 (λ refused. refused.why ≡ NoSuchSeat) }
    ensures there { IfOk result.1 (λ _. target < N.parts) }
    ensures same { IfErr result.1 (λ _. SameSeat seat result.0 × (result.0.list ≡ seat.list)) }
    ensures item { IfErr result.1 (λ refused. refused.item ≡ None) }
    ensures why { IfErr result.1 (λ refused. IsInterruptWhy N.parts target refused.why) }
{
    if target >= queue.seats() {
        let error = CallRefused {
            why: Refusal::NoSuchSeat,
            item: None,
        };
        return (seat, Err(error));
    }
    let number = SeatNo::new(target).unwrap();
    match queue.interrupt(rt, seat, number) {
        Ok(interrupted) => (interrupted.into_seat(), Ok(())),
        Err(refused) => {
            let (seat, error) = refused_apart(refused);
            (seat, Err(error))
        }
    }
}

/// Interrupts every other seat.
pub(crate) fn interrupt_all<T, N, R>(
    rt: &R,
    queue: &ChosenQueue<T, ParkGate, N>,
    seat: Seat<Deed, N>,
) -> (Seat<Deed, N>, Result<(), CallRefused<T>>)
where
    T: Marked,
    N: QueueLedgers,
    R: Wait,
    ensures all { IfOk result.1 (λ _. Interrupts seat result.0 (others seat.number N.parts)) }
    ensures some { IfErr result.1 (λ _. (below : ℕ) × (below < N.parts)
        × Interrupts seat result.0 (others seat.number below)) }
    ensures item { IfErr result.1 (λ refused. refused.item ≡ None) }
    ensures why { IfErr result.1 (λ refused. IsCutWhy refused.why) }
{
    match queue.interrupt_all(rt, seat) {
        Ok(seat) => (seat, Ok(())),
        Err(refused) => {
            let (seat, error) = refused_apart(refused);
            (seat, Err(error))
        }
    }
}

/// Takes up to `max` items of producers in the wait queue.
pub(crate) fn drain<T, N, R>(
    rt: &R,
    alloc: Global,
    queue: &ChosenQueue<T, ParkGate, N>,
    seat: Seat<Deed, N>,
    max: u64,
) -> (Seat<Deed, N>, Result<Vec<T>, CallRefused<T>>)
where
    T: Marked,
    N: QueueLedgers,
    R: Wait,
    ensures drained { IfOk result.1 (λ items. SameSeat seat result.0
        × DrainedTo T.mark_of seat result.0 items.items) }
    ensures count { IfOk result.1 (λ items. IsLeastFor T N.parts max (length items.items)) }
    ensures same { IfErr result.1 (λ _. SameSeat seat result.0 × (result.0.list ≡ seat.list)) }
    ensures item { IfErr result.1 (λ refused. refused.item ≡ None) }
    ensures why { IfErr result.1 (λ refused. IsRequestWhy refused.why) }
{
    match queue.drain(rt, alloc, seat, max) {
        Ok(drained) => {
            let DrainedItems { seat, items } = drained;
            (seat, Ok(items))
        }
        Err(refused) => {
            let (seat, error) = refused_apart(refused);
            (seat, Err(error))
        }
    }
}

/// Compacts the log if it is more than half full.
pub(crate) fn tend<T, N, R>(
    rt: &R,
    queue: &ChosenQueue<T, ParkGate, N>,
    seat: Seat<Deed, N>,
) -> (Seat<Deed, N>, Result<(), CallRefused<T>>)
where
    T: Marked,
    N: QueueLedgers,
    R: Wait,
    ensures few { length seat.list ≤ may_lie N.cap N.parts → IsOk result.1 × (result.0 ≡ seat) }
    ensures idle { is_to_look N.cap N.parts seat ≡ false → IsOk result.1 × (result.0 ≡ seat) }
    ensures looked { is_to_look N.cap N.parts seat ≡ true → IfOk result.1 (λ _. Tends seat result.0) }
    ensures tended { IfOk result.1 (λ _. (result.0 ≡ seat) ⊎ Tends seat result.0) }
    ensures trimmed { IfErr result.1 (λ _. (gone : ℕ) × Trims gone seat result.0) }
    ensures item { IfErr result.1 (λ refused. refused.item ≡ None) }
    ensures why { IfErr result.1 (λ refused. IsCutWhy refused.why) }
{
    match queue.tend(rt, seat) {
        Ok(seat) => (seat, Ok(())),
        Err(refused) => {
            let (seat, error) = refused_apart(refused);
            (seat, Err(error))
        }
    }
}

/// Compacts the log, and returns the records so far.
pub(crate) fn rotate<T, N, R>(
    rt: &R,
    alloc: Global,
    queue: &ChosenQueue<T, ParkGate, N>,
    seat: Seat<Deed, N>,
) -> (Seat<Deed, N>, Result<Chapter, CallRefused<T>>)
where
    T: Marked,
    N: QueueLedgers,
    R: Wait,
    requires order { order_of queue.now ≡ N.order }
    ensures chapter { IfOk result.1 (λ chapter. IsChapter (kind_at N.order) chapter.base chapter.records.items) }
    ensures counted { IfOk result.1 (λ chapter. Checkpoints (length chapter.records.items) seat result.0) }
    ensures few { IfOk result.1 (λ chapter. chapter.base.gone + length chapter.records.items ≤ most_gone) }
    ensures cap { IfOk result.1 (λ chapter. length chapter.records.items ≤ N.cap) }
    ensures same { IfErr result.1 (λ _. result.0 ≡ seat) }
    ensures item { IfErr result.1 (λ refused. refused.item ≡ None) }
    ensures why { IfErr result.1 (λ refused. IsCutWhy refused.why) }
{
    match queue.rotate(rt, seat, Vec::new(alloc)) {
        Ok((seat, chapter)) => (seat, Ok(chapter)),
        Err(refused) => {
            let (seat, error) = refused_apart(refused);
            (seat, Err(error))
        }
    }
}
