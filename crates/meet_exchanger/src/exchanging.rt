//! The calls of an exchanger.

ghost use Rattle.std.specs.Prelude.{◌≡◌, ◌<◌, ⊤, IfNone};
ghost use Rattle.meet_exchange.specs.Waits.{seat_after};
ghost use Rattle.meet_exchanger.specs.Tries.{EndsAs, MayTimeOut};

use crate::attempts::Attempt;
use crate::exchanger::{APART, Exchanger};
use crate::watching::is_up;
use meet_cells::Deadline;
use meet_exchange::{Exchanged, Seat};
use meet_tickets::{Marked, SeatNo};
use std::sync::Wait;
use std::thread;
use std::time::Clock;

/// After how many contended attempts of one exchange its thread goes on to another slot. One may be chance.
const CONTENDED: u64 = 3;

impl<T: Marked> Exchanger<T> {
    /// Exchanges an item for another seat's, and waits until one comes. A thread that waits for long parks. The
    /// exchange can't be interrupted.
    ///
    /// # Errors
    /// - `Exchanged::Worn`, if a slot had its last round, of 2^44: the item is returned.
    /// - `Exchanged::Memory`, if the seat's list can't grow: the item is returned.
    ///
    /// # Example
    /// From `crates/meet_exchanger_tests/src/shared.rt`:
    ///
    ///     match exchanger.exchange(rt, seat, item) {
    ///         Exchanged::Swapped(_, got) => Some(got),
    ///         _ => None,
    ///     }
    ///
    /// Java: `Exchanger.exchange(V)`.
    pub fn exchange<R: Wait + Clock>(&self, rt: &R, seat: Seat<T>, item: T) -> Exchanged<T>
        requires place { seat.arena ≡ self.now.id }
        ensures end { EndsAs T.mark_of seat (T.mark_of item) self.now.slots ⊥ result }
        ensures place { (seat_after result).arena ≡ self.now.id }
    {
        self.exchange_within(rt, seat, item, None)
    }

    /// Exchanges an item for another seat's, and waits for one for `milliseconds` at most. With 0 it doesn't wait. If
    /// its item is taken at the very end, it waits for the other's, and that was an exchange.
    ///
    /// # Errors
    /// - `Exchanged::TimedOut`, if no partner came in time: the item is returned.
    /// - `Exchanged::Worn`, `Exchanged::Memory`, as `exchange`.
    ///
    /// # Example
    /// From `crates/bench/src/exchanges.rt`:
    ///
    ///     if let Exchanged::TimedOut(_, item) = exchanger.exchange_for(rt, seat, 7, milliseconds) {
    ///         return println!(rt; "{item} was returned").map_err(|_| Refusal::WriteFault);
    ///     }
    ///
    /// Java: `Exchanger.exchange(V, long, TimeUnit)`, which throws TimeoutException.
    pub fn exchange_for<R: Wait + Clock>(
        &self,
        rt: &R,
        seat: Seat<T>,
        item: T,
        milliseconds: u64,
    ) -> Exchanged<T>
        requires place { seat.arena ≡ self.now.id }
        ensures end { EndsAs T.mark_of seat (T.mark_of item) self.now.slots ⊤ result }
        ensures place { (seat_after result).arena ≡ self.now.id }
    {
        self.exchange_within(rt, seat, item, Some(milliseconds))
    }

    /// Tries one slot after another, until the item is exchanged or the time is up.
    pub(crate) fn exchange_within<R: Wait + Clock>(
        &self,
        rt: &R,
        seat: Seat<T>,
        item: T,
        limit: Option<u64>,
    ) -> Exchanged<T>
        requires place { seat.arena ≡ self.now.id }
        ensures end { EndsAs T.mark_of seat (T.mark_of item) self.now.slots (MayTimeOut limit) result }
        ensures place { (seat_after result).arena ≡ self.now.id }
    {
        let deadline = Deadline::after(rt, limit);
        let number = seat.number();
        let mut slot = self.slot_to_begin(number, limit);
        let mut contended = 0u64;
        let mut seat = seat;
        let mut item = item;
        for _ in rt.forever() {
            let seen = self.approach(slot);
            match self.attempt(rt, seat, item, slot, seen, deadline) {
                Attempt::Met(seat, other) => {
                    self.waiters.begin_at(number, slot);
                    return Exchanged::Swapped(seat, other);
                }
                Attempt::Contended(again, back) => {
                    let up = is_up(rt, deadline);
                    if up && slot == 0 {
                        return Exchanged::TimedOut(again, back);
                    }
                    seat = again;
                    item = back;
                    contended = contended.saturating_add(1);
                    slot = self.slot_after(slot, contended, up);
                }
                Attempt::TookBack(again, back, up) => {
                    if up && slot == 0 {
                        return Exchanged::TimedOut(again, back);
                    }
                    seat = again;
                    item = back;
                    slot = self.slot_below(slot, up);
                }
                Attempt::Worn(seat, item) => return Exchanged::Worn(seat, item),
                Attempt::Memory(seat, item) => return Exchanged::Memory(seat, item),
            }
        }
        unreachable!() // it loops for ever
    }

    /// Returns the slot that a seat tries first: where it met a partner last, or the slot 0 if it isn't to wait.
    fn slot_to_begin(&self, seat: SeatNo, limit: Option<u64>) -> usize
        ensures { result < self.now.slots }
    {
        let slot = self.waiters.first_slot(seat);
        if limit == Some(0) || slot >= self.slots || slot >= self.waiters.used() {
            return 0;
        }
        slot
    }

    /// Returns the slot that is tried after an attempt where others were at work, the `contended`th of its exchange. It
    /// is the same slot, but after each third the next of those in use, or the first after the last, and then one more
    /// comes in use. Before that it lets another thread run: it may be the one that is to free the slot. It is the slot 0
    /// if the time is up.
    fn slot_after(&self, slot: usize, contended: u64, up: bool) -> usize
        requires { slot < self.now.slots }
        ensures { result < self.now.slots }
    {
        if up {
            return 0;
        }
        if contended % CONTENDED != 0 {
            return slot;
        }
        thread::yield_now();
        let used = self.waiters.used();
        let next = slot.saturating_add(APART);
        if next < self.slots && next < used {
            return next;
        }
        if used < self.slots {
            self.waiters.use_slots(used.saturating_add(APART));
        }
        0
    }

    /// Returns the slot that is tried after one where nobody came, and then one fewer is in use: that of half the
    /// number, among those that are used, or the slot 0 if the time is up.
    fn slot_below(&self, slot: usize, up: bool) -> usize
        requires { slot < self.now.slots }
        ensures { result < self.now.slots }
    {
        let used = self.waiters.used();
        if slot > 0 && used > APART {
            self.waiters.use_slots(used - APART);
        }
        if up { 0 } else { slot / 2 / APART * APART }
    }
}
