//! One attempt: an item is offered in one slot, and exchanged there or returned.

ghost use Rattle.std.specs.Prelude.{◌≡◌, ◌<◌, ℕ, false, IfNone};
ghost use Rattle.meet_exchange.specs.Seats.{SeatView};
ghost use Rattle.meet_exchanger.specs.Tries.{TriesAs, HasPosted, HasLost, IsUntimed, comes_from};

use crate::exchanger::Exchanger;
use crate::watching::Glance;
use meet_cells::Deadline;
use meet_exchange::{Gathered, Offered, Pending, Seat, TakenBack};
use meet_tickets::Marked;
use std::sync::Wait;
use std::time::Clock;

/// How an attempt ended.
#[derive(Drop)]
pub(crate) enum Attempt<T> {
    /// With the other seat's item.
    Met(Seat<T>, T),
    /// Others were at work on the slot. The item is returned.
    Contended(Seat<T>, T),
    /// The item was posted, and nobody took it. It is returned, and whether that is as the time was up.
    TookBack(Seat<T>, T, bool),
    /// The slot has no round left. The item is returned.
    Worn(Seat<T>, T),
    /// An allocation failed. The item is returned.
    Memory(Seat<T>, T),
}

impl<T: Marked> Exchanger<T> {
    /// Offers an item in a slot, and waits there for a while. `seen` is what was seen there.
    pub(crate) fn attempt<R: Wait + Clock>(
        &self,
        rt: &R,
        seat: Seat<T>,
        item: T,
        slot: usize,
        seen: u64,
        deadline: Option<Deadline>,
    ) -> Attempt<T>
        requires place { seat.arena ≡ self.now.id }
        requires slot { slot < self.now.slots }
        ensures tries { TriesAs T.mark_of seat slot (T.mark_of item) result }
        ensures place { (comes_from result).arena ≡ self.now.id }
        ensures untimed { IfNone deadline (IsUntimed result) }
    {
        match self.arena.offer(seat, slot, item) {
            Offered::Posted(pending) => self.settle(rt, pending, deadline),
            Offered::Swapped(seat, other) => {
                self.wake_poster(&seat, seen);
                Attempt::Met(seat, other)
            }
            Offered::Contended(seat, item, _) => Attempt::Contended(seat, item),
            Offered::Worn(seat, item) => Attempt::Worn(seat, item),
            Offered::Memory(seat, item) => Attempt::Memory(seat, item),
        }
    }

    /// Waits for the answer to an offer, and takes the offer back when it is to be.
    fn settle<R: Wait + Clock>(
        &self,
        rt: &R,
        pending: Pending<T>,
        deadline: Option<Deadline>,
    ) -> Attempt<T>
        requires place { pending.seat.arena ≡ self.now.id }
        requires slot { pending.slot < self.now.slots }
        ensures tries { (v : SeatView) (a : ℕ) → HasPosted v a pending → TriesAs T.mark_of v pending.slot a result }
        ensures place { (comes_from result).arena ≡ self.now.id }
        ensures untimed { IfNone deadline (IsUntimed result) }
    {
        let seat = pending.number();
        let slot = pending.slot();
        let mut pending = pending;
        for _ in rt.forever() {
            match self.watch(rt, seat, slot, deadline) {
                Glance::IsToLook => match self.arena.collect(pending) {
                    Gathered::Got(seat, other) => return Attempt::Met(seat, other),
                    Gathered::NotYet(again) => pending = again,
                },
                Glance::IsToMove => return self.take_back(rt, pending, false),
                Glance::TimeIsUp => return self.take_back(rt, pending, true),
            }
        }
        unreachable!() // it loops for ever
    }

    /// Takes an offer back. If another seat has taken the item, it waits for that seat's.
    fn take_back<R: Wait + Clock>(&self, rt: &R, pending: Pending<T>, is_up: bool) -> Attempt<T>
        requires place { pending.seat.arena ≡ self.now.id }
        requires slot { pending.slot < self.now.slots }
        ensures tries { (v : SeatView) (a : ℕ) → HasPosted v a pending → TriesAs T.mark_of v pending.slot a result }
        ensures place { (comes_from result).arena ≡ self.now.id }
        ensures untimed { is_up ≡ false → IsUntimed result }
    {
        match self.arena.withdraw(pending) {
            TakenBack::Back(seat, item) => Attempt::TookBack(seat, item, is_up),
            TakenBack::Late(pending) => self.stay(rt, pending),
        }
    }

    /// Waits for the answer of a seat that has taken the item: it answers at once, or when it runs again.
    fn stay<R: Wait + Clock>(&self, rt: &R, pending: Pending<T>) -> Attempt<T>
        requires place { pending.seat.arena ≡ self.now.id }
        requires slot { pending.slot < self.now.slots }
        ensures tries { (v : SeatView) (a : ℕ) → HasLost v a pending → TriesAs T.mark_of v pending.slot a result }
        ensures place { (comes_from result).arena ≡ self.now.id }
        ensures untimed { IsUntimed result }
    {
        let seat = pending.number();
        let slot = pending.slot();
        let mut pending = pending;
        for _ in rt.forever() {
            match self.arena.collect(pending) {
                Gathered::Got(seat, other) => return Attempt::Met(seat, other),
                Gathered::NotYet(again) => pending = again,
            }
            self.park(rt, seat, slot, None);
        }
        unreachable!() // it loops for ever
    }
}
