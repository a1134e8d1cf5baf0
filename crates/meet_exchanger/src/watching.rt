//! How a thread passes the time at a slot: it looks, and then parks. What it sees here is a hint, so no contract states
//! anything of it.

ghost use Rattle.std.specs.Prelude.{◌≡◌, ◌≢◌, ◌<◌, false, IfNone};
ghost use Rattle.meet_exchanger.specs.declared.watching.Glance.TheVariants.{TimeIsUp};

use crate::exchanger::Exchanger;
use meet_cells::{Deadline, Turn};
use meet_exchange::{Part, Seat};
use meet_tickets::{Marked, SeatNo};
use std::hint;
use std::sync::Wait;
use std::time::Clock;

/// What a thread is to do with its offer.
#[derive(Clone, Copy, PartialEq, Eq, Debug)]
pub(crate) enum Glance {
    /// To look for its answer.
    IsToLook,
    /// To take it back, and to try another slot.
    IsToMove,
    /// To take it back, as its time is up.
    TimeIsUp,
}

/// The word of a slot which nobody uses.
const FREE: u64 = 0;

/// That of a slot where an item may be taken.
const POSTED: u64 = 2;

/// That of a slot where the answer lies.
const ANSWERED: u64 = 4;

/// How many looks an offer stands in the slot 0 before the clock is read. A look takes some 7 nanoseconds.
const GLANCES: u64 = 64;

/// How many more looks it stands there before its thread parks. No look lets another thread run: if other programs use
/// all processors, one that does takes milliseconds.
const LOOKS: u64 = 1_024;

/// How many looks an offer stands in another slot.
const PATIENCE: u64 = 1_000;

/// How many looks at most a thread waits until others in a slot are done.
const BUSY: u64 = 256;

/// Polls of a freshly freed slot before claiming it, so that its last user can post first.
const CALM: u64 = 8;

/// The code in the word of a slot.
fn code(word: u64) -> u64 {
    word % 8
}

/// The seat that claimed the round of a slot with this word.
fn poster(word: u64) -> u64 {
    word / 8 % 65_536
}

/// The number of the round in the word of a slot.
fn round(word: u64) -> u64 {
    word / 524_288
}

/// Whether the time is up; never without a limit.
pub(crate) fn is_up<R: Clock>(rt: &R, deadline: Option<Deadline>) -> bool
    ensures { IfNone deadline (result ≡ false) }
{
    match deadline {
        Some(deadline) => deadline.remaining(rt) == 0,
        None => false,
    }
}

impl<T: Marked> Exchanger<T> {
    /// Looks at a slot until nobody is at work there, some times at most, and returns the last word that it saw.
    pub(crate) fn approach(&self, slot: usize) -> u64
        requires { slot < self.now.slots }
    {
        let mut word = self.arena.word(slot);
        let mut calm = CALM;
        for _ in 0..BUSY {
            if code(word) == POSTED || calm >= CALM && code(word) == FREE {
                return word;
            }
            calm = if code(word) == FREE {
                calm.saturating_add(1)
            } else {
                0
            };
            hint::spin_loop();
            word = self.arena.word(slot);
        }
        word
    }

    /// Whether the answer to an offer lies in the slot.
    fn is_answered(&self, slot: usize) -> bool
        requires { slot < self.now.slots }
    {
        code(self.arena.word(slot)) == ANSWERED
    }

    /// Looks for an answer, `looks` times at most: whether one is there.
    fn look(&self, slot: usize, looks: u64) -> bool
        requires { slot < self.now.slots }
    {
        for _ in 0..looks {
            if self.is_answered(slot) {
                return true;
            }
            hint::spin_loop();
        }
        false
    }

    /// Waits at the slot of an offer until an answer is there, or until the offer is to be taken back. In the slot 0 it
    /// parks after some looks; in another it is to be taken back then.
    pub(crate) fn watch<R: Wait + Clock>(
        &self,
        rt: &R,
        seat: SeatNo,
        slot: usize,
        deadline: Option<Deadline>,
    ) -> Glance
        requires { slot < self.now.slots }
        ensures { IfNone deadline (result ≢ TimeIsUp) }
    {
        if slot > 0 {
            return if self.look(slot, PATIENCE) {
                Glance::IsToLook
            } else {
                Glance::IsToMove
            };
        }
        if self.look(slot, GLANCES) {
            return Glance::IsToLook; // before the clock is read
        }
        let rest = match deadline {
            Some(deadline) => Some(deadline.remaining(rt)),
            None => None,
        };
        if rest == Some(0) {
            return Glance::TimeIsUp;
        }
        if self.look(slot, LOOKS) {
            return Glance::IsToLook;
        }
        match self.park(rt, seat, slot, rest) {
            Turn::Woken => Glance::IsToLook,
            Turn::Elapsed => Glance::TimeIsUp,
        }
    }

    /// Parks the thread of a seat whose offer stands in a slot, unless the answer is there.
    // No wake is lost: this seat announces that it waits, and then looks at the slot once more. Who answers does so
    // first, and then looks whether the seat has announced that (`wake_poster`). These four steps stand in one order.
    // So the other sees that this seat waits, or this seat sees the answer. A wake that comes before the wait is kept
    // by the gate, and one that comes for an earlier offer costs a look.
    pub(crate) fn park<R: Wait + Clock>(
        &self,
        rt: &R,
        seat: SeatNo,
        slot: usize,
        limit: Option<u64>,
    ) -> Turn
        requires { slot < self.now.slots }
        ensures { IfNone limit (result ≡ Turn.Woken) }
    {
        self.waiters.announce(seat, true);
        let turn = if self.is_answered(slot) {
            Turn::Woken
        } else {
            self.waiters.park(rt, seat, limit)
        };
        self.waiters.announce(seat, false);
        turn
    }

    /// Wakes the thread whose item this seat has taken last, if it waits. Its number is in the word that was seen
    /// before, or else in the slot's word, until it has collected the answer; then it needs no wake.
    pub(crate) fn wake_poster(&self, seat: &Seat<T>, seen: u64)
        requires { seat.now.arena ≡ self.now.id }
    {
        let Some(last) = seat.parts().last() else {
            return;
        };
        let Part {
            slot,
            round: number,
            ..
        } = *last;
        if code(seen) == POSTED && round(seen) == number {
            self.waiters.wake(poster(seen));
            return;
        }
        if slot < self.slots {
            let word = self.arena.word(slot);
            if code(word) == ANSWERED && round(word) == number {
                self.waiters.wake(poster(word));
            }
        }
    }
}
