//! An exchange that waits.

ghost use Rattle.std.specs.Prelude.{◌≡◌, ◌≢◌, ◌<◌, ◌≤◌, ◌↔◌, ◌+◌, ◌%◌, ℕ, IsTrue, Option};
ghost use Rattle.meet_exchange.specs.Waits.{IsIn, StaysIn, IsGoing, IsTrying, IsWaiting, HasStayed, EndsAs, GoesOn};
ghost use Rattle.meet_exchange.specs.Waits.{Gathers, more_after, seat_after};
ghost use Rattle.meet_exchange.specs.Ways.{patience};
ghost use Rattle.meet_exchange.specs.Seats.{SeatView};

use crate::arena::Arena;
use crate::endings::{Gathered, TakenBack};
use crate::offers::Offered;
use crate::seats::{Pending, Seat};
use crate::words::{FREE, POSTED, code};
use meet_tickets::Marked;
use std::sync::Wait;
use std::{hint, thread};

/// How an exchange ended.
#[derive(Debug, Drop)]
pub enum Exchanged<T> {
    /// With the other seat's item.
    Swapped(Seat<T>, T),
    /// The limit was reached. The item is returned.
    TimedOut(Seat<T>, T),
    /// A slot had no round left. The item is returned.
    Worn(Seat<T>, T),
    /// An allocation failed. The item is returned.
    Memory(Seat<T>, T),
}

/// How an exchange stands: it tries a slot; its offer stands, since so many turns; or the offer was taken, and it stays
/// until it has the other item.
#[derive(Drop)]
enum Going<T> {
    Tries(Seat<T>, T, usize),
    Waits(Pending<T>, u64),
    Stays(Pending<T>),
}

/// What a turn came to: it goes on, with so many turns left, or it ends.
#[derive(Drop)]
enum Next<T> {
    Goes(Going<T>, Option<u64>),
    Ends(Exchanged<T>),
}

/// The turns for which an offer stands in a slot above 0.
const PATIENCE: u64 = 1_000;

/// The looks at a slot in which others are at work, before an offer is tried there all the same.
const LOOKS: u64 = 128;

/// Polls of a freshly freed slot before claiming it, so that its last user can post first. If both claimed the slot at
/// once, one would find it contended, and go on to a slot where no partner comes.
const CALM: u64 = 8;

/// Behind so many looks in a row a thread pauses, and from then on lets another one run: a pause takes some 15
/// nanoseconds, and the other seat some 100 where it runs; to let another thread run takes 250, and helps where it
/// doesn't.
const PAUSES: u64 = 64;

/// Passes the time behind the look of this number.
fn pass(look: u64) {
    if look < PAUSES {
        hint::spin_loop();
    } else {
        thread::yield_now();
    }
}

/// Passes a turn of an offer that stands in this slot. Above 0 it lets another thread run at each 65th alone: it stands
/// there for a number of turns, and if nobody comes these are over soon.
fn pass_turn(slot: usize, turn: u64) {
    pass(if slot == 0 { turn } else { turn % (PAUSES + 1) });
}

/// One turn less, where there is a limit.
fn less(more: Option<u64>) -> Option<u64>
    ensures { result ≡ more_after more 1 }
{
    match more {
        Some(turns) => Some(turns.saturating_sub(1)),
        None => None,
    }
}

/// Whether a limit is reached.
fn is_reached(more: Option<u64>) -> bool
    ensures { IsTrue result ↔ (more ≡ Some 0) }
{
    match more {
        Some(turns) => turns == 0,
        None => false,
    }
}

impl<T: Marked> Arena<T> {
    /// Exchanges an item for another seat's. It offers the item in this slot, and after Contended in the next, the
    /// first after the last. After it is posted there the call waits for an answer, and collects one that it sees. In a
    /// slot above 0 it takes the item back after 1,000 turns, and tries the slot of half the number.
    ///
    /// The limit is in turns; a turn is one look that found no answer, or one Contended. At a limit of 0 it tries one
    /// slot, and doesn't wait. If the limit is reached it takes the item back; if another seat has taken the item by
    /// then, it stays until it has the other's.
    ///
    /// It spins, and never parks: a turn is a pause of the processor, or lets other threads run (`Thread.onSpinWait`,
    /// `Thread.yield`), and its time isn't bounded. Before it tries a slot in which others are at work it looks there
    /// some times more, with any other limit than 0; these looks are no turns.
    ///
    /// # Errors
    /// The item is returned.
    /// - `Exchanged::TimedOut`, if the limit is reached.
    /// - `Exchanged::Worn`, if a slot had no round left.
    /// - `Exchanged::Memory`, if the seat's list can't grow.
    ///
    /// # Example
    /// From `crates/examples/src/buffers/loops.rt`:
    ///
    ///     match arena.exchange(rt, seat, 0, buffer, Some(PATIENCE)) {
    ///         Exchanged::Swapped(seat, other) => Ok((seat, other)),
    ///         Exchanged::TimedOut(_, _) => Err(Refusal::NoThread), // nobody else is there
    ///         Exchanged::Worn(_, _) => Err(Refusal::Worn),
    ///         Exchanged::Memory(_, _) => Err(Refusal::Memory),
    ///     }
    ///
    /// Java: `Exchanger.exchange`.
    pub fn exchange<R: Wait>(
        &self,
        rt: &R,
        seat: Seat<T>,
        first_slot: usize,
        item: T,
        limit: Option<u64>,
    ) -> Exchanged<T>
        requires place { seat.arena ≡ self.now.id }
        requires slot { first_slot < self.now.slots }
        ensures end { EndsAs T.mark_of seat (T.mark_of item) self.now.slots first_slot limit result }
        ensures place { (seat_after result).arena ≡ self.now.id }
    {
        let mut more = limit;
        let mut going = Going::Tries(seat, item, first_slot);
        for _ in rt.forever() {
            match self.turn(going, more) {
                Next::Goes(next, turns) => {
                    going = next;
                    more = turns;
                }
                Next::Ends(end) => return end,
            }
        }
        unreachable!()
    }

    /// One turn, with so many left.
    fn turn(&self, going: Going<T>, more: Option<u64>) -> Next<T>
        requires place { IsIn self.now.id self.now.slots going }
        ensures place { StaysIn self.now.id self.now.slots result }
        ensures goes { (v : SeatView) (a first : ℕ) (limit : Option ℕ)
            → IsGoing T.mark_of v a self.now.slots first limit more going
            → GoesOn T.mark_of v a self.now.slots first limit result }
    {
        match going {
            Going::Tries(seat, item, slot) => {
                self.await_others(slot, more);
                self.try_slot(seat, item, slot, more)
            }
            Going::Waits(pending, turns) => self.wait_on(pending, turns, more),
            Going::Stays(pending) => self.stay(pending, more),
        }
    }

    /// Looks at a slot in which others are at work until they are done and one of them may have come back, or so many
    /// times: their exchange is over soon. At a limit of 0 it doesn't look.
    fn await_others(&self, slot: usize, more: Option<u64>)
        requires { slot < self.now.slots }
    {
        if is_reached(more) {
            return;
        }
        let mut calm = CALM;
        for look in 0..LOOKS {
            let seen = code(self.word(slot));
            if seen == POSTED || calm >= CALM && seen == FREE {
                return;
            }
            calm = if seen == FREE {
                calm.saturating_add(1)
            } else {
                0
            };
            pass(look);
        }
    }

    /// Offers the item in the slot.
    fn try_slot(&self, seat: Seat<T>, item: T, slot: usize, more: Option<u64>) -> Next<T>
        requires place { seat.arena ≡ self.now.id }
        requires slot { slot < self.now.slots }
        ensures place { StaysIn self.now.id self.now.slots result }
        ensures goes { (v : SeatView) (a first : ℕ) (limit : Option ℕ)
            → IsTrying T.mark_of v a self.now.slots first limit more seat item slot
            → GoesOn T.mark_of v a self.now.slots first limit result }
    {
        match self.offer(seat, slot, item) {
            Offered::Posted(pending) => Next::Goes(Going::Waits(pending, 0), more),
            Offered::Swapped(seat, other) => Next::Ends(Exchanged::Swapped(seat, other)),
            Offered::Contended(seat, item, _) => {
                let more = less(more);
                if is_reached(more) {
                    return Next::Ends(Exchanged::TimedOut(seat, item));
                }
                Next::Goes(Going::Tries(seat, item, self.slot_after(slot)), more)
            }
            Offered::Worn(seat, item) => Next::Ends(Exchanged::Worn(seat, item)),
            Offered::Memory(seat, item) => Next::Ends(Exchanged::Memory(seat, item)),
        }
    }

    /// The slot after this one, the first after the last.
    fn slot_after(&self, slot: usize) -> usize
        requires { slot < self.now.slots }
        ensures next { result ≡ (slot + 1) % self.now.slots }
        ensures low { result < self.now.slots }
    {
        if slot < self.slots - 1 { slot + 1 } else { 0 }
    }

    /// Looks for the answer to an offer, and collects it where it sees one; else it passes this turn. A look that finds
    /// none takes the slot's line from no other thread, as a step that tries to collect would.
    fn gather(&self, pending: Pending<T>, turn: u64) -> Gathered<T>
        requires place { pending.seat.arena ≡ self.now.id }
        requires slot { pending.slot < self.now.slots }
        ensures { Gathers T.mark_of pending.seat pending.slot pending.round pending.mark result }
    {
        let gathered = self.look_for(pending);
        if let Gathered::NotYet(pending) = &gathered {
            pass_turn(pending.slot(), turn);
        }
        gathered
    }

    /// Looks for an answer, unless the offer has stood for long enough.
    fn wait_on(&self, pending: Pending<T>, turns: u64, more: Option<u64>) -> Next<T>
        requires place { pending.seat.arena ≡ self.now.id }
        requires slot { pending.slot < self.now.slots }
        ensures place { StaysIn self.now.id self.now.slots result }
        ensures goes { (v : SeatView) (a first : ℕ) (limit : Option ℕ)
            → IsWaiting T.mark_of v a self.now.slots first limit more pending turns
            → GoesOn T.mark_of v a self.now.slots first limit result }
    {
        if is_reached(more) {
            return self.time_out(pending, more);
        }
        if pending.slot() > 0 && turns >= PATIENCE {
            return self.move_on(pending, more);
        }
        match self.gather(pending, turns) {
            Gathered::Got(seat, other) => Next::Ends(Exchanged::Swapped(seat, other)),
            Gathered::NotYet(pending) => {
                Next::Goes(Going::Waits(pending, turns.saturating_add(1)), less(more))
            }
        }
    }

    /// Takes the item back, as the limit is reached.
    fn time_out(&self, pending: Pending<T>, more: Option<u64>) -> Next<T>
        requires place { pending.seat.arena ≡ self.now.id }
        requires slot { pending.slot < self.now.slots }
        requires limit { more ≡ Some 0 }
        ensures place { StaysIn self.now.id self.now.slots result }
        ensures goes { (v : SeatView) (a first counted : ℕ) (limit : Option ℕ)
            → IsWaiting T.mark_of v a self.now.slots first limit more pending counted
            → GoesOn T.mark_of v a self.now.slots first limit result }
    {
        match self.withdraw(pending) {
            TakenBack::Back(seat, item) => Next::Ends(Exchanged::TimedOut(seat, item)),
            TakenBack::Late(pending) => Next::Goes(Going::Stays(pending), more),
        }
    }

    /// Takes the item back, to try it in the slot of half the number.
    fn move_on(&self, pending: Pending<T>, more: Option<u64>) -> Next<T>
        requires place { pending.seat.arena ≡ self.now.id }
        requires slot { pending.slot < self.now.slots }
        requires above { 0 < pending.slot }
        requires limit { more ≢ Some 0 }
        ensures place { StaysIn self.now.id self.now.slots result }
        ensures goes { (v : SeatView) (a first counted : ℕ) (limit : Option ℕ) → patience ≤ counted
            → IsWaiting T.mark_of v a self.now.slots first limit more pending counted
            → GoesOn T.mark_of v a self.now.slots first limit result }
    {
        let slot = pending.slot();
        match self.withdraw(pending) {
            TakenBack::Back(seat, item) => Next::Goes(Going::Tries(seat, item, slot / 2), more),
            TakenBack::Late(pending) => Next::Goes(Going::Stays(pending), more),
        }
    }

    /// Looks for the answer of a seat that has taken the item.
    fn stay(&self, pending: Pending<T>, more: Option<u64>) -> Next<T>
        requires place { pending.seat.arena ≡ self.now.id }
        requires slot { pending.slot < self.now.slots }
        ensures place { StaysIn self.now.id self.now.slots result }
        ensures goes { (v : SeatView) (a first : ℕ) (limit : Option ℕ)
            → HasStayed v a self.now.slots first limit pending
            → GoesOn T.mark_of v a self.now.slots first limit result }
    {
        // Who took the item answers it at once, or doesn't run.
        match self.gather(pending, PAUSES) {
            Gathered::Got(seat, other) => Next::Ends(Exchanged::Swapped(seat, other)),
            Gathered::NotYet(pending) => Next::Goes(Going::Stays(pending), more),
        }
    }
}
