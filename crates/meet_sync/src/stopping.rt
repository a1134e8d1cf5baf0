//! How the users of a queue are stopped.

ghost use Rattle.std.specs.Prelude.{◌≡◌, ℕ, ◌<◌, None, [], ◌∷◌, IfOk, IfErr};
ghost use Rattle.meet_sync.specs.Asking.{RefusedAs};
ghost use Rattle.meet_sync.specs.Stopping.{Interrupts, others, seat_of};
ghost use Rattle.meet_sync.specs.Told.{IsCutWhy};

use crate::asked::{Interrupted, SeatRefused};
use crate::queue::Queue;
use meet_core::QueuePlace;
use meet_place::{Gate, Ledgers, Seat};
use meet_tickets::{Deed, SeatNo};
use std::sync::Wait;

impl<N: Ledgers> Interrupted<N> {
    /// Returns the seat that interrupted, whatever the result.
    pub fn into_seat(self) -> Seat<Deed, N>
        ensures { result ≡ seat_of self }
    {
        match self {
            Interrupted::Cut(seat, _) => seat,
            Interrupted::Flagged(seat) => seat,
        }
    }
}

impl<O: QueuePlace, G: Gate, N: Ledgers> Queue<O, G, N> {
    /// Interrupts a seat of this queue, whatever comes of it.
    fn interrupt_one<R: Wait>(
        &self,
        rt: &R,
        seat: Seat<Deed, N>,
        target: SeatNo,
    ) -> Result<Seat<Deed, N>, SeatRefused<O::Item, N>>
        requires there { target < N.parts }
        ensures interrupted { IfOk result (λ after. Interrupts seat after (target ∷ [])) }
        ensures refused { IfErr result (RefusedAs IsCutWhy seat None) }
    {
        match self.interrupt(rt, seat, target) {
            Ok(interrupted) => Ok(interrupted.into_seat()),
            Err(refused) => Err(refused),
        }
    }

    /// Interrupts every other seat, in the order of their numbers, each by a step and a record of its own. A request
    /// that waits ends as interrupted, and its thread is woken; for every other seat the interrupt becomes pending (it
    /// is flagged). So a queue's users are stopped (implementation-defined; Java interrupts threads one by one).
    ///
    /// # Errors
    /// The seats below some number were interrupted, and no others; the returned seat has their receipts.
    /// - HistoryFull, if the log has no room for a record.
    /// - Memory, if an allocation fails.
    ///
    /// # Example
    /// From `crates/examples/src/pipeline/stages.rt`:
    ///
    ///     for number in 1..=last {
    ///         let put = out.put(rt, seat, number).map_err(SeatRefused::into_why)?;
    ///         seat = put.seat;
    ///     }
    ///     out.interrupt_all(rt, seat).map_err(SeatRefused::into_why)
    pub fn interrupt_all<R: Wait>(
        &self,
        rt: &R,
        seat: Seat<Deed, N>,
    ) -> Result<Seat<Deed, N>, SeatRefused<O::Item, N>>
        ensures all { IfOk result (λ after. Interrupts seat after (others seat.number N.parts)) }
        ensures some { IfErr result (λ refused. (below : ℕ) × (below < N.parts)
            × Interrupts seat refused.seat (others seat.number below)) }
        ensures why { IfErr result (λ refused. IsCutWhy refused.why) }
        ensures item { IfErr result (λ refused. refused.item ≡ None) }
    {
        let own = seat.number().number();
        let mut seat = seat;
        for number in 0..self.seats() {
            if number == own {
                continue;
            }
            match self.interrupt_one(rt, seat, SeatNo::new(number).unwrap()) {
                Ok(after) => seat = after,
                Err(refused) => return Err(refused),
            }
        }
        Ok(seat)
    }
}
