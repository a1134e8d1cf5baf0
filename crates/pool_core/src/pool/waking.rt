//! Which worker may go on after a call: hints.

use crate::answers::{Executed, Followed, Ready};
use crate::calls::PoolAnswer;
use crate::pool::PoolCore;
use meet_tickets::SeatNo;

impl<J> PoolCore<J> {
    /// The seat that may go on: that of the worker that was handed a job; and where a worker ends or the pool is shut,
    /// that of a worker that was cut, which ends in its turn and so wakes the next.
    pub(crate) fn woken(&self, answer: &PoolAnswer<J>) -> Option<SeatNo> {
        match answer {
            PoolAnswer::Executed(_, Executed::Handed(worker)) => self.seat_of(*worker),
            PoolAnswer::WasShut | PoolAnswer::Returned(_) => self.next_cut(),
            PoolAnswer::BeReady(_, Ready::Exit) => self.next_cut(),
            PoolAnswer::Followed(_, Followed::Exit) => self.next_cut(),
            _ => None,
        }
    }

    /// The seat of a worker.
    fn seat_of(&self, worker: u64) -> Option<SeatNo> {
        SeatNo::new(self.settings.sizes.callers.saturating_add(worker))
    }

    /// The seat of the first worker whose take was cut.
    fn next_cut(&self) -> Option<SeatNo> {
        match self.workers.first_cut() {
            Some(worker) => self.seat_of(worker),
            None => None,
        }
    }
}
