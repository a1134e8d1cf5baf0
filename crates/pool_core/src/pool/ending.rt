//! The shutdown of a pool.

ghost use Rattle.std.specs.Prelude.{◌≡◌, ◌≢◌, ◌+◌, None, Some, IfOk, IfErr};
ghost use Rattle.meet_tickets.specs.declared.refusals.Refusal.TheVariants.{Memory, HistoryFull};

use crate::crew::cut_all;
use crate::pool::PoolCore;
use crate::stages::Task;
use meet_tickets::{Refusal, SeatNo};
use std::mem;

impl<J> PoolCore<J> {
    ghost use Rattle.pool_core.specs.Calls.{Step, ReturnStep, shutdown_refusal};
    ghost use Rattle.pool_core.specs.declared.deeds.PoolDeed.TheVariants.{ShutDown};

    /// Returns whether a shutdown of this seat is admitted.
    ///
    /// # Errors
    /// - NoSuchSeat, exactly if the seat isn't a caller's.
    pub fn admit_shutdown(&self, seat: SeatNo) -> Result<(), Refusal>
        ensures admitted { IfOk result (λ _. shutdown_refusal self.now seat ≡ None) }
        ensures why { IfErr result (λ why. shutdown_refusal self.now seat ≡ Some why) }
        ensures own { IfErr result (λ why. (why ≢ Memory) × (why ≢ HistoryFull)) }
    {
        if seat.number() < self.settings.sizes.callers {
            Ok(())
        } else {
            Err(Refusal::NoSuchSeat)
        }
    }

    /// Shuts the pool down: no job is accepted any more, buffered jobs stay, and waiting workers are interrupted. It
    /// doesn't allocate.
    ///
    /// # Errors
    /// - NoSuchSeat, exactly if the seat isn't a caller's: nothing has changed.
    pub fn shutdown(&mut self, seat: SeatNo) -> Result<(), Refusal>
        ensures step { IfOk result (λ _. Step self.old seat 0 ShutDown self.new) }
        ensures room { self.new.room ≡ self.old.room }
        ensures admitted { IfOk result (λ _. shutdown_refusal self.old seat ≡ None) }
        ensures why { IfErr result (λ why. shutdown_refusal self.old seat ≡ Some why) }
        ensures unchanged { IfErr result (λ _. self.new ≡ self.old) }
    {
        self.admit_shutdown(seat)?;
        self.shut_admitted(seat);
        Ok(())
    }

    /// An admitted shutdown.
    pub(crate) fn shut_admitted(&mut self, seat: SeatNo)
        requires { shutdown_refusal self.old seat ≡ None }
        ensures step { Step self.old seat 0 ShutDown self.new }
        ensures room { self.new.room ≡ self.old.room }
    {
        self.shut = true;
        cut_all(&mut self.workers);
        self.line.drop_takes();
    }

    /// Shuts the pool down, and returns the buffered jobs, in order of arrival. It doesn't allocate: the list was
    /// reserved as the jobs were buffered.
    ///
    /// # Errors
    /// - NoSuchSeat, exactly if the seat isn't a caller's: nothing has changed.
    pub fn shutdown_now(&mut self, seat: SeatNo) -> Result<Vec<Task<J>>, Refusal>
        ensures step { IfOk result (λ jobs. ReturnStep self.old seat jobs.items self.new) }
        ensures room { self.new.room ≡ self.old.room }
        ensures admitted { IfOk result (λ _. shutdown_refusal self.old seat ≡ None) }
        ensures why { IfErr result (λ why. shutdown_refusal self.old seat ≡ Some why) }
        ensures unchanged { IfErr result (λ _. self.new ≡ self.old) }
    {
        self.admit_shutdown(seat)?;
        Ok(self.empty_admitted(seat))
    }

    /// An admitted `shutdown_now`.
    pub(crate) fn empty_admitted(&mut self, seat: SeatNo) -> Vec<Task<J>>
        requires { shutdown_refusal self.old seat ≡ None }
        ensures step { ReturnStep self.old seat result.items self.new }
        ensures room { self.new.room ≡ self.old.room }
    {
        let count = self.line.kept();
        self.shut = true;
        cut_all(&mut self.workers);
        self.line.drop_takes();
        let mut list = mem::replace(&mut self.list, Vec::new(self.alloc));
        self.line.hand_back(&mut list);
        self.back += count;
        list
    }
}
