//! The posts of workers. While a worker waits for a job, its seat lies at its post: the thread that hands it a job makes
//! the worker's next step in the same critical section (hold) of the pool's lock, and leaves the job there with the seat.
//! So the worker doesn't take that lock again.
//!
//! - A post is a hint: if no seat lies there, the worker is only woken, and makes the step itself. So the records are the
//!   same whether a seat is laid there before another thread hands its worker a job or after it.
//! - The lock of a post is tried under the lock of the pool, where no thread waits for it, and never the other way round.

ghost use Rattle.std.specs.Prelude.{◌≤◌, IfSome};
ghost use Rattle.pool_threads.specs.Duties.{DutyFits};

use crate::home::{Duty, duty_of};
use crate::jobs::Work;
use crate::ledgers::PoolLedgers;
use crate::shared::PoolShared;
use crate::steps::WorkerCall;
use crate::worth::WorkerSeat;
use meet_place::hold;
use std::marker::Model;
use std::mem;
use std::sync::{Mutex, Wait};

/// What lies at a worker's post: what the worker does next, or nothing.
#[derive(Drop)]
pub(crate) struct Lying<W: Work, C, N: PoolLedgers> {
    duty: Option<Duty<C, WorkerSeat<W, N>>>,
}

impl<W: Work, C, N: PoolLedgers> Model for Lying<W, C, N> {
    ghost use Rattle.std.specs.Prelude.{ℕ, Option, IfSome};
    ghost use Rattle.meet_place.specs.Seats.{SeatView};
    ghost use Rattle.pool_core.specs.declared.deeds.PoolDeed.{PoolDeed as Told};
    ghost use Rattle.pool_threads.specs.declared.home.Duty.{Duty};
    ghost use Rattle.pool_threads.specs.Duties.{DutyFits};

    ghost Value = { Option (Duty C (SeatView (Told ℕ))) };

    ghost view = { λ l. l.duty };

    ghost invariant = { λ l. IfSome l.duty DutyFits };
}

/// The post of a worker: the gate at which it waits, and what lies there.
#[derive(Drop)]
pub(crate) struct Post<W: Work, C, G, N: PoolLedgers> {
    pub(crate) gate: G,
    lying: Mutex<Lying<W, C, N>>,
}

impl<W: Work, C: Drop, N: PoolLedgers> Lying<W, C, N> {
    /// Takes out what lies here.
    fn take(&mut self) -> Option<Duty<C, WorkerSeat<W, N>>>
        ensures { IfSome result DutyFits }
    {
        let Lying { duty } = mem::replace(self, Lying { duty: None });
        duty
    }

    /// Lays a duty down here, in place of what lies here.
    fn put(&mut self, duty: Option<Duty<C, WorkerSeat<W, N>>>)
        requires { IfSome duty DutyFits }
    {
        let before = mem::replace(self, Lying { duty });
        drop(before);
    }

    /// Makes the next step of the worker whose post this is, if it waits. If it is gone after that, nothing lies here.
    fn follow(&mut self, shared: &mut PoolShared<W, C, N>) {
        let duty = match self.take() {
            Some(Duty::Await(seat)) => duty_of(shared.work(seat, WorkerCall::Follow)),
            other => other,
        };
        self.put(duty);
    }
}

impl<W: Work, C: Drop, G, N: PoolLedgers> Post<W, C, G, N> {
    /// The post of this gate, at which nothing lies.
    pub(crate) fn new(gate: G) -> Self {
        Post {
            gate,
            lying: Mutex::new(Lying { duty: None }),
        }
    }

    /// In this critical section, makes the next step of the worker, if its seat lies here. If the post is locked, the
    /// worker makes it itself.
    pub(crate) fn deliver(&self, shared: &mut PoolShared<W, C, N>) {
        let Some(mut lying) = self.lying.try_lock() else {
            return;
        };
        lying.follow(shared);
    }

    /// Lays a worker's seat down, which waits for a job.
    pub(crate) fn entrust<R: Wait>(&self, rt: &R, seat: WorkerSeat<W, N>)
        requires room { 3 ≤ seat.room }
    {
        let mut lying = hold(rt, &self.lying);
        lying.put(Some(Duty::Await(seat)));
    }

    /// Takes out what the worker does next; none if it is gone.
    pub(crate) fn collect<R: Wait>(&self, rt: &R) -> Option<Duty<C, WorkerSeat<W, N>>>
        ensures { IfSome result DutyFits }
    {
        let mut lying = hold(rt, &self.lying);
        lying.take()
    }
}
