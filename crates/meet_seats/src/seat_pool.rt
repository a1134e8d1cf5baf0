//! The pool of seats.

ghost use Rattle.std.specs.Prelude.{◌≡◌, ◌≤◌, IfErr, vec_len};
ghost use Rattle.meet_tickets.specs.declared.refusals.Refusal.TheVariants.{Memory};

use crate::free::Free;
use meet_place::{Back, Ledgers, Seat};
use meet_tickets::{Refusal, Refused};
use std::alloc::Global;
use std::mem::ManuallyDrop;
use std::sync::{Condvar, Mutex, Wait};

/// The seats of one place, shared by any number of threads. A thread acquires a free seat, makes calls with it, and
/// releases it. No other thread has the seat meanwhile; its receipts and its moment stay with it.
///
/// A thread that waits in a call keeps its seat. If as many calls wait as there are seats, no other thread gets one. So
/// use calls with a limit, or calls that don't wait.
#[derive(Drop)]
pub struct SeatPool<D: Copy + Drop, N: Ledgers> {
    free: Mutex<Free<D, N>>,
    came: Condvar,
}

impl<D: Copy + Drop, N: Ledgers> SeatPool<D, N> {
    /// Creates a pool with all seats of a place, each free.
    ///
    /// # Errors
    /// - Memory, if the allocation fails; the seats are returned.
    ///
    /// # Example
    /// From `crates/examples/src/server.rt`:
    ///
    ///     let pool = match SeatPool::new(alloc, seats) {
    ///         Ok(pool) => pool,
    ///         Err(refused) => return Err(refused.into_why()),
    ///     };
    pub fn new(alloc: Global, seats: Vec<Seat<D, N>>) -> Result<Self, Refused<Vec<Seat<D, N>>>>
        requires all { vec_len seats ≡ N.parts }
        ensures why { IfErr result (λ refused. refused.why ≡ Memory) }
        ensures back { IfErr result (λ refused. refused.back ≡ seats) }
    {
        let Ok(backs) = Vec::with_capacity(alloc, seats.len()) else {
            return Err(Refused {
                why: Refusal::Memory,
                back: seats,
            });
        };
        Ok(SeatPool {
            free: Mutex::new(Free::of(seats, backs)),
            came: Condvar::new(),
        })
    }

    /// Acquires the free seat that was released last; returns None if no seat is free now. It waits only for the lock.
    ///
    /// # Example
    /// From `crates/meet_seats_tests/src/one_thread.rt`:
    ///
    ///     let seat = pool.try_acquire(rt).ok_or(Refusal::NoSuchSeat)?;
    ///
    /// Java: `Semaphore.tryAcquire`.
    pub fn try_acquire<R: Wait>(&self, rt: &R) -> Option<Seat<D, N>> {
        self.free.lock(rt).take()
    }

    /// Acquires a seat, and waits until one is free. It waits for ever if no seat is released.
    ///
    /// # Example
    /// From `crates/examples/src/server/serving.rt`:
    ///
    ///     let seat = server.pool.acquire(rt);
    ///     match server.queue.poll_for(rt, seat, PATIENCE) {
    ///
    /// Java: `Semaphore.acquire`.
    pub fn acquire<R: Wait>(&self, rt: &R) -> Seat<D, N> {
        let mut free = self.free.lock(rt);
        for _ in rt.forever() {
            if let Some(seat) = free.take() {
                return seat;
            }
            free = self.came.wait(rt, free);
        }
        unreachable!() // it loops for ever
    }

    /// Releases a seat, and wakes one thread that waits for a seat.
    ///
    /// # Example
    /// From `crates/examples/src/server/serving.rt`:
    ///
    ///     match server.queue.tend(rt, seat) {
    ///         Ok(seat) => {
    ///             server.pool.release(rt, seat);
    ///             Ok(())
    ///         }
    ///
    /// Java: `Semaphore.release`.
    pub fn release<R: Wait>(&self, rt: &R, seat: Seat<D, N>) {
        let left_over = self.free.lock(rt).put(seat);
        let _none = ManuallyDrop::new(left_over);
        self.came.notify_one();
    }

    /// Returns the free seats, to close their place: all, if each that was acquired was released. It doesn't allocate.
    ///
    /// # Example
    /// From `crates/examples/src/server.rt`:
    ///
    ///     let closed = queue
    ///         .close(alloc, pool.into_seats())
    ///         .map_err(QueueFault::into_why)?;
    pub fn into_seats(self) -> Vec<Back<D, N>>
        ensures { vec_len result ≤ N.parts }
    {
        self.free.into_inner().into_backs()
    }
}
