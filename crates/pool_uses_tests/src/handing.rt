//! A boxed function as a job, by the clauses of its types alone: handed in under the lock of a pool, and run.

ghost use Rattle.std.specs.Prelude.{◌≡◌, ℕ, ◌<◌, IfSome};
ghost use Rattle.meet_place.specs.Seats.{SameSeat};

use meet_place::Seat;
use pool_core::PoolDeed;
use pool_threads::{Boxed, ItsTag, Job, JobFn, PoolLedgers, PoolShared};
use std::sync::{Mutex, Wait};

/// Hands a boxed function in, under the lock of a pool.
pub fn hand<N: PoolLedgers, R: Wait>(
    rt: &R,
    lock: &Mutex<PoolShared<ItsTag, Boxed, N>>,
    seat: &mut Seat<PoolDeed<u64>, N>,
    tag: u64,
    call: JobFn,
) -> bool
    requires room { 0 < seat.old.room }
    requires ready { JobFn.pre call }
    requires worthy { (answer : ℕ) → JobFn.post call answer → answer ≡ tag }
    ensures same { SameSeat seat.old seat.new }
{
    let job = Job::new::<ItsTag>(Boxed::new(tag, call));
    let mut shared = lock.lock(rt);
    match shared.execute(seat, job) {
        Ok(_) => true,
        Err(_) => false,
    }
}

/// Runs a boxed function.
pub fn run(job: Job<Boxed>) -> Option<u64>
    ensures { IfSome result (λ answer. answer ≡ job.tag) }
{
    job.run::<ItsTag>()
}
