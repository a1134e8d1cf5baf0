//! A hundred threads over eight seats.

ghost use Rattle.std.specs.Prelude.{◌≡◌, vec_len};
ghost use Rattle.meet_place.specs.Ledgers.{AreOf};
ghost use Rattle.meet_tickets.specs.Limits.{most_records};

use meet_cells::ParkGate;
use meet_seats::SeatPool;
use meet_sync::{End, Ledgers, NewQueue, TransferQueue};
use meet_tickets::{Deed, Refusal};
use std::alloc::Global;
use std::marker::Brand;
use std::sync::Wait;
use std::sync::atomic::{AtomicU64, Ordering};
use std::thread;
use std::thread::Threads;
use std::time::Clock;

/// What the threads share.
struct Hall<N: Ledgers> {
    queue: TransferQueue<u64, ParkGate, N>,
    pool: SeatPool<Deed, N>,
    sum: AtomicU64,
    faults: AtomicU64,
}

/// One thread: it puts a number, and takes one, each with whichever seat it gets.
fn visit<N: Ledgers, R: Wait + Clock>(rt: &R, hall: &Hall<N>, number: u64) {
    let seat = hall.pool.acquire(rt);
    match hall.queue.put(rt, seat, number) {
        Ok(ended) => hall.pool.release(rt, ended.seat),
        Err(refused) => {
            hall.faults.fetch_add(1, Ordering::SeqCst);
            hall.pool.release(rt, refused.seat);
        }
    }
    let seat = hall.pool.acquire(rt);
    match hall.queue.poll(rt, seat) {
        Ok(ended) => {
            hall.pool.release(rt, ended.seat);
            match ended.end {
                End::Got(_, number) => {
                    hall.sum.fetch_add(number, Ordering::SeqCst);
                }
                _ => {
                    hall.faults.fetch_add(1, Ordering::SeqCst);
                }
            }
        }
        Err(refused) => {
            hall.faults.fetch_add(1, Ordering::SeqCst);
            hall.pool.release(rt, refused.seat);
        }
    }
}

/// All of them, until each has ended. Where there is no thread for one, its visit is made here.
fn all_visit<N, R>(rt: &R, hall: &Hall<N>)
where
    N: Ledgers + Send + Sync,
    R: Threads + Wait + Clock + Sync,
{
    thread::scope(thread::scope_env(), rt, |scope| {
        for number in 1..=100u64 {
            if scope.spawn(move || visit(rt, hall, number)).is_err() {
                visit(rt, hall, number);
            }
        }
    });
}

/// A hundred threads at a queue of these parts: the sum of what they took, how many calls failed, and how many records
/// came of it; or the reason against it.
fn hundred<N, R>(
    rt: &R,
    alloc: Global,
    parts: NewQueue<ParkGate>,
) -> Result<(u64, u64, usize), Refusal>
where
    N: Ledgers + Send + Sync,
    R: Threads + Wait + Clock + Sync,
    requires ledgers { AreOf N.name N.folds N.moments N.parts parts.blanks }
    requires one_each { N.parts ≡ vec_len parts.gates }
    requires cap { N.cap ≡ most_records }
{
    let (queue, seats) = match TransferQueue::<u64, ParkGate, N>::new(alloc, parts) {
        Ok(made) => made,
        Err(refused) => return Err(refused.into_why()),
    };
    let pool = match SeatPool::new(alloc, seats) {
        Ok(pool) => pool,
        Err(refused) => return Err(refused.why),
    };
    let hall = Hall {
        queue,
        pool,
        sum: AtomicU64::new(0),
        faults: AtomicU64::new(0),
    };
    all_visit(rt, &hall);
    let Hall {
        queue,
        pool,
        sum,
        faults,
    } = hall;
    match queue.close(alloc, pool.into_seats()) {
        Ok(chronicle) => Ok((
            sum.into_inner(),
            faults.into_inner(),
            chronicle.records.len(),
        )),
        Err(fault) => Err(fault.why()),
    }
}

#[test]
fn a_hundred_threads_over_eight_seats(rt: HostRuntime) {
    let parts = NewQueue::parked(rt.alloc(), 8).expect(&rt, "memory");
    let told = hundred::<Brand, HostRuntime>(&rt, rt.alloc(), parts);
    let (sum, faults, records) = told.expect(&rt, "a queue");
    assert_eq!(&rt; sum, 5050);
    assert_eq!(&rt; faults, 0);
    assert_eq!(&rt; records, 200);
}
