//! What a pool of seats returns to one thread.

ghost use Rattle.std.specs.Prelude.{◌≡◌, vec_len};
ghost use Rattle.meet_place.specs.Ledgers.{AreOf};
ghost use Rattle.meet_tickets.specs.Limits.{most_records};

use meet_cells::ParkGate;
use meet_seats::SeatPool;
use meet_sync::{Ledgers, NewQueue, TransferQueue};
use meet_tickets::{Deed, Refusal};
use std::alloc::Global;
use std::marker::Brand;
use std::sync::Wait;

/// The number of the seat that a pool returns now; it is released at once.
fn glance<N: Ledgers, R: Wait>(rt: &R, pool: &SeatPool<Deed, N>) -> Option<u64> {
    let seat = pool.try_acquire(rt)?;
    let number = seat.number().number();
    pool.release(rt, seat);
    Some(number)
}

/// Sits down with all of three seats, and rises with one: the numbers that were given out, what there was then, what
/// there was once the second seat was back, and how many seats lie there at the end.
fn looked<N: Ledgers, R: Wait>(
    rt: &R,
    alloc: Global,
    parts: NewQueue<ParkGate>,
) -> Result<(Vec<u64>, Option<u64>, Option<u64>, usize), Refusal>
    requires ledgers { AreOf N.name N.folds N.moments N.parts parts.blanks }
    requires one_each { N.parts ≡ vec_len parts.gates }
    requires cap { N.cap ≡ most_records }
{
    let (queue, seats) = match TransferQueue::<u64, ParkGate, N>::new(alloc, parts) {
        Ok(made) => made,
        Err(refused) => return Err(refused.into_why()),
    };
    let pool = match SeatPool::new(alloc, seats) {
        Ok(pool) => pool,
        Err(refused) => return Err(refused.into_why()),
    };
    let mut numbers = Vec::new(alloc);
    let mut taken = Vec::new(alloc);
    for _ in 0..3 {
        let seat = pool.try_acquire(rt).ok_or(Refusal::NoSuchSeat)?;
        numbers
            .push(seat.number().number())
            .map_err(|_| Refusal::Memory)?;
        taken.push(seat).map_err(|_| Refusal::Memory)?;
    }
    let none = glance(rt, &pool);
    let mut again = None;
    for seat in taken {
        let number = seat.number().number();
        pool.release(rt, seat);
        if number == 1 {
            again = glance(rt, &pool);
        }
    }
    let backs = pool.into_seats();
    let count = backs.len();
    match queue.close(alloc, backs) {
        Ok(_) => Ok((numbers, none, again, count)),
        Err(fault) => Err(fault.into_why()),
    }
}

/// Each seat is given out once, and there is none then; one that came back is there again.
#[test]
fn each_seat_is_given_out_once(rt: HostRuntime) {
    let parts = NewQueue::parked(rt.alloc(), 3).expect(&rt, "memory");
    let told = looked::<Brand, HostRuntime>(&rt, rt.alloc(), parts);
    let (numbers, none, again, count) = told.expect(&rt, "a queue");
    assert_eq!(&rt; numbers.as_slice(), [2, 1, 0].as_slice());
    assert_eq!(&rt; none, None);
    assert_eq!(&rt; again, Some(1)); // the seats 2 and 1 are back, and the last is given out
    assert_eq!(&rt; count, 3);
}
