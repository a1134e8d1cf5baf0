//! A pool of as many seats as a place may have.

ghost use Rattle.std.specs.Prelude.{◌≡◌, vec_len};
ghost use Rattle.meet_place.specs.Ledgers.{AreOf};
ghost use Rattle.meet_tickets.specs.Limits.{most_records};

use meet_cells::ParkGate;
use meet_seats::SeatPool;
use meet_sync::{Ledgers, NewQueue, TransferQueue};
use meet_tickets::{MOST_SEATS, Refusal};
use std::alloc::Global;
use std::marker::Brand;
use std::sync::Wait;

/// Sits down once more than there are seats, and rises with each: how many were given out, and how many lie there at
/// the end.
fn filled<N: Ledgers, R: Wait>(
    rt: &R,
    alloc: Global,
    parts: NewQueue<ParkGate>,
) -> Result<(usize, usize), Refusal>
    requires ledgers { AreOf N.name N.folds N.moments N.parts parts.blanks }
    requires one_each { N.parts ≡ vec_len parts.gates }
    requires cap { N.cap ≡ most_records }
{
    let (queue, seats) = match TransferQueue::<u64, ParkGate, N>::new(alloc, parts) {
        Ok(made) => made,
        Err(refused) => return Err(refused.into_why()),
    };
    let pool = match SeatPool::new(alloc, seats) {
        Ok(pool) => pool,
        Err(refused) => return Err(refused.into_why()),
    };
    let mut taken = Vec::new(alloc);
    for _ in 0..=MOST_SEATS {
        if let Some(seat) = pool.try_acquire(rt) {
            taken.push(seat).map_err(|_| Refusal::Memory)?;
        }
    }
    let given = taken.len();
    for seat in taken {
        pool.release(rt, seat);
    }
    let backs = pool.into_seats();
    let free = backs.len();
    match queue.close(alloc, backs) {
        Ok(_) => Ok((given, free)),
        Err(fault) => Err(fault.into_why()),
    }
}

/// Memory is refused only where it is short, however many seats there are.
#[test]
fn a_pool_of_65_536_seats(rt: HostRuntime) {
    let parts = NewQueue::parked(rt.alloc(), 65_536).expect(&rt, "memory");
    let told = filled::<Brand, HostRuntime>(&rt, rt.alloc(), parts);
    assert_eq!(&rt; told, Ok((65_536, 65_536)));
}
