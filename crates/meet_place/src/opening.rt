//! The beginning of all places that threads share: seats with their ledger, and how the lock is taken.

ghost use Rattle.std.specs.Prelude.{◌≡◌, ◌≤◌, [], vec_len};
ghost use Rattle.std.specs.Vec.{vec_capacity};
ghost use Rattle.meet_tickets.specs.Limits.{most_seats};
ghost use Rattle.meet_place.specs.Ledgers.{AreOf};
ghost use Rattle.meet_place.specs.Seats.{AreFresh};

use crate::ledgers::{Blanks, Ledgers, Stake, Totals};
use crate::place::seat_of;
use crate::seats::Seat;
use std::alloc::Global;
use std::sync::atomic::{AtomicBool, Ordering};
use std::sync::{Mutex, MutexGuard, Wait};
use std::thread;

/// How often a thread tries the lock before it sleeps, and lets another thread run after each try: who holds the lock
/// needs some 100 nanoseconds, and to sleep and be woken takes 2,000 to 5,000. Our choice, of which nothing is
/// promised.
const LOCK_TURNS: u64 = 16;

/// Takes a lock after no other thread has it, and holds it until the guard is dropped.
#[inline(always)]
pub fn hold<'a, T, R: Wait>(rt: &R, lock: &'a Mutex<T>) -> MutexGuard<'a, T> {
    match lock.try_lock() {
        Some(guard) => guard,
        None => hold_later(rt, lock, 1),
    }
}

/// Takes a lock as `hold` does, or, if the processors are oversubscribed, sleeps at once where it is held.
#[inline(always)]
pub(crate) fn hold_or_sleep<'a, T, R: Wait>(
    rt: &R,
    lock: &'a Mutex<T>,
    oversubscribed: &AtomicBool,
) -> MutexGuard<'a, T> {
    match lock.try_lock() {
        Some(guard) => guard,
        None => hold_or_sleep_later(rt, lock, oversubscribed),
    }
}

/// The same where the lock was taken.
#[cold]
#[inline(never)]
fn hold_or_sleep_later<'a, T, R: Wait>(
    rt: &R,
    lock: &'a Mutex<T>,
    oversubscribed: &AtomicBool,
) -> MutexGuard<'a, T> {
    if oversubscribed.load(Ordering::SeqCst) {
        return lock.lock(rt);
    }
    hold_later(rt, lock, 1)
}

/// Takes a lock as `hold` does. A thread yields twice as often after each try as after the one before, at most `most`
/// times: the thread that holds the lock may come back at once, and finds what it guards in its cache.
#[inline(always)]
pub fn hold_patiently<'a, T, R: Wait>(rt: &R, lock: &'a Mutex<T>, most: u64) -> MutexGuard<'a, T> {
    match lock.try_lock() {
        Some(guard) => guard,
        None => hold_later(rt, lock, most),
    }
}

/// The same where the lock was taken.
#[cold]
#[inline(never)]
fn hold_later<'a, T, R: Wait>(rt: &R, lock: &'a Mutex<T>, most: u64) -> MutexGuard<'a, T> {
    let mut yields: u64 = 1;
    for _ in 1..LOCK_TURNS {
        for _ in 0..yields {
            thread::yield_now();
        }
        if let Some(guard) = lock.try_lock() {
            return guard;
        }
        if yields < most {
            yields = yields.saturating_mul(2);
        }
    }
    lock.lock(rt)
}

/// Creates the totals of two new ledgers, a share of them that has no part, and `count` seats, numbered from 0. The
/// empty list has room for them.
pub fn open_seats<D: Copy, N: Ledgers>(
    alloc: Global,
    blanks: Blanks,
    count: usize,
    mut seats: Vec<Seat<D, N>>,
) -> (Totals<N>, Stake<N>, Vec<Seat<D, N>>)
    requires limit { count ≤ most_seats }
    requires ledgers { AreOf N.name N.folds N.moments N.parts blanks }
    requires one_each { N.parts ≡ count }
    requires empty { seats.items ≡ [] }
    requires room { count ≤ vec_capacity seats }
    ensures total { (result.0.total ≡ 0) × (result.0.folds ≡ 0) }
    ensures rest { (result.1.parts ≡ 0) × (result.1.amount ≡ 0) × (result.1.folds ≡ 0) }
    ensures count { vec_len result.2 ≡ count }
    ensures numbers { AreFresh result.2.items }
{
    let (mut total, mut rest) = blanks.open::<N>();
    let first = total.moment();
    for at in 0..count {
        let number = seat_of(at);
        seats.push_reserved(Seat::new(alloc, number, rest.split_off(1, 0, 0), first.again()));
    }
    (total, rest, seats)
}
