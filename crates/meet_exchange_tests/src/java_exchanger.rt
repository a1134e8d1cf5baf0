//! What the documentation of `Exchanger.exchange` says, a test for each of its cases that the scope keeps. Nobody
//! interrupts an exchange here.

use crate::shared::{gets, opened, posts};
use crate::waits::{met, times_out, tried};
use meet_exchange::Exchanged;
use std::test::*;
use std::thread;

/// If another thread is already waiting at the exchange point then it receives the object passed in by the current
/// thread. The current thread returns immediately, receiving the object passed to the exchange by that other thread.
#[test]
fn who_waits_is_met_at_once(rt: HostRuntime) {
    let (arena, waiting, current, _two) = opened(&rt, rt.alloc(), 1);
    let waiting = posts(&rt, &arena, waiting, 0, 5, 2);
    let Exchanged::Swapped(_current, got) = arena.exchange(&rt, current, 0, 6, Some(0)) else {
        panic!(rt; "not at once")
    };
    assert_eq!(rt; got, 5);
    let _waiting = gets(&rt, &arena, waiting, 6, 524_288);
}

/// If no other thread is already waiting at the exchange then the current thread lies dormant until some other thread
/// enters the exchange. Each receives the other's object in return.
#[test]
fn who_is_alone_waits_for_another(rt: HostRuntime) {
    let (arena, first, second, _two) = opened(&rt, rt.alloc(), 1);
    let (five, six) = thread::join(
        &rt,
        || met(&rt, &arena, first, 5),
        || met(&rt, &arena, second, 6),
    );
    assert_eq!(rt; (five, six), (Some(6), Some(5)));
}

/// If the specified waiting time elapses then a `TimeoutException` is thrown. Here the item comes back.
#[test]
fn a_limit_passes(rt: HostRuntime) {
    let (arena, current, _one, _two) = opened(&rt, rt.alloc(), 1);
    let current = times_out(&rt, &arena, current, 0, 500);
    tried(&rt, current.parts(), &[0]);
}

/// If the time is less than or equal to zero, the method will not wait at all.
#[test]
fn without_time_it_does_not_wait(rt: HostRuntime) {
    let (arena, current, _one, _two) = opened(&rt, rt.alloc(), 1);
    let current = times_out(&rt, &arena, current, 0, 0);
    tried(&rt, current.parts(), &[0]);
}
