//! What the documentation of `java.util.concurrent.Exchanger` (JDK 21) says of `exchange`, a test for each case that is
//! kept here. Nobody interrupts an exchange here.

use crate::shared::{met, met_late, opened, times_out};
use std::test::*;
use std::thread;
use std::time::Instant;

/// "If no other thread is already waiting at the exchange then the current thread is disabled for thread scheduling
/// purposes and lies dormant until some other thread enters the exchange": the second comes after the first has parked.
#[test]
fn who_is_alone_lies_dormant_until_another_enters(rt: HostRuntime) {
    let (exchanger, first, second) = opened(&rt, rt.alloc());
    let (five, six) = thread::join(
        &rt,
        || met(&rt, &exchanger, first, 5),
        || met_late(&rt, &exchanger, second, 6),
    );
    assert_eq!(&rt; (five, six), (Some(6), Some(5)));
}

/// "If the specified waiting time elapses then a TimeoutException is thrown." Here the item is returned.
#[test]
fn a_waiting_time_elapses(rt: HostRuntime) {
    let (exchanger, first, _second) = opened(&rt, rt.alloc());
    let begin = Instant::now(&rt).expect(&rt, "a clock");
    let _first = times_out(&rt, &exchanger, first, 50);
    let passed = begin.elapsed(&rt).expect(&rt, "a clock");
    assert!(&rt; passed.as_millis() >= 50);
}

/// "If the time is less than or equal to zero, the method will not wait at all."
#[test]
fn without_time_it_does_not_wait(rt: HostRuntime) {
    let (exchanger, first, _second) = opened(&rt, rt.alloc());
    let mut first = first;
    for _ in 0..1_000 {
        first = times_out(&rt, &exchanger, first, 0);
    }
}
