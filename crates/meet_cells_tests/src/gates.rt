//! Gates that are woken, gates at which the time runs out, and what remains of a limit.

use meet_cells::{Deadline, Gate, ParkGate, SpinGate, Turn};
use std::io::ErrorKind;
use std::process::Abort;
use std::sync::Wait;
use std::sync::atomic::{AtomicU64, Ordering};
use std::test::*;
use std::thread::Threads;
use std::time::{Clock, Duration, Instant};
use std::{io, thread};

/// How long a limit lasts here, in milliseconds.
const SHORT: u64 = 20;

/// When the wait for it is over at the latest, also on a busy machine.
const LATE: u64 = 10_000;

/// A limit that doesn't pass while a test runs, in milliseconds.
const LONG: u64 = 60_000;

/// How often `dally` looks at most: for longer than a thread yields before it parks.
const MOST_LOOKS: u64 = 32_749;

/// A wake is kept for the next wait, with and without a limit, and two are kept as one.
fn keeps_one_wake<G: Gate, C: Wait + Clock>(rt: &impl Abort, clock: &C, gate: &G) {
    for limit in [None, Some(0), Some(SHORT), Some(u64::MAX)] {
        gate.wake();
        gate.wake();
        assert_eq!(rt; gate.wait(clock, limit), Turn::Woken);
        assert_eq!(rt; gate.wait(clock, Some(0)), Turn::Elapsed);
    }
}

/// A limit passes, not too soon, and not seconds later, also after a wake.
fn elapses<G: Gate, R: Wait + Clock + Abort>(rt: &R, gate: &G) -> Result<(), Fail> {
    gate.wake();
    assert_eq!(rt; gate.wait(rt, None), Turn::Woken);
    let start = Instant::now(rt)?;
    assert_eq!(rt; gate.wait(rt, Some(SHORT)), Turn::Elapsed);
    let passed = start.elapsed(rt)?;
    assert!(rt; passed >= Duration::from_millis(SHORT));
    assert!(rt; passed < Duration::from_millis(LATE));
    Ok(())
}

/// A wake from another thread ends a wait.
fn is_woken<G: Gate + Sync, R: Threads + Wait + Clock + Sync>(
    rt: &R,
    gate: &G,
    limit: Option<u64>,
) -> Turn {
    let (turn, _) = thread::join(
        rt,
        move || gate.wait(rt, limit),
        move || {
            thread::sleep(rt, Duration::from_millis(5));
            gate.wake()
        },
    );
    turn
}

/// Two threads wake each other in turn, each after it was woken: whether none of `turns` wakes was lost.
fn alternate<G: Gate + Sync, R: Threads + Wait + Clock + Sync>(
    rt: &R,
    one: &G,
    other: &G,
    turns: u64,
) -> bool {
    let (first, second) = thread::join(
        rt,
        move || answers(rt, one, other, turns),
        move || {
            one.wake();
            answers(rt, other, one, turns)
        },
    );
    first && second
}

/// Wakes the other gate after each wake at its own, sometimes at once and sometimes later, so that now and then a wake
/// comes just as its thread begins to park. It ends with the first wake that doesn't come.
fn answers<G: Gate, R: Wait + Clock>(rt: &R, own: &G, other: &G, turns: u64) -> bool {
    for turn in 0..turns {
        if own.wait(rt, Some(LONG)) != Turn::Woken {
            return false;
        }
        dally(turn.wrapping_mul(7_919) % MOST_LOOKS);
        other.wake();
    }
    true
}

/// Passes some time without a look at a clock: about a nanosecond for each of `looks` looks at a word.
fn dally(looks: u64) {
    let word = AtomicU64::new(0);
    for _ in 0..looks {
        if word.load(Ordering::SeqCst) != 0 {
            return;
        }
    }
}

/// A runtime without a clock.
#[derive(Drop)]
struct Clockless<'a, R: Wait> {
    rt: &'a R,
}

impl<R: Wait> Wait for Clockless<'_, R> {}

impl<R: Wait> Clock for Clockless<'_, R> {
    fn monotonic(&self) -> io::Result<Duration> {
        Err(ErrorKind::Unsupported.into())
    }

    fn since_1970(&self) -> io::Result<Duration> {
        Err(ErrorKind::Unsupported.into())
    }
}

/// A runtime whose clock goes on by `step` milliseconds each time it is read: so a yield takes as long.
#[derive(Drop)]
struct Ticking<'a, R: Wait> {
    rt: &'a R,
    read: AtomicU64,
    step: u64,
}

impl<R: Wait> Wait for Ticking<'_, R> {}

impl<R: Wait> Clock for Ticking<'_, R> {
    fn monotonic(&self) -> io::Result<Duration> {
        let read = self.read.fetch_add(1, Ordering::SeqCst);
        Ok(Duration::from_millis(read.saturating_mul(self.step)))
    }

    fn since_1970(&self) -> io::Result<Duration> {
        self.monotonic()
    }
}

/// A clock that goes on by `step` milliseconds each time it is read.
fn clock_by<R: Wait>(rt: &R, step: u64) -> Ticking<'_, R> {
    Ticking {
        rt,
        read: AtomicU64::new(0),
        step,
    }
}

/// Whether a gate finds the processors oversubscribed after `waits` waits, in which nobody wakes it.
fn found_after<G: Gate, C: Wait + Clock>(rt: &impl Abort, clock: &C, gate: &G, waits: u64) -> bool {
    for _ in 0..waits {
        assert_eq!(rt; gate.wait(clock, Some(0)), Turn::Elapsed);
    }
    gate.is_oversubscribed()
}

/// What is asked of every gate.
fn serves<G: Gate + Sync, R: Threads + Wait + Clock + Abort + Sync>(
    rt: &R,
    gate: &G,
) -> Result<(), Fail> {
    keeps_one_wake(rt, rt, gate);
    elapses(rt, gate)?;
    for limit in [None, Some(LONG), Some(u64::MAX)] {
        assert_eq!(rt; is_woken(rt, gate, limit), Turn::Woken);
    }
    Ok(())
}

#[test]
fn a_park_gate_serves(rt: HostRuntime) -> Result<(), Fail> {
    serves(&rt, &ParkGate::new())
}

#[test]
fn spin_gates_serve(rt: HostRuntime) -> Result<(), Fail> {
    serves(&rt, &SpinGate::new(0))?;
    serves(&rt, &SpinGate::new(1_000))
}

#[test]
fn no_wake_is_lost(rt: HostRuntime) {
    assert!(rt; alternate(&rt, &ParkGate::new(), &ParkGate::new(), 4_000));
    assert!(rt; alternate(&rt, &SpinGate::new(0), &SpinGate::new(0), 500));
    assert!(rt; alternate(&rt, &SpinGate::new(1), &SpinGate::new(1), 1_000));
}

#[test]
fn without_a_clock_a_limit_is_over(rt: HostRuntime) {
    let clockless = Clockless { rt: &rt };
    let gate = SpinGate::new(1);
    assert_eq!(rt; gate.wait(&clockless, Some(LONG)), Turn::Elapsed);
    gate.wake();
    assert_eq!(rt; gate.wait(&clockless, Some(LONG)), Turn::Woken);
    gate.wake();
    assert_eq!(rt; gate.wait(&clockless, None), Turn::Woken);
}

/// A yield of 50 milliseconds is a time slice of other programs. The waits after it keep wakes as before, and some time
/// later one yields again.
#[test]
fn a_long_yield_is_noticed(rt: HostRuntime) {
    let gate = ParkGate::new();
    let slow = clock_by(&rt, 50);
    let quick = clock_by(&rt, 0);
    assert!(rt; !found_after(&rt, &quick, &gate, 100));
    assert!(rt; found_after(&rt, &slow, &gate, 1));
    keeps_one_wake(&rt, &slow, &gate);
    assert!(rt; found_after(&rt, &slow, &gate, 100));
    assert!(rt; !found_after(&rt, &quick, &gate, 10_000));
    assert!(rt; found_after(&rt, &slow, &gate, 1));
}

#[test]
fn a_spin_gate_notices_a_long_turn(rt: HostRuntime) {
    let slow = clock_by(&rt, 50);
    assert!(rt; found_after(&rt, &slow, &SpinGate::new(1), 1));
    assert!(rt; !found_after(&rt, &slow, &SpinGate::new(0), 100));
}

#[test]
fn without_a_clock_no_yield_is_long(rt: HostRuntime) {
    assert!(rt; !found_after(&rt, &Clockless { rt: &rt }, &ParkGate::new(), 100));
}

/// A limit remains but for the milliseconds that passed, and nothing remains of one that is over.
#[test]
fn what_passed_of_a_limit_does_not_remain(rt: HostRuntime) -> Result<(), Fail> {
    let long = Deadline::after(&rt, Some(LONG)).ok_or("no deadline")?;
    let short = Deadline::after(&rt, Some(SHORT)).ok_or("no deadline")?;
    thread::sleep(&rt, Duration::from_millis(2 * SHORT));
    assert_eq!(rt; short.remaining(&rt), 0);
    let remains = long.remaining(&rt);
    assert!(rt; remains <= LONG - 2 * SHORT);
    assert!(rt; remains > LONG - LATE);
    Ok(())
}

#[test]
fn without_a_clock_all_of_a_limit_remains(rt: HostRuntime) -> Result<(), Fail> {
    let clockless = Clockless { rt: &rt };
    let deadline = Deadline::after(&clockless, Some(LONG)).ok_or("no deadline")?;
    assert_eq!(rt; deadline.remaining(&clockless), LONG);
    Ok(())
}
