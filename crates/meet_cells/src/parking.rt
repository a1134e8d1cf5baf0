//! A gate at which a thread parks.

ghost use Rattle.std.specs.Prelude.{◌≡◌, None, IfNone, IfOk, IfErr, vec_len};
ghost use Rattle.meet_cells.specs.declared.gates.Turn.TheVariants.{Woken};
ghost use Rattle.meet_tickets.specs.declared.refusals.Refusal.TheVariants.{Memory};

use crate::deadline::Deadline;
use crate::gates::{Gate, Turn};
use meet_tickets::Refusal;
use std::alloc::Global;
use std::sync::Wait;
use std::sync::atomic::{AtomicBool, AtomicU64, Ordering};
use std::thread;
use std::thread::Parker;
use std::time::{Clock, Duration, Instant};

/// How often a thread looks for a wake before it parks, and lets another thread run after each look. Who wakes it is
/// often about to: a look and a yield take some 250 nanoseconds, to park and be woken takes 2,000 to 5,000. With one
/// pair of threads at a fair queue, and four processors, an item took 6,000 nanoseconds with one look and 1,000 with
/// 16, and more looks gained nothing.
const TURNS: u64 = 16;

/// How many microseconds a yield may take. One that takes longer gave the processor to another program, for a time slice
/// of milliseconds, and so will the next one: then it is quicker to park. Beside seven threads of its own program on the
/// same processor a yield takes some 10.
const LONG_YIELD: u128 = 500;

/// How many waits park at once after a long yield, before one yields again: they take some 5 microseconds each. With
/// 256, 16 pairs of threads on four processors took a fifth more time, since a thread of their own now and then runs for
/// as long as a time slice.
const PARKED_WAITS: u64 = 64;

/// A gate at which one thread at a time parks, until it is woken. Before it parks it lets other threads run some times,
/// as by `Thread.yield`: often one of them is the one that wakes it, and to park and be woken costs more than that. If
/// that takes long, since other programs want the processor too, this wait and the next ones park at once. One wake is
/// kept for the next wait, and a spurious wakeup doesn't end one. A limit is in milliseconds of the machine's clock. If
/// there is no clock, a wait with a limit returns Elapsed at once, unless a wake came by then.
///
/// Java: `LockSupport.park`, `parkNanos`, `unpark`.
#[derive(Drop)]
pub struct ParkGate {
    parker: Parker,
    woken: AtomicBool,
    /// Whether the thread parks, or is about to: then a wake has to unpark it.
    parks: AtomicBool,
    /// How many of the next waits park at once.
    parked_waits: AtomicU64,
}

/// Lets another thread run: how long that took; none if there is no clock.
fn time_yield<R: Clock>(rt: &R) -> Option<Duration> {
    let start = Instant::now(rt).ok();
    thread::yield_now();
    start?.elapsed(rt).ok()
}

/// Lets another thread run: whether that took long.
fn yields_long<R: Clock>(rt: &R) -> bool {
    match time_yield(rt) {
        None => false,
        Some(took) => took.as_micros() > LONG_YIELD,
    }
}

impl ParkGate {
    /// Creates a gate without a wake.
    pub fn new() -> ParkGate {
        ParkGate {
            parker: Parker::new(),
            woken: AtomicBool::new(false),
            parks: AtomicBool::new(false),
            parked_waits: AtomicU64::new(0),
        }
    }

    /// Creates `count` gates without a wake, one for each seat of a place.
    ///
    /// # Errors
    /// - Memory, if an allocation fails.
    ///
    /// # Example
    /// From `crates/examples/src/jobs.rt`:
    ///
    ///     let gates = ParkGate::many(alloc, 2)?; // one for each worker
    pub fn many(alloc: Global, count: u64) -> Result<Vec<ParkGate>, Refusal>
        ensures count { IfOk result (λ gates. vec_len gates ≡ count) }
        ensures memory { IfErr result (λ why. why ≡ Memory) }
    {
        let mut gates = Vec::new(alloc);
        for _ in 0..count {
            gates.push(ParkGate::new()).map_err(|_| Refusal::Memory)?;
        }
        Ok(gates)
    }

    /// Takes the wake that is kept: whether there was one.
    fn take_wake(&self) -> bool {
        self.woken.load(Ordering::SeqCst) && self.woken.swap(false, Ordering::SeqCst)
    }

    /// Whether a wait is to park at once, since a yield took long some waits ago. It counts the wait.
    fn parks_at_once(&self) -> bool {
        let parked = self.parked_waits.load(Ordering::SeqCst);
        if parked > 0 {
            self.parked_waits.store(parked - 1, Ordering::SeqCst);
        }
        parked > 0
    }

    /// Looks for a wake `turns` times, and lets another thread run after each, until that takes long. Returns whether a
    /// wake came.
    fn spin<R: Clock>(&self, rt: &R, turns: u64) -> bool {
        if self.parks_at_once() {
            return false;
        }
        for _ in 0..turns {
            if self.take_wake() {
                return true;
            }
            if yields_long(rt) {
                self.parked_waits.store(PARKED_WAITS, Ordering::SeqCst);
                return false;
            }
        }
        false
    }

    /// Announces that the thread parks, unless a wake is kept, which it takes. Returns whether the thread is to park.
    ///
    /// A thread that wakes the gate writes the wake, and then reads whether one parks; the thread that waits writes that
    /// it parks, and then reads whether there is a wake. So one of both sees what the other wrote.
    fn is_to_park(&self) -> bool {
        self.parks.store(true, Ordering::SeqCst);
        if self.take_wake() {
            self.parks.store(false, Ordering::SeqCst);
            return false;
        }
        true
    }

    /// Parks until somebody wakes the gate.
    fn park<R: Wait>(&self, rt: &R) {
        for _ in rt.forever() {
            if !self.is_to_park() {
                return;
            }
            self.parker.park(rt);
        }
    }

    /// Parks until somebody wakes the gate, or until the time is up.
    fn park_until<R: Wait + Clock>(&self, rt: &R, deadline: Deadline) -> Turn {
        for _ in rt.forever() {
            if !self.is_to_park() {
                return Turn::Woken;
            }
            let Some(rest) = deadline.rest(rt) else {
                self.parks.store(false, Ordering::SeqCst);
                return Turn::Elapsed;
            };
            self.parker.park_timeout(rt, rest);
        }
        unreachable!()
    }

    /// Spins `turns` turns, fewer if a yield takes long, and then parks until another thread wakes the gate, or until the
    /// time is up if there is a limit.
    pub(crate) fn spin_and_park<R: Wait + Clock>(
        &self,
        rt: &R,
        turns: u64,
        limit: Option<u64>,
    ) -> Turn
        ensures { IfNone limit (result ≡ Woken) }
    {
        let deadline = Deadline::after(rt, limit);
        let woken = self.spin(rt, turns);
        match deadline {
            _ if woken => Turn::Woken,
            None => {
                self.park(rt);
                Turn::Woken
            }
            Some(deadline) => self.park_until(rt, deadline),
        }
    }
}

impl Gate for ParkGate {
    /// Parks until another thread wakes the gate, or until `limit` milliseconds passed. Without a limit only a wake
    /// ends it.
    fn wait<R: Wait + Clock>(&self, rt: &R, limit: Option<u64>) -> Turn
        ensures { IfNone limit (result ≡ Woken) }
    {
        self.spin_and_park(rt, TURNS, limit)
    }

    // A thread that only yields is often about to look, so the gate's cache line isn't written twice for it.
    fn wake(&self) {
        self.woken.store(true, Ordering::SeqCst);
        if self.parks.load(Ordering::SeqCst) {
            self.parker.unpark();
        }
    }

    /// Returns true if a yield took long, and the next wait parks at once therefore.
    fn is_oversubscribed(&self) -> bool {
        self.parked_waits.load(Ordering::SeqCst) > 0
    }
}
