//! The threads of a demo run. Each takes a seat out of its slot, and puts it back there at its end: so a seat is
//! returned whatever happens, also if its thread can't be started.

ghost use Rattle.std.specs.Prelude.{◌≡◌, false, Some, None};

use crate::course::{Course, Passed};
use crate::progress::Progress;
use meet_cells::Gate;
use meet_sync::{Ledgers, Request, Seat};
use meet_tickets::{Deed, Refusal};
use std::mem::ManuallyDrop;
use std::sync::{Mutex, Wait};
use std::thread::Threads;
use std::time::Clock;
use std::{mem, thread};

/// What a thread does in a demo run.
#[derive(Clone, Copy)]
pub enum Task {
    /// Gives the items from 1 up to this many, one after another.
    Give(u64),
    /// Takes this many items.
    Take(u64),
}

/// What a thread counted.
#[derive(Clone, Copy, PartialEq, Eq, Debug)]
pub struct Count {
    /// The items that it took.
    pub items: u64,
    /// Their sum.
    pub sum: u64,
    /// Why it ended early, if a call failed.
    pub why: Option<Refusal>,
}

/// The count of a thread that took nothing.
pub const NOTHING: Count = Count {
    items: 0,
    sum: 0,
    why: None,
};

/// The slot of a thread.
#[derive(Drop)]
pub struct Slot<N: Ledgers> {
    /// Its seat, before the thread starts and after it ended.
    pub seat: Option<Seat<Deed, N>>,
    /// What it counted.
    pub count: Count,
}

impl Count {
    /// The count after a call that ended so; and whether the thread goes on.
    fn after(self, passed: Passed) -> (Count, bool)
        ensures refused { (why : Refusal) → passed ≡ Passed.Refused why → result.0.why ≡ Some why }
        ensures ends { (why : Refusal) → passed ≡ Passed.Refused why → result.1 ≡ false }
    {
        match passed {
            Passed::Gave => (self, true),
            Passed::Got(item) => (
                Count {
                    items: self.items.saturating_add(1),
                    sum: self.sum.saturating_add(item),
                    why: None,
                },
                true,
            ),
            Passed::Stopped => (self, false),
            Passed::Refused(why) => (
                Count {
                    why: Some(why),
                    ..self
                },
                false,
            ),
        }
    }

    /// Returns both counts together, with the first reason.
    pub fn with(self, other: Count) -> Count
        ensures first { (why : Refusal) → self.why ≡ Some why → result.why ≡ Some why }
        ensures second { self.why ≡ None → result.why ≡ other.why }
    {
        Count {
            items: self.items.saturating_add(other.items),
            sum: self.sum.saturating_add(other.sum),
            why: self.why.or(other.why),
        }
    }
}

impl Task {
    /// How many calls it makes.
    fn calls(self) -> u64 {
        match self {
            Task::Give(calls) => calls,
            Task::Take(calls) => calls,
        }
    }

    /// Its call of this number, from 1.
    fn call(self, number: u64) -> Request<u64> {
        match self {
            Task::Give(_) => Request::Give(number),
            Task::Take(_) => Request::Take,
        }
    }
}

/// Does a task with a seat, which compacts the log after each call, until it is done, or all are to stop, or a call
/// fails; then all are stopped.
fn perform<G: Gate, N: Ledgers, R: Wait + Clock>(
    rt: &R,
    course: &Course<G, N>,
    first: Seat<Deed, N>,
    task: Task,
) -> (Seat<Deed, N>, Count) {
    let mut seat = first;
    let mut count = NOTHING;
    for number in 1..=task.calls() {
        let (after, passed) = course.pass(rt, seat, task.call(number));
        seat = after;
        if let Passed::Got(_) = passed {
            course.count_taken();
        }
        let (counted, goes_on) = count.after(passed);
        let (after, why) = course.tend(rt, seat);
        seat = after;
        count = counted.with(Count { why, ..NOTHING });
        if !goes_on || why.is_some() {
            course.stop();
            break;
        }
    }
    (seat, count)
}

/// Does a task with the seat of this slot.
fn work<G: Gate, N: Ledgers, R: Wait + Clock>(
    rt: &R,
    course: &Course<G, N>,
    slot: &Mutex<Slot<N>>,
    task: Task,
) {
    let taken = slot.lock(rt).seat.take();
    if let Some(seat) = taken {
        let (seat, count) = perform(rt, course, seat, task);
        let mut slot = slot.lock(rt);
        slot.count = count;
        let before = mem::replace(&mut slot.seat, Some(seat));
        let _empty = ManuallyDrop::new(before);
    }
    course.end();
}

/// Runs all threads at once: each of the first half of the slots gives `each` items, each of the others takes as many.
/// Progress is reported. Returns whether every thread could be started; if one couldn't, all are stopped.
pub fn run_all<G, N, R, P>(
    rt: &R,
    course: &Course<G, N>,
    slots: &[Mutex<Slot<N>>],
    each: u64,
    progress: &P,
) -> bool
where
    G: Gate + Send + Sync,
    P: Progress,
    N: Ledgers + Send + Sync,
    R: Threads + Wait + Clock + Sync,
{
    let givers = slots.len() / 2;
    thread::scope(thread::scope_env(), rt, |scope| {
        let mut all_started = true;
        for (number, slot) in slots.iter().enumerate() {
            let task = if number < givers {
                Task::Give(each)
            } else {
                Task::Take(each)
            };
            course.begin();
            if scope.spawn(move || work(rt, course, slot, task)).is_err() {
                course.end();
                course.stop();
                all_started = false;
                break;
            }
        }
        course.end();
        course.watch(rt, progress, each.saturating_mul(givers as u64));
        all_started
    })
}
