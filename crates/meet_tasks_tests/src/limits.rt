//! How long a handle's calls wait that have a limit.

use meet_tasks::{NotReceived, QueueHandle, QueueTask, run_queue};
use meet_tickets::Order;
use std::time::{Clock, Instant};

/// The limit of these calls, in milliseconds.
const LIMIT: u64 = 200;

/// A task whose thread gives and takes where nobody comes.
#[derive(Drop)]
struct Lonely<R> {
    rt: R,
}

/// How many milliseconds a call took that ended by its limit.
fn lasted<R: Clock>(rt: &R, start: Option<Instant>, why: Option<NotReceived>) -> Option<u128> {
    match why? {
        NotReceived::TimedOut => Some(start?.elapsed(rt).ok()?.as_millis()),
        _ => None,
    }
}

impl<R: Clock> QueueTask<u64> for Lonely<R> {
    type Output = (Option<u128>, Option<u128>);

    fn run<Q: QueueHandle<u64>>(&self, queue: &mut Q) -> (Option<u128>, Option<u128>) {
        let start = Instant::now(&self.rt).ok();
        let why = queue.transfer_for(5, LIMIT).err().map(|unsent| unsent.why);
        let giving = lasted(&self.rt, start, why);
        let start = Instant::now(&self.rt).ok();
        let taking = lasted(&self.rt, start, queue.poll_for(LIMIT).err());
        (giving, taking)
    }
}

/// Whether a call took its limit, and not ten seconds.
fn took_its_limit(lasted: Option<u128>) -> bool {
    match lasted {
        Some(time) => time >= 200 && time < 10_000,
        None => false,
    }
}

/// A limit is in milliseconds (`BlockingQueue.offer` and `poll` with a time: waiting up to the specified wait time).
#[test]
fn a_limit_is_in_milliseconds(rt: HostRuntime) {
    let task = Lonely { rt };
    let done = run_queue(&rt, rt.alloc(), Order::Fair, 1, &task).expect(&rt, "a task");
    for (giving, taking) in done.results.as_slice() {
        assert_eq!(&rt; took_its_limit(*giving), true);
        assert_eq!(&rt; took_its_limit(*taking), true);
    }
    let done = run_queue(&rt, rt.alloc(), Order::Transfer, 1, &task).expect(&rt, "a task");
    for (giving, taking) in done.results.as_slice() {
        assert_eq!(&rt; took_its_limit(*giving), true);
        assert_eq!(&rt; took_its_limit(*taking), true);
    }
}
