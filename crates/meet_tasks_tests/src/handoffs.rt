//! The producers and the consumers of a handoff: which thread does which work, and what each returns.

use meet_tasks::{Handoff, NotReceived, QueueHandle, Unsent, run_handoff};
use meet_tickets::{Order, Refusal};

/// Each thread returns its number.
struct Numbers;

impl Handoff<u64> for Numbers {
    type Produced = u64;

    type Consumed = u64;

    fn produce<Q: QueueHandle<u64>>(&self, queue: &mut Q) -> u64 {
        queue.number()
    }

    fn consume<Q: QueueHandle<u64>>(&self, queue: &mut Q) -> u64 {
        queue.number()
    }
}

#[test]
fn producers_have_the_first_seats(rt: HostRuntime) {
    for (order, producers, consumers) in [
        (Order::Fair, 2u64, 3u64),
        (Order::Unfair, 3, 0),
        (Order::Transfer, 0, 1),
    ] {
        let done = run_handoff(&rt, rt.alloc(), order, producers, consumers, &Numbers).expect(
            &rt,
            "a handoff",
        );
        assert_eq!(&rt; done.produced.len() as u64, producers);
        assert_eq!(&rt; done.consumed.len() as u64, consumers);
        for (own, number) in (0..producers).zip(done.produced) {
            assert_eq!(&rt; number, own);
        }
        for (own, number) in (0..consumers).zip(done.consumed) {
            assert_eq!(&rt; number, producers.saturating_add(own));
        }
    }
}

#[test]
fn no_handoff_of_no_threads_or_too_many(rt: HostRuntime) {
    for (producers, consumers) in [(0u64, 0u64), (65_536, 1), (1, 65_536), (0, 1 << 63)] {
        let refused = run_handoff(&rt, rt.alloc(), Order::Fair, producers, consumers, &Numbers);
        assert_eq!(&rt; refused.err(), Some(Refusal::BadSizes));
    }
}

/// A producer offers for a millisecond, and a consumer polls as long.
struct Alone;

impl Handoff<u64> for Alone {
    type Produced = Result<(), Unsent<u64>>;

    type Consumed = Result<u64, NotReceived>;

    fn produce<Q: QueueHandle<u64>>(&self, queue: &mut Q) -> Self::Produced {
        queue.offer_for(7, 1)
    }

    fn consume<Q: QueueHandle<u64>>(&self, queue: &mut Q) -> Self::Consumed {
        queue.poll_for(1)
    }
}

/// `SynchronousQueue.offer` with a timeout is false, and `poll` null, "if the specified waiting time elapses before" a
/// counterpart appears.
#[test]
fn whoever_is_alone_times_out(rt: HostRuntime) {
    let done = run_handoff(&rt, rt.alloc(), Order::Fair, 1, 0, &Alone).expect(&rt, "a handoff");
    let unsent = Unsent {
        why: NotReceived::TimedOut,
        item: 7,
    };
    assert_eq!(&rt; done.produced.as_slice(), [Err(unsent)].as_slice());
    let done = run_handoff(&rt, rt.alloc(), Order::Unfair, 0, 1, &Alone).expect(&rt, "a handoff");
    assert_eq!(&rt;
        done.consumed.as_slice(),
        [Err(NotReceived::TimedOut)].as_slice()
    );
}
