//! The labels that handles give.

use meet_tasks::{Labelled, QueueHandle, QueueTask, run_queue};
use meet_tickets::Order;

/// Each thread labels three values, and returns their marks.
struct Labelling;

impl QueueTask<Labelled<bool>> for Labelling {
    type Output = [u64; 3];

    fn run<Q: QueueHandle<Labelled<bool>>>(&self, queue: &mut Q) -> [u64; 3] {
        let Labelled { mark, value: _ } = queue.label(true);
        let Labelled { mark: next, value } = queue.label(false);
        let third = queue.label(value).mark;
        [mark, next, third]
    }
}

/// The marks of a seat are its number, and from there on each 65,536th.
#[test]
fn labels_of_two_seats_differ(rt: HostRuntime) {
    let done = run_queue(&rt, rt.alloc(), Order::Fair, 2, &Labelling).expect(&rt, "a task");
    assert_eq!(&rt;
        done.results.as_slice(),
        [[0, 65_536, 131_072], [1, 65_537, 131_073]].as_slice()
    );
}
