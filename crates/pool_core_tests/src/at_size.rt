//! A pool of as many workers as there may be beside one caller.

use crate::plays::{Ask, Recorded, Told, book_of, counts, plays, sizes};
use pool_core::{Policy, PoolQueue};
use std::process::Abort;

/// How many workers there are.
const WORKERS: u64 = 1_023;

/// Starts all workers, each with the job of its number, which it runs.
fn all_run(rt: &impl Abort, book: &mut Recorded) {
    for worker in 0..WORKERS {
        plays(rt, book, &[(Ask::Execute(worker), Told::Started(worker))]);
    }
    for worker in 0..WORKERS {
        plays(rt, book, &[(Ask::Ready(worker), Told::Run(worker))]);
    }
}

/// They end.
fn all_leave(rt: &impl Abort, book: &mut Recorded) {
    for worker in 0..WORKERS {
        plays(
            rt,
            book,
            &[
                (Ask::Finish(worker), Told::Done),
                (Ask::Leave(worker), Told::Done),
            ],
        );
    }
}

/// Memory is refused only where it is short, however many workers there are.
#[test]
fn a_pool_of_1_023_workers(rt: HostRuntime) {
    let mut book = book_of(
        &rt,
        rt.alloc(),
        sizes(WORKERS, WORKERS),
        PoolQueue::Unbounded,
        Policy::Abort,
        10_000,
    );
    all_run(&rt, &mut book);
    assert_eq!(&rt; counts(&book), (1_023, 1_023, 0, 0, 1_023));
    assert!(&rt; book.copy().is_ok());
    assert_eq!(&rt; book.cut(), Ok(2_046));
    assert!(&rt; book.copy().is_ok());
    all_leave(&rt, &mut book);
    assert_eq!(&rt; counts(&book), (0, 0, 0, 1_023, 1_023));
    assert_eq!(&rt; book.cut(), Ok(4_092));
}
