//! A pool that is called directly, without a book: each of its calls.

use crate::plays::{Ask, Told, plays_directly, sizes};
use pool_core::{Policy, PoolQueue};
use std::test::*;

/// A start fails, and the next job starts the worker anew; a job is kept, one is handed over, and the last comes back.
const CALLS: [(Ask, Told); 18] = [
    (Ask::Execute(1), Told::Started(0)),
    (Ask::StartFailed(0), Told::Back(1, 1)),
    (Ask::Execute(2), Told::Started(0)),
    (Ask::Ready(0), Told::Run(2)),
    (Ask::Execute(3), Told::Kept),
    (Ask::Finish(0), Told::Done),
    (Ask::Ready(0), Told::Run(3)),
    (Ask::Finish(0), Told::Done),
    (Ask::Ready(0), Told::Waits),
    (Ask::Follow(0), Told::NotYet),
    (Ask::Execute(4), Told::Handed(0)),
    (Ask::IdleEnd(0), Told::Late),
    (Ask::Follow(0), Told::Run(4)),
    (Ask::Execute(5), Told::Kept),
    (Ask::ShutDown, Told::Done),
    (Ask::ShutDownNow, Told::Back(1, 5)),
    (Ask::Finish(0), Told::Done),
    (Ask::Leave(0), Told::Done),
];

#[test]
fn without_a_book(rt: HostRuntime) {
    let queue = PoolQueue::Unbounded;
    plays_directly(&rt, rt.alloc(), sizes(1, 1), queue, Policy::Abort, &CALLS);
}
