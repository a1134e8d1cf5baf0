//! The pools that Java's `Executors` makes, with the queue that each has there.

use crate::plays::{Ask, Told, plays_directly};
use pool_core::{Policy, PoolQueue, Sizes};
use std::test::*;

/// Two jobs start two workers, further ones are kept, and no worker ends for want of a job.
const FIXED: [(Ask, Told); 10] = [
    (Ask::Execute(1), Told::Started(0)),
    (Ask::Execute(2), Told::Started(1)),
    (Ask::Execute(3), Told::Kept),
    (Ask::Ready(1), Told::Run(2)),
    (Ask::Ready(0), Told::Run(1)),
    (Ask::Finish(0), Told::Done),
    (Ask::Ready(0), Told::Run(3)),
    (Ask::Finish(1), Told::Done),
    (Ask::Ready(1), Told::Waits),
    (Ask::IdleEnd(1), Told::Stay),
];

/// The only worker runs the jobs in the order in which they came, and stays.
const SINGLE: [(Ask, Told); 11] = [
    (Ask::Execute(1), Told::Started(0)),
    (Ask::Execute(2), Told::Kept),
    (Ask::Execute(3), Told::Kept),
    (Ask::Ready(0), Told::Run(1)),
    (Ask::Finish(0), Told::Done),
    (Ask::Ready(0), Told::Run(2)),
    (Ask::Finish(0), Told::Done),
    (Ask::Ready(0), Told::Run(3)),
    (Ask::Finish(0), Told::Done),
    (Ask::Ready(0), Told::Waits),
    (Ask::IdleEnd(0), Told::Stay),
];

#[test]
fn a_fixed_pool(rt: HostRuntime) {
    let queue = PoolQueue::Unbounded;
    let sizes = Sizes::fixed(1, 2);
    plays_directly(&rt, rt.alloc(), sizes, queue, Policy::Abort, &FIXED);
}

#[test]
fn a_single_worker(rt: HostRuntime) {
    let queue = PoolQueue::Unbounded;
    let sizes = Sizes::single(1);
    plays_directly(&rt, rt.alloc(), sizes, queue, Policy::Abort, &SINGLE);
}
