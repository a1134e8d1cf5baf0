//! The threads at a queue, each with a handle.

ghost use Rattle.std.specs.Prelude.{◌≡◌, ◌≤◌, [], IfSome, vec_len};
ghost use Rattle.std.specs.Vec.{vec_capacity};
ghost use Rattle.meet_tickets.specs.Limits.{most_records};
ghost use Rattle.meet_chosen.specs.Chosen.{order_of};

use crate::at::At;
use crate::ledgers::QueueLedgers;
use crate::tasks::QueueTask;
use meet_cells::ParkGate;
use meet_chosen::ChosenQueue;
use meet_sync::{Back, Seat};
use meet_threads::{Returned, Start};
use meet_tickets::{Deed, Marked};
use std::alloc::Global;
use std::sync::Wait;
use std::thread;
use std::thread::{JoinHandle, Threads};
use std::time::Clock;

/// A seat of a queue.
pub(crate) type OurSeat<N> = Seat<Deed, N>;

/// What one thread does with its seat, after all threads are there.
fn sit<T, N, R, V>(
    rt: &R,
    alloc: Global,
    queue: &ChosenQueue<T, ParkGate, N>,
    task: &V,
    start: &Start,
    seat: OurSeat<N>,
) -> Returned<OurSeat<N>, V::Output>
where
    T: Marked,
    N: QueueLedgers,
    R: Wait + Clock,
    V: QueueTask<T>,
    requires order { order_of queue.now ≡ N.order }
    requires cap { N.cap ≡ most_records }
{
    if !start.begins(rt) {
        return Returned { seat, output: None };
    }
    let mut handle = At::new(rt, alloc, queue, seat);
    let output = task.run(&mut handle);
    Returned {
        seat: handle.into_seat(),
        output: Some(output),
    }
}

/// Starts a thread for each seat, waits until each has ended, and returns their handles; None if one couldn't be
/// started, and then no thread began to work. The empty list has room for them.
pub(crate) fn seated<T, N, R, V>(
    rt: &R,
    alloc: Global,
    queue: &ChosenQueue<T, ParkGate, N>,
    task: &V,
    start: &Start,
    seats: Vec<OurSeat<N>>,
    empty: Vec<JoinHandle<Returned<OurSeat<N>, V::Output>>>,
) -> Option<Vec<JoinHandle<Returned<OurSeat<N>, V::Output>>>>
where
    T: Marked + Send,
    N: QueueLedgers + Send + Sync,
    R: Threads + Wait + Clock + Sync,
    V: QueueTask<T> + Sync,
    V::Output: Send + Drop,
    requires order { order_of queue.now ≡ N.order }
    requires cap { N.cap ≡ most_records }
    requires empty { empty.items ≡ [] }
    requires room { vec_len seats ≤ vec_capacity empty }
    ensures { IfSome result (λ threads. vec_len threads ≡ vec_len seats) }
{
    thread::scope(
        thread::scope_env(),
        rt,
        |scope| -> Option<Vec<JoinHandle<Returned<OurSeat<N>, V::Output>>>>
            requires order { order_of queue.now ≡ N.order }
            requires cap { N.cap ≡ most_records }
            requires empty { empty.items ≡ [] }
            requires room { vec_len seats ≤ vec_capacity empty }
            ensures { IfSome result (λ threads. vec_len threads ≡ vec_len seats) }
        {
            let mut threads = empty;
            for seat in seats {
                let job = move || -> Returned<OurSeat<N>, V::Output>
                    requires order { order_of queue.now ≡ N.order }
                    requires cap { N.cap ≡ most_records }
                { sit(rt, alloc, queue, task, start, seat) };
                let Ok(thread) = scope.spawn(job) else {
                    start.decide(rt, false);
                    return None;
                };
                threads.push_reserved(thread);
            }
            start.decide(rt, true);
            Some(threads)
        },
    )
}

/// These seats, to be given back. The empty list has room for them.
pub(crate) fn given_back<N: QueueLedgers>(
    seats: Vec<OurSeat<N>>,
    empty: Vec<Back<Deed, N>>,
) -> Vec<Back<Deed, N>>
    requires empty { empty.items ≡ [] }
    requires room { vec_len seats ≤ vec_capacity empty }
    ensures { vec_len result ≡ vec_len seats }
{
    let mut backs = empty;
    for seat in seats {
        backs.push_reserved(Back::Free(seat));
    }
    backs
}
