//! The callers of a pool, each a thread with a handle.

ghost use Rattle.std.specs.Prelude.{◌≡◌, ◌+◌, ◌≤◌, [], IfSome, vec_len};
ghost use Rattle.std.specs.Vec.{vec_capacity};

use crate::at::{At, Parked};
use crate::runs::PoolCaller;
use crate::starting::Starting;
use meet_place::{Back, Seat};
use meet_threads::{Returned, Start};
use pool_core::PoolDeed;
use pool_threads::{Call, PoolLedgers, Work};
use std::sync::Wait;
use std::thread;
use std::thread::{JoinHandle, Threads};
use std::time::Clock;

/// A seat of a pool.
pub(crate) type OurSeat<N> = Seat<PoolDeed<u64>, N>;

/// What one caller does with its seat, after all threads are there.
fn sit<W, C, N, R, V>(
    rt: &R,
    pool: &Parked<W, C, N>,
    caller: &V,
    start: &Start,
    starting: &Starting<W, C, N>,
    seat: OurSeat<N>,
) -> Returned<OurSeat<N>, V::Output>
where
    W: Work,
    C: Call<W> + Drop,
    N: PoolLedgers,
    R: Wait + Clock,
    V: PoolCaller<W, C>,
{
    if !start.begins(rt) {
        return Returned { seat, output: None };
    }
    let mut handle = At::new(rt, pool, starting, seat);
    let output = caller.run(&mut handle);
    starting.leave(rt);
    Returned {
        seat: handle.into_seat(),
        output: Some(output),
    }
}

/// Starts all callers, and the workers that they need, waits until each caller has ended, and returns their threads; None
/// if one couldn't be started, and then none began to work. The empty list has room for them.
pub(crate) fn seated<W, C, N, R, V>(
    rt: &R,
    pool: &Parked<W, C, N>,
    caller: &V,
    start: &Start,
    starting: &Starting<W, C, N>,
    seats: Vec<OurSeat<N>>,
    empty: Vec<JoinHandle<Returned<OurSeat<N>, V::Output>>>,
) -> Option<Vec<JoinHandle<Returned<OurSeat<N>, V::Output>>>>
where
    W: Work + Send + Sync + 'static,
    C: Call<W> + Drop + Send + 'static,
    N: PoolLedgers + Send + Sync + 'static,
    R: Threads + Wait + Clock + Copy + Send + Sync + 'static,
    V: PoolCaller<W, C> + Sync,
    V::Output: Send + Drop,
    requires empty { empty.items ≡ [] }
    requires room { vec_len seats ≤ vec_capacity empty }
    ensures { IfSome result (λ threads. vec_len threads ≡ vec_len seats) }
{
    thread::scope(
        thread::scope_env(),
        rt,
        |scope| -> Option<Vec<JoinHandle<Returned<OurSeat<N>, V::Output>>>>
            requires empty { empty.items ≡ [] }
            requires room { vec_len seats ≤ vec_capacity empty }
            ensures { IfSome result (λ threads. vec_len threads ≡ vec_len seats) }
        {
            let mut threads = empty;
            for seat in seats {
                let Ok(thread) = scope.spawn(move || sit(rt, pool, caller, start, starting, seat))
                else {
                    start.decide(rt, false);
                    return None;
                };
                threads.push_reserved(thread);
            }
            start.decide(rt, true);
            starting.serve(rt, pool);
            Some(threads)
        },
    )
}

/// These seats, to be given back. The empty list has room for them.
pub(crate) fn given_back<N: PoolLedgers>(
    seats: Vec<OurSeat<N>>,
    empty: Vec<Back<PoolDeed<u64>, N>>,
) -> Vec<Back<PoolDeed<u64>, N>>
    requires empty { empty.items ≡ [] }
    requires room { vec_len seats ≤ vec_capacity empty }
    ensures { vec_len result ≡ vec_len seats }
{
    let mut backs = empty;
    for seat in seats {
        backs.push_reserved(Back::Free(seat));
    }
    backs
}
