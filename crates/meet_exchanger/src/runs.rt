//! Threads that share an exchanger which is made for them, each with a handle.

ghost use Rattle.std.specs.Prelude.{◌≡◌, ◌≤◌, [], None, IfSome, IfOk, IfErr, MatchResult, vec_len};
ghost use Rattle.std.specs.Vec.{vec_capacity};
ghost use Rattle.meet_tickets.specs.declared.refusals.Refusal.TheVariants.{Memory};
ghost use Rattle.meet_exchange.specs.Seats.{AreNew, sizes_refusal};
ghost use Rattle.meet_exchange.specs.Closed.{AreOf};
ghost use Rattle.meet_exchanger.specs.Handles.{IsClosed, IsRunWhy};

use crate::at::{At, Placed, Site, give_back, place_all};
use crate::exchanger::Exchanger;
use crate::handles::ExchangerHandle;
use meet_exchange::{Back, Closed, Seat};
use meet_threads::{Finished, Returned, Room, Start, joined};
use meet_tickets::{Marked, Refusal};
use std::alloc::Global;
use std::marker::Brand;
use std::sync::Wait;
use std::thread;
use std::thread::{JoinHandle, Threads};
use std::time::Clock;

/// States what the threads of a task do at their exchanger.
///
/// # Example
/// From `crates/examples/src/exchanger.rt`:
///
///     impl ExchangeTask<u64> for Swap {
///         type Output = Result<u64, Unmet<u64>>;
///
///         fn run<X: ExchangerHandle<u64>>(&self, exchanger: &mut X) -> Self::Output {
///             exchanger.exchange_for(exchanger.number(), 60_000) // milliseconds
pub trait ExchangeTask<T: Marked> {
    /// The result of each thread.
    type Output;

    /// Does the work of the thread with this handle, and returns its result. In Java: the `Runnable` of a thread.
    fn run<X: ExchangerHandle<T>>(&self, exchanger: &mut X) -> Self::Output;
}

/// What one thread does with its seat, after all threads are there.
fn sit<T, N, R, V>(
    rt: &R,
    exchanger: &Exchanger<T>,
    task: &V,
    start: &Start,
    placed: Placed<T, N>,
) -> Returned<Placed<T, N>, V::Output>
where
    T: Marked,
    N: Site,
    R: Wait + Clock,
    V: ExchangeTask<T>,
    requires { exchanger.now ≡ N.site }
{
    if !start.begins(rt) {
        return Returned {
            seat: placed,
            output: None,
        };
    }
    let mut handle = At::new(rt, exchanger, placed);
    let output = task.run(&mut handle);
    Returned {
        seat: handle.into_placed(),
        output: Some(output),
    }
}

/// Starts a thread for each seat, from the last seat of the list to the first, waits until each has ended, and returns
/// their handles; None if one couldn't be started, and then no thread began to work. The empty list has room for them.
fn seated<T, N, R, V>(
    rt: &R,
    exchanger: &Exchanger<T>,
    task: &V,
    start: &Start,
    seats: Vec<Placed<T, N>>,
    empty: Vec<JoinHandle<Returned<Placed<T, N>, V::Output>>>,
) -> Option<Vec<JoinHandle<Returned<Placed<T, N>, V::Output>>>>
where
    T: Marked + Drop + Send,
    N: Site + Send,
    R: Threads + Wait + Clock + Sync,
    V: ExchangeTask<T> + Sync,
    V::Output: Send + Drop,
    requires here { exchanger.now ≡ N.site }
    requires empty { empty.items ≡ [] }
    requires room { vec_len seats ≤ vec_capacity empty }
    ensures { IfSome result (λ threads. vec_len threads ≡ vec_len seats) }
{
    thread::scope(
        thread::scope_env(),
        rt,
        |scope| -> Option<Vec<JoinHandle<Returned<Placed<T, N>, V::Output>>>>
            requires here { exchanger.now ≡ N.site }
            requires empty { empty.items ≡ [] }
            requires room { vec_len seats ≤ vec_capacity empty }
            ensures { IfSome result (λ threads. vec_len threads ≡ vec_len seats) }
        {
            let mut seats = seats;
            let mut threads = empty;
            while let Some(placed) = seats.pop() {
                let job = move || -> Returned<Placed<T, N>, V::Output>
                    requires { exchanger.now ≡ N.site }
                { sit(rt, exchanger, task, start, placed) };
                let Ok(thread) = scope.spawn(job) else {
                    start.decide(rt, false);
                    return None;
                };
                threads.push_reserved(thread);
            }
            start.decide(rt, true);
            Some(threads)
        },
    )
}

/// Ends a task's exchanger with all its seats.
fn closed<T: Marked + Drop>(
    alloc: Global,
    exchanger: Exchanger<T>,
    seats: Vec<Back<T>>,
) -> Result<Closed<T>, Refusal>
    requires place { AreOf exchanger.id seats.items }
    requires all { vec_len seats ≡ exchanger.seats }
    requires start { exchanger.start ≡ 0 }
    ensures { MatchResult result (IsClosed T.mark_of exchanger.seats) (λ why. why ≡ Memory) }
{
    match exchanger.close(alloc, seats) {
        Ok(closed) => Ok(closed),
        Err(fault) => Err(fault.into_why()),
    }
}

/// A task at this exchanger.
fn at_site<T, N, R, V>(
    rt: &R,
    alloc: Global,
    exchanger: Exchanger<T>,
    list: Vec<Seat<T>>,
    task: &V,
) -> Result<Finished<Closed<T>, V::Output>, Refusal>
where
    T: Marked + Drop + Send,
    N: Site + Send,
    R: Threads + Wait + Clock + Sync,
    V: ExchangeTask<T> + Sync,
    V::Output: Send + Drop,
    requires here { exchanger ≡ N.site }
    requires new { AreNew N.site.id 0 list.items }
    requires all { vec_len list ≡ N.site.seats }
    requires start { N.site.start ≡ 0 }
    requires fits { sizes_refusal 1 N.site.seats ≡ None }
    ensures results { IfOk result (λ done. vec_len done.results ≡ N.site.seats) }
    ensures history { IfOk result (λ done. MatchResult done.log (IsClosed T.mark_of N.site.seats)
        (λ why. why ≡ Memory)) }
    ensures why { IfErr result (IsRunWhy N.site.seats) }
{
    let count = list.len();
    let seats: Vec<Placed<T, N>> = Vec::with_capacity(alloc, count).map_err(|_| Refusal::Memory)?;
    let backs: Vec<Back<T>> = Vec::with_capacity(alloc, count).map_err(|_| Refusal::Memory)?;
    let Room {
        threads,
        seats: empty,
        results,
    } = Room::new(alloc, count)?;
    let start = Start::new();
    let seats = place_all(list, seats);
    let Some(threads) = seated(rt, &exchanger, task, &start, seats, threads) else {
        return Err(Refusal::NoThread);
    };
    let Some((ended, results)) = joined(rt, threads, empty, results) else {
        return Err(Refusal::NoThread);
    };
    Ok(Finished {
        results,
        log: closed(alloc, exchanger, give_back(ended, backs)),
    })
}

/// Runs `seats` threads at a new exchanger, each with a handle, and closes the exchanger. It waits until all threads
/// have ended, for ever if one never ends. What the exchanger leaves is a history for each slot, and for each seat its
/// part in it.
///
/// # Errors
/// - BadSizes, exactly if `seats` is 0 or more than 65,536.
/// - Memory, if an allocation fails before the first thread is started.
/// - NoThread, if a thread can't be started; then no thread has begun to work.
///
/// # Example
/// From `crates/examples/src/exchanger.rt`:
///
///     let done = run_exchanger(rt, alloc, 2, &Swap)?;
///     Ok(println!(rt; "{:?}", done.results)?)
///
/// Java: `new Exchanger<>()` (JDK 21), the threads, and `join` of each.
pub fn run_exchanger<T, R, V>(
    rt: &R,
    alloc: Global,
    seats: u64,
    task: &V,
) -> Result<Finished<Closed<T>, V::Output>, Refusal>
where
    T: Marked + Drop + Send,
    R: Threads + Wait + Clock + Sync,
    V: ExchangeTask<T> + Sync,
    V::Output: Send + Drop,
    ensures results { IfOk result (λ done. vec_len done.results ≡ seats) }
    ensures history { IfOk result (λ done. MatchResult done.log (IsClosed T.mark_of seats) (λ why. why ≡ Memory)) }
    ensures sizes { IfOk result (λ _. sizes_refusal 1 seats ≡ None) }
    ensures why { IfErr result (IsRunWhy seats) }
{
    match Exchanger::new(alloc, seats) {
        Ok((exchanger, list)) => at_site::<T, Brand, R, V>(rt, alloc, exchanger, list, task),
        Err(why) => Err(why),
    }
}
