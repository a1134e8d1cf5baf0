//! Shutting a pool down, and its end.

ghost use Rattle.std.specs.Prelude.{◌≡◌, ◌+◌, ◌<◌, ◌≤◌, ◌^◌, ◌++◌, [], ◌∷◌, ℕ, length, map, IfOk, IfErr, vec_len, List};
ghost use Rattle.std.specs.Prelude.{IsSome, Some, is_some, count_by, AllPairs, if◌then◌else◌, ◌&&◌, ◌==◌};
ghost use Rattle.std.specs.Arc.{arc_value};
ghost use Rattle.std.specs.Vec.{vec_capacity};
ghost use Rattle.std.specs.VecDeque.{deque_len};
ghost use Rattle.meet_book.specs.Listed.{AreListed};
ghost use Rattle.meet_place.specs.Backs.{list_of, AreOrdered, shares_in, folded_in};
ghost use Rattle.meet_place.specs.Seats.{Adds, SameSeat};
ghost use Rattle.meet_place.specs.declared.seats.Back.{Back};
ghost use Rattle.pool_core.specs.Bases.{LeadsTo};
ghost use Rattle.pool_core.specs.Histories.{no_base};
ghost use Rattle.pool_core.specs.Moves.{job_in};
ghost use Rattle.pool_core.specs.Pools.{Pool as CorePool, kept_tasks, working};
ghost use Rattle.pool_core.specs.Calls.{is_running};
ghost use Rattle.meet_tickets.specs.Meeting.{kept_count};
ghost use Rattle.pool_threads.specs.Told.{IsShutWhy};
ghost use Rattle.pool_core.specs.Shown.{Shown};
ghost use Rattle.pool_core.specs.declared.deeds.PoolDeed.{PoolDeed as Told};
ghost use Rattle.pool_core.specs.declared.deeds.PoolDeed.TheVariants.{ShutDown, ShutDownNow};
ghost use Rattle.pool_threads.specs.Faults.{FaultFits};
ghost use Rattle.pool_threads.specs.Seated.{AddsWorthy};
ghost use Rattle.pool_core.specs.declared.stages.Task.{Task};
ghost use Rattle.pool_threads.specs.Mirrored.{absent, tag_in, told_task};

use crate::home::Home;
use crate::jobs::{Job, Work};
use crate::ledgers::PoolLedgers;
use crate::pool::Pool;
use crate::refusals::{PoolFault, SeatRefused};
use crate::rooms::EndRoom;
use crate::shared::PoolShared;
use crate::worth::WorkerSeat;
use crossbeam_utils::CachePadded;
use meet_book::Receipt;
use meet_cells::Gate;
use meet_place::{Back, Ledgers, Seat, Settled, Unsettled, hold, settle};
use meet_tickets::{Record, Refusal, Ticket};
use pool_core::{Counters, PoolBase, PoolDeed, Task};
use std::alloc::Global;
use std::collections::VecDeque;
use std::sync::{Arc, Mutex, Wait};
use std::thread;

/// The final log of a closed pool.
#[derive(Debug, Drop)]
pub struct PoolChronicle<C> {
    /// The snapshot of the compacted records.
    pub base: PoolBase,
    /// The records since, in order.
    pub records: Vec<Record<PoolDeed<u64>>>,
    /// The receipts of each seat, in the order of their numbers.
    pub lists: Vec<Vec<Receipt<PoolDeed<u64>>>>,
    /// The buffered jobs with their tickets, in order of arrival.
    pub left: Vec<(Ticket, Job<C>)>,
}

/// How many seats lie here.
fn seats_in<S>(seats: &[Option<S>]) -> usize
    ensures { result ≡ count_by is_some seats.now }
{
    seats.iter().filter(|slot| slot.is_some()).count()
}

impl<W: Work, C: Drop, N: PoolLedgers> PoolShared<W, C, N> {
    /// How many seats of workers lie here: those of the workers that aren't there.
    fn seats_here(&self) -> usize
        ensures { result ≡ absent self.now.object.pool }
    {
        seats_in(self.seats.as_slice())
    }

    /// Returns what the core counts.
    fn counters(&self) -> Counters
        ensures { result ≡ record {
          workers = working self.now.object.pool;
          running = count_by is_running self.now.object.pool.workers;
          kept = kept_count self.now.object.pool.line;
          done = self.now.object.pool.done;
          largest = self.now.object.pool.largest;
        } }
    {
        self.probe().counters()
    }

    /// Whether the pool is shut down and has no worker.
    fn has_ended(&self) -> bool
        ensures { result ≡ self.now.object.pool.shut && (working self.now.object.pool == 0) }
    {
        let core = self.probe();
        core.is_shut() && core.workers() == 0
    }
}

/// Puts the seat of a worker behind others, if it is here. There is room for it.
fn take_one<W: Work, N: Ledgers>(
    slot: Option<WorkerSeat<W, N>>,
    backs: &mut Vec<Back<PoolDeed<u64>, N>>,
)
    requires room { vec_len backs.old + (if is_some slot then 1 else 0) ≤ vec_capacity backs.old }
    ensures adds { AddsWorthy W.worth backs.old.items backs.new.items }
    ensures count { vec_len backs.new ≡ vec_len backs.old + (if is_some slot then 1 else 0) }
    ensures capacity { vec_capacity backs.new ≡ vec_capacity backs.old }
{
    if let Some(seat) = slot {
        backs.push_reserved(Back::Free(seat.into_seat()));
    }
}

/// Puts the seats of workers that are here behind others. There is room for them.
fn take_seats<W: Work, N: Ledgers>(
    workers: Vec<Option<WorkerSeat<W, N>>>,
    backs: &mut Vec<Back<PoolDeed<u64>, N>>,
)
    requires room { vec_len backs.old + count_by is_some workers.items ≤ vec_capacity backs.old }
    ensures adds { AddsWorthy W.worth backs.old.items backs.new.items }
    ensures count { vec_len backs.new ≡ vec_len backs.old + count_by is_some workers.items }
{
    for slot in workers {
        take_one(slot, backs);
    }
}

/// Puts a job behind others, with the ticket of its task. There is room for it.
fn add_pair<C: Drop>(task: Option<Task<u64>>, job: Job<C>, left: &mut Vec<(Ticket, Job<C>)>)
    requires some { IsSome task }
    requires room { vec_len left.old < vec_capacity left.old }
    ensures items { (t : Task ℕ) → task ≡ Some t → left.new.items ≡ left.old.items ++ (t.ticket, job) ∷ [] }
    ensures some { IsSome task }
    ensures len { vec_len left.new ≡ vec_len left.old + 1 }
    ensures capacity { vec_capacity left.new ≡ vec_capacity left.old }
{
    left.push_reserved((task.unwrap().ticket, job));
}

/// The kept jobs with their tickets, in their order; the tasks begin with theirs. The empty list has room for them.
fn with_tickets<C: Drop>(
    mut kept: VecDeque<Job<C>>,
    tasks: Vec<Task<u64>>,
    empty: Vec<(Ticket, Job<C>)>,
) -> Vec<(Ticket, Job<C>)>
    requires empty { empty.items ≡ [] }
    requires room { deque_len kept ≤ vec_capacity empty }
    requires tasks { (all more : List (Task ℕ)) × (tasks.items ≡ all ++ more)
        × (map tag_in kept.items ≡ map job_in all) }
    ensures { (all more : List (Task ℕ)) → tasks.items ≡ all ++ more → map tag_in kept.items ≡ map job_in all
        → map told_task result.items ≡ all }
{
    let mut left = empty;
    let mut tasks = tasks.into_iter();
    while let Some(job) = kept.pop_front() {
        add_pair(tasks.next(), job, &mut left);
    }
    left
}

/// Waits until nobody else has this, and takes it.
fn alone<T, R: Wait>(rt: &R, first: Arc<T, Global>) -> T
    ensures { result ≡ arc_value first }
{
    let mut shared = first;
    for _ in rt.forever() {
        match Arc::try_unwrap(shared) {
            Ok(value) => return value,
            Err(again) => shared = again,
        }
        thread::yield_now();
    }
    unreachable!() // it loops for ever
}

/// Puts this where others can have it too, once there is memory for it.
fn shared_out<T, R: Wait>(rt: &R, alloc: Global, first: T) -> Arc<T, Global> {
    let mut value = first;
    for _ in rt.forever() {
        match Arc::new(alloc, value) {
            Ok(shared) => return shared,
            Err(failed) => value = failed.value,
        }
        thread::yield_now();
    }
    unreachable!() // it loops for ever
}

/// Why a pool isn't closed in which so many seats of workers lie, of so many seats that were made: SeatMissing where
/// seats are missing, and else Memory.
fn unclosed<W: Work, C, G, S, N: PoolLedgers>(
    pool: Pool<W, C, G, S, N>,
    seats: Vec<Back<PoolDeed<u64>, N>>,
    here: usize,
    made: usize,
) -> PoolFault<W, C, G, S, N>
    requires here { (core : CorePool ℕ) × (here ≡ absent core) }
    ensures { FaultFits N.settings W.worth made seats.items result }
{
    let have = seats.len();
    if have < made && here < made - have {
        PoolFault::SeatMissing {
            have: (have + here) as u64,
            made: made as u64,
            pool,
            seats,
        }
    } else {
        PoolFault::Memory { pool, seats }
    }
}

impl<W: Work, C: Drop, G: Gate + Drop, S: Drop, N: PoolLedgers> Pool<W, C, G, S, N> {
    /// Shuts the pool down: no more jobs are taken, and workers that find none end. It waits only for the lock, and can
    /// be repeated.
    ///
    /// # Errors
    /// Nothing has changed.
    /// - NoSuchSeat, if the seat isn't a caller's.
    /// - HistoryFull, if the log has no room for the record.
    /// - Memory, if an allocation fails.
    ///
    /// # Example
    /// From `crates/examples/src/jobs/running.rt`:
    ///
    ///     match pool.shutdown(rt, seat) {
    ///         Ok(after) => backs.push_reserved(Back::Free(after)),
    ///         Err(turned_away) => return Err(turned_away.into_why()), // the pool is dropped, with its one seat
    ///     }
    ///     pool.await_end(rt); // no more jobs, no more workers
    ///
    /// Java: `ThreadPoolExecutor.shutdown`.
    pub fn shutdown<R: Wait>(
        &self,
        rt: &R,
        mut seat: Seat<PoolDeed<u64>, N>,
    ) -> Result<Seat<PoolDeed<u64>, N>, SeatRefused<N>>
        ensures seat { IfOk result (λ after. SameSeat seat after) }
        ensures adds { IfOk result (λ after. Adds seat.list after.list
            (record { seat = seat.number; ticket = 0; deed = ShutDown } ∷ [])) }
        ensures why { IfErr result (λ refused. IsShutWhy N.settings.sizes.callers seat.number refused.why) }
        ensures same { IfErr result (λ refused. SameSeat seat refused.seat × (refused.seat.list ≡ seat.list)) }
    {
        if seat.reserve(1).is_err() {
            return Err(SeatRefused {
                why: Refusal::Memory,
                seat,
            });
        }
        let mut shared = hold(rt, &self.home.shared);
        let shut = shared.shutdown(&mut seat);
        drop(shared);
        self.wake_all();
        match shut {
            Ok(()) => Ok(seat),
            Err(why) => Err(SeatRefused { why, seat }),
        }
    }

    /// Shuts the pool down, and returns all buffered jobs, in their order. It waits only for the lock.
    ///
    /// # Errors
    /// Nothing has changed.
    /// - NoSuchSeat, if the seat isn't a caller's.
    /// - HistoryFull, if the log has no room for the record.
    /// - Memory, if an allocation fails.
    ///
    /// # Example
    /// From `crates/pool_threads_tests/src/pools.rt`:
    ///
    ///     match pool.shutdown_now(rt, seat) {
    ///         Ok((seat, jobs)) => {
    ///             let first = jobs.front().map(|job| job.tag());
    ///
    /// Java: `ThreadPoolExecutor.shutdownNow`.
    pub fn shutdown_now<R: Wait>(
        &self,
        rt: &R,
        mut seat: Seat<PoolDeed<u64>, N>,
    ) -> Result<(Seat<PoolDeed<u64>, N>, VecDeque<Job<C>>), SeatRefused<N>>
        ensures seat { IfOk result (λ done. SameSeat seat done.0) }
        ensures adds { IfOk result (λ done. Adds seat.list done.0.list
            (record { seat = seat.number; ticket = 0; deed = ShutDownNow (length done.1.items) } ∷ [])) }
        ensures why { IfErr result (λ refused. IsShutWhy N.settings.sizes.callers seat.number refused.why) }
        ensures same { IfErr result (λ refused. SameSeat seat refused.seat × (refused.seat.list ≡ seat.list)) }
    {
        if seat.reserve(1).is_err() {
            return Err(SeatRefused {
                why: Refusal::Memory,
                seat,
            });
        }
        let mut shared = hold(rt, &self.home.shared);
        let shut = shared.shutdown_now(self.alloc, &mut seat);
        drop(shared);
        self.wake_all();
        match shut {
            Ok(jobs) => Ok((seat, jobs)),
            Err(why) => Err(SeatRefused { why, seat }),
        }
    }

    /// Wakes all that wait in the pool.
    fn wake_all(&self) {
        self.home.moved.notify_all();
        for post in self.home.posts.as_slice() {
            post.gate.wake();
        }
    }

    /// Returns the pool's counters: its workers, the jobs that run, are buffered and were done, and the most workers
    /// that there were. It waits only for the lock.
    ///
    /// Java: `getPoolSize`, `getActiveCount` and their kin.
    pub fn counters<R: Wait>(&self, rt: &R) -> Counters {
        hold(rt, &self.home.shared).counters()
    }

    /// Waits until the pool is shut down and has no worker, which may be never.
    ///
    /// # Example
    /// From `crates/examples/src/jobs/running.rt`:
    ///
    ///     pool.await_end(rt); // no more jobs, no more workers
    ///
    /// Java: `ThreadPoolExecutor.awaitTermination` without a limit.
    pub fn await_end<R: Wait>(&self, rt: &R) {
        let guard = self.home.moved.wait_while(
            rt,
            hold(rt, &self.home.shared),
            |shared| !shared.has_ended(),
        );
        drop(guard);
    }

    /// Closes the pool: takes all seats back, compares the records with their receipts, and waits until its workers'
    /// threads have dropped it.
    ///
    /// # Errors
    /// - SeatMissing, exactly if fewer seats are given back, or lie in the pool, than were made.
    /// - Memory, if an allocation fails.
    /// - Differs, if a seat's receipts aren't its records.
    ///
    /// # Example
    /// From `crates/examples/src/jobs/running.rt`:
    ///
    ///     match pool.close(rt, alloc, backs) {
    ///         Ok(chronicle) => Ok(Ran { chronicle, refused }),
    ///         Err(fault) => Err(fault.into_why()),
    ///     }
    pub fn close<R: Wait>(
        self,
        rt: &R,
        alloc: Global,
        mut seats: Vec<Back<PoolDeed<u64>, N>>,
    ) -> Result<PoolChronicle<C>, PoolFault<W, C, G, S, N>>
        ensures listed { IfOk result (λ c. AreListed c.base.gone c.records.items
            (map (λ list. list.items) c.lists.items)) }
        ensures first { IfOk result (λ c. c.base.gone ≡ 0 → c.base ≡ no_base) }
        ensures left { IfOk result (λ c. (core : Shown ℕ) × (core.settings ≡ N.settings)
            × LeadsTo (λ tag. tag) c.base c.records.items core
            × (map told_task c.left.items ≡ kept_tasks core.pool.line)) }
        ensures rises { IfOk result (λ c. AllPairs (λ a b. a.0 < b.0) c.left.items) }
        ensures count { IfOk result (λ c. vec_len c.lists ≡ N.parts) }
        ensures lists { IfOk result (λ c. (all ordered : List (Back (Told ℕ) N)) × AddsWorthy W.worth seats.items all
            × AreOrdered all ordered × (map (λ list. list.items) c.lists.items ≡ map list_of ordered)
            × (c.base.gone + length c.records.items ≡ shares_in all) × (c.base.gone ≡ folded_in all)) }
        ensures few { IfOk result (λ c. c.base.gone + length c.records.items < 2 ^ 64) }
        ensures cap { IfOk result (λ c. length c.records.items ≤ N.cap) }
        ensures fault { IfErr result (λ fault. FaultFits N.settings W.worth N.parts seats.items fault) }
    {
        let made = self.home.made.count();
        let held = hold(rt, &self.home.shared);
        let here = held.seats_here();
        let left = held.probe().left() as usize;
        let kept = held.kept.len();
        drop(held);
        let have = seats.len();
        if have < made && here < made - have {
            return Err(unclosed(self, seats, here, made));
        }
        let Some(room) = EndRoom::new(alloc, made, left, kept, &mut seats) else {
            return Err(unclosed(self, seats, here, made));
        };
        let Pool {
            home,
            starter,
            alloc: own,
        } = self;
        let Home {
            shared: lock,
            posts,
            moved,
            made: count,
            callers,
            patience,
            keep_alive,
            entrusts,
            folded,
        } = alone(rt, home);
        let inside = lock.into_inner().into_inner();
        let lying = inside.seats_here();
        // What was counted stays as it is; that it does isn't known here.
        if have > made
            || lying != made - have
            || inside.probe().left() as usize > room.tasks.capacity()
            || inside.kept.len() > room.pairs.capacity()
        {
            let home = Home {
                shared: CachePadded::new(Mutex::new(inside)),
                posts,
                moved,
                made: count,
                callers,
                patience,
                keep_alive,
                entrusts,
                folded,
            };
            let pool = Pool {
                home: shared_out(rt, own, home),
                starter,
                alloc: own,
            };
            return Err(unclosed(pool, seats, lying, made));
        }
        let EndRoom {
            seats: room,
            tasks,
            pairs,
        } = room;
        let PoolShared {
            shared,
            kept,
            given: _,
            seats: workers,
        } = inside;
        take_seats(workers, &mut seats);
        match settle(shared, seats, room) {
            Ok(
                Settled {
                    object,
                    base,
                    records,
                    lists,
                },
            ) => {
                object.stays_sound();
                let tasks = object.into_left(tasks);
                Ok(PoolChronicle {
                    base,
                    records,
                    lists,
                    left: with_tickets(kept, tasks, pairs),
                })
            }
            Err(
                Unsettled {
                    seat,
                    index,
                    book,
                    seats,
                },
            ) => Err(PoolFault::Differs {
                seat,
                index,
                book,
                seats,
                left: kept,
            }),
        }
    }
}
