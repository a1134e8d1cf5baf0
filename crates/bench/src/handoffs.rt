//! Threads that hand items on at a synchronous queue in fair mode, each with a seat in its hands.
//!
//! PAIRS threads put the numbers from 1 to EACH, and as many take as many, ROUNDS times, each time over a new queue. A
//! line per round says how many items were taken, and their sum. One on standard error says how many nanoseconds it took,
//! from before the first thread was started until all had ended. Each seat tends the queue after each call.
//!
//! With `tails` each put is timed by itself, and a line on standard error more says what these took. With `steady` as many
//! items are handed on before, over the same queue and untimed: what is timed takes no memory that wasn't in use. CAP is
//! how many records the queue has room for.

ghost use Rattle.std.specs.Prelude.{◌≡◌, vec_len};
ghost use Rattle.meet_place.specs.Ledgers.{AreOf};

use crate::counting::{Count, NOTHING, Passed, Spread, note, now, since};
use meet_cells::ParkGate;
use meet_sync::{Back, Ended, FairSeats, Interrupted, Ledgers, NewQueue, Seat, SyncQueue};
use meet_tickets::{Deed, Refusal, SeatNo};
use std::alloc::Global;
use std::marker::Brand;
use std::mem::ManuallyDrop;
use std::sync::{Condvar, Mutex, Wait};
use std::thread;
use std::thread::Threads;
use std::time::{Clock, Duration};

/// How a round is timed.
#[derive(Clone, Copy, PartialEq, Eq, Debug)]
pub enum Timing {
    /// As a whole.
    Whole,
    /// As a whole, after a round that isn't timed, over the same queue.
    Steady,
    /// As a whole, and each put by itself.
    Tails,
}

/// What is measured.
#[derive(Clone, Copy, PartialEq, Eq, Debug)]
pub struct Race {
    /// How many threads put, and how many take.
    pub pairs: u64,
    /// How many items each of them puts or takes.
    pub each: u64,
    pub rounds: u64,
    pub timing: Timing,
    /// How many records the queue has room for.
    pub cap: u64,
}

/// The queue of a round.
type Fair<N> = SyncQueue<u64, FairSeats<u64>, ParkGate, N>;

/// The seat of a thread at this queue.
type OurSeat<N> = Seat<Deed, N>;

/// What a thread does.
#[derive(Clone, Copy, PartialEq, Eq)]
enum Side {
    Producer,
    Consumer,
}

/// What a thread did: the items that it took, and how long its calls took, if they are timed.
#[derive(Drop)]
struct Done {
    count: Count,
    times: Vec<u128>,
}

/// A thread's seat, and what it did.
type Worked<N> = (OurSeat<N>, Done);

/// Where threads wait until all of them are there.
#[derive(Drop)]
struct Gathering {
    /// How many are there, or `GIVEN_UP`.
    there: Mutex<u64>,
    changed: Condvar,
    all: u64,
}

/// How many seconds the threads of a round wait for one another. If one isn't there by then, it can't be started.
const PATIENCE: u64 = 10;

/// In place of the number of threads that are there: some didn't come.
const GIVEN_UP: u64 = u64::MAX;

impl Gathering {
    /// Waits until all threads are there. Returns whether they are.
    fn is_whole<R: Wait + Clock>(&self, rt: &R) -> bool {
        let mut there = self.there.lock(rt);
        if *there == GIVEN_UP {
            return false;
        }
        *there = there.saturating_add(1);
        self.changed.notify_all();
        let patience = Duration::from_secs(PATIENCE);
        let (mut there, _) = self
            .changed
            .wait_timeout_while(rt, there, patience, |there| *there < self.all);
        if *there < self.all {
            *there = GIVEN_UP;
            self.changed.notify_all();
        }
        *there == self.all
    }
}

/// Interrupts every seat, which ends the call of one that waits, and else its next call that would wait.
fn stop<N: Ledgers, R: Wait>(rt: &R, queue: &Fair<N>, first: OurSeat<N>) -> OurSeat<N> {
    let mut seat = first;
    for number in 0..queue.seats() {
        if let Some(target) = SeatNo::new(number) {
            seat = match queue.interrupt(rt, seat, target) {
                Ok(Interrupted::Cut(seat, _)) => seat,
                Ok(Interrupted::Flagged(seat)) => seat,
                Err(refused) => refused.seat,
            };
        }
    }
    seat
}

/// Makes the call of this number, and tends the queue after it. It is a function of its own in the program too, so that
/// `dev/measure/instructions` can tell it from the loop around it.
#[inline(never)]
fn call<N: Ledgers, R: Wait + Clock>(
    rt: &R,
    queue: &Fair<N>,
    seat: OurSeat<N>,
    side: Side,
    number: u64,
) -> (OurSeat<N>, Passed) {
    let called = match side {
        Side::Producer => queue.put(rt, seat, number),
        Side::Consumer => queue.take(rt, seat),
    };
    match called {
        Ok(ended) => {
            let Ended { seat, end } = ended;
            match queue.tend(rt, seat) {
                Ok(seat) => (seat, Passed::of(end)),
                Err(refused) => (refused.seat, Passed::Refused(refused.why)),
            }
        }
        Err(refused) => (refused.seat, Passed::Refused(refused.why)),
    }
}

/// Makes the calls of a thread. If one fails or is interrupted, all threads are stopped.
fn call_all<N: Ledgers, R: Wait + Clock>(
    rt: &R,
    queue: &Fair<N>,
    first: OurSeat<N>,
    side: Side,
    race: Race,
    done: &mut Done,
) -> OurSeat<N> {
    let is_timed = race.timing == Timing::Tails && side == Side::Producer;
    let mut seat = first;
    for number in 1..=race.each {
        let start = if is_timed { Some(now(rt)) } else { None };
        let (next, passed) = call(rt, queue, seat, side, number);
        if let Some(start) = start {
            note(rt, start, &mut done.times);
        }
        let (count, goes_on) = passed.add_to(done.count);
        done.count = count;
        seat = next;
        if !goes_on {
            return stop(rt, queue, seat);
        }
    }
    seat
}

/// The thread with this seat makes its calls, after all threads are there.
fn work<N: Ledgers, R: Wait + Clock>(
    rt: &R,
    alloc: Global,
    queue: &Fair<N>,
    gathering: &Gathering,
    seat: OurSeat<N>,
    race: Race,
) -> Worked<N> {
    let mut done = Done {
        count: NOTHING,
        times: Vec::new(alloc),
    };
    if !gathering.is_whole(rt) {
        done.count = NOTHING.refused(Refusal::NoThread);
        return (seat, done);
    }
    let side = if seat.number().number() < race.pairs {
        Side::Producer
    } else {
        Side::Consumer
    };
    let seat = call_all(rt, queue, seat, side, race, &mut done);
    (seat, done)
}

/// Each seat works in a thread of its own, until all have ended. Returns the seats, to be given back, and what all did.
fn work_all<N, R>(
    rt: &R,
    alloc: Global,
    queue: &Fair<N>,
    seats: Vec<OurSeat<N>>,
    race: Race,
) -> Result<(Vec<OurSeat<N>>, Done), Refusal>
where
    N: Ledgers + Send + Sync,
    R: Threads + Wait + Clock + Sync,
{
    let gathering = Gathering {
        there: Mutex::new(0),
        changed: Condvar::new(),
        all: seats.len() as u64,
    };
    let job = |seat: OurSeat<N>| -> Worked<N> { work(rt, alloc, queue, &gathering, seat, race) };
    let worked = thread::map_vec(rt, seats, &job).map_err(|_| Refusal::Memory)?;
    let mut seats = Vec::new(alloc);
    let mut sum = Done {
        count: NOTHING,
        times: Vec::new(alloc),
    };
    for (seat, mut done) in worked {
        sum.count = sum.count.with(done.count);
        sum.times
            .append(&mut done.times)
            .map_err(|_| Refusal::Memory)?;
        seats.push(seat).map_err(|_| Refusal::Memory)?;
    }
    Ok((seats, sum))
}

/// All threads work at a queue, with these seats. Returns the seats, what was done, and its nanoseconds.
fn timed<N, R>(
    rt: &R,
    alloc: Global,
    queue: &Fair<N>,
    seats: Vec<OurSeat<N>>,
    race: Race,
) -> Result<(Vec<Back<Deed, N>>, Done, u128), Refusal>
where
    N: Ledgers + Send + Sync,
    R: Threads + Wait + Clock + Sync,
{
    let (seats, before) = if race.timing == Timing::Steady {
        work_all(rt, alloc, queue, seats, race)?
    } else {
        (
            seats,
            Done {
                count: NOTHING,
                times: Vec::new(alloc),
            },
        )
    };
    let start = now(rt)?;
    let (seats, mut done) = work_all(rt, alloc, queue, seats, race)?;
    let nanoseconds = since(rt, start)?;
    done.count = before.count.with(done.count);
    let mut backs = Vec::new(alloc);
    for seat in seats {
        backs.push(Back::Free(seat)).map_err(|_| Refusal::Memory)?;
    }
    Ok((backs, done, nanoseconds))
}

/// What came of a round.
#[derive(Drop)]
struct Finish {
    done: Done,
    nanoseconds: u128,
}

/// Runs a round at a queue of these parts, and closes it.
fn run_at<N, R>(
    rt: &R,
    alloc: Global,
    parts: NewQueue<ParkGate>,
    race: Race,
) -> Result<Finish, Refusal>
where
    N: Ledgers + Send + Sync,
    R: Threads + Wait + Clock + Sync,
    requires ledgers { AreOf N.name N.folds N.moments N.parts parts.blanks }
    requires one_each { N.parts ≡ vec_len parts.gates }
    requires cap { N.cap ≡ race.cap }
{
    let (queue, seats) = match Fair::<N>::with_cap(alloc, parts, race.cap) {
        Ok(made) => made,
        Err(refused) => return Err(refused.into_why()), // the gates and the ledgers are dropped
    };
    let (backs, done, nanoseconds) = match timed(rt, alloc, &queue, seats, race) {
        Ok(timed) => timed,
        Err(why) => {
            let _kept = ManuallyDrop::new(queue);
            return Err(why);
        }
    };
    match queue.close(alloc, backs) {
        Ok(_) => Ok(Finish { done, nanoseconds }),
        Err(fault) => {
            let why = fault.why();
            let _kept = ManuallyDrop::new(fault);
            Err(why)
        }
    }
}

/// Runs a round, and prints what came of it.
///
/// # Errors
/// - The error of the first call that fails, or of the close.
/// - NoThread, if a thread can't be started.
/// - ReadFault, if the clock can't be read; WriteFault, if a line can't be printed; Memory, if an allocation fails.
pub fn run_round<R>(rt: &R, alloc: Global, race: Race) -> Result<(), Refusal>
where
    R: Threads + Wait + Clock + Print + Eprint + Sync,
{
    let parts = NewQueue::parked(alloc, race.pairs.saturating_mul(2))?;
    let Finish { done, nanoseconds } = run_at::<Brand, R>(rt, alloc, parts, race)?;
    let Done { count, times } = done;
    if let Some(why) = count.why {
        return Err(why);
    }
    println!(rt; "items {} sum {}", count.items, count.sum).map_err(|_| Refusal::WriteFault)?;
    eprintln!(rt; "nanoseconds {nanoseconds}").map_err(|_| Refusal::WriteFault)?;
    if race.timing == Timing::Tails {
        eprintln!(rt; "put {}", Spread::of(times)).map_err(|_| Refusal::WriteFault)?;
    }
    Ok(())
}
