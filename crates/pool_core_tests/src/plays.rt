//! Plays: pools of numbers, each of which is its own tag and its own worth, are asked row by row, on a book or without
//! one. Who owns a pool or a book calls functions that borrow it, and none of these says what it does.

ghost use Rattle.std.specs.Prelude.{◌<◌, ◌≤◌};
ghost use Rattle.meet_tickets.specs.Limits.{most_records};

use meet_book::Book;
use meet_tickets::{Refusal, SeatNo};
use pool_core::{
    Executed, Followed, IdleEnd, Policy, PoolAnswer, PoolCall, PoolCore, PoolQueue, Ready, Sizes,
};
use std::alloc::Global;
use std::process::Abort;
use std::test::*;

/// A book of a pool of numbers.
pub(crate) type Recorded = Book<PoolCore<u64>>;

/// What is asked, by the caller or by a worker of this number.
#[derive(Clone, Copy)]
pub(crate) enum Ask {
    Execute(u64),
    ShutDown,
    ShutDownNow,
    Ready(u64),
    Follow(u64),
    Finish(u64),
    IdleEnd(u64),
    Leave(u64),
    StartFailed(u64),
}

/// What is told: numbers stand for workers and for jobs.
#[derive(Clone, Copy, PartialEq, Debug)]
pub(crate) enum Told {
    Handed(u64),
    Started(u64),
    Kept,
    KeptStart(u64),
    Aborted(u64),
    CallerRuns(u64),
    Dropped(u64),
    DroppedOldest(u64),
    Run(u64),
    Waits,
    Exit,
    NotYet,
    Stay,
    Late,
    Done,
    /// So many jobs came back, the first of them this.
    Back(u64, u64),
    Refused(Refusal),
}

/// The sizes of a pool of one caller.
pub(crate) fn sizes(core: u64, maximum: u64) -> Sizes {
    Sizes {
        core,
        maximum,
        callers: 1,
        keep_alive: 60_000,
        core_timeout: false,
    }
}

/// A call, and the seat that makes it: the caller's is 0, that of worker 0 is 1.
fn call_of(asked: Ask) -> (u64, PoolCall<u64>) {
    match asked {
        Ask::Execute(job) => (0, PoolCall::Execute(job)),
        Ask::ShutDown => (0, PoolCall::ShutDown),
        Ask::ShutDownNow => (0, PoolCall::ShutDownNow),
        Ask::Ready(worker) => (worker.saturating_add(1), PoolCall::Ready),
        Ask::Follow(worker) => (worker.saturating_add(1), PoolCall::Follow),
        Ask::Finish(worker) => (worker.saturating_add(1), PoolCall::Finish(worker)),
        Ask::IdleEnd(worker) => (worker.saturating_add(1), PoolCall::IdleEnd),
        Ask::Leave(worker) => (worker.saturating_add(1), PoolCall::Leave),
        Ask::StartFailed(worker) => (worker.saturating_add(1), PoolCall::StartFailed),
    }
}

/// What is told of a job that was handed in.
fn told_executed(answer: Executed<u64>) -> Told {
    match answer {
        Executed::Handed(worker) => Told::Handed(worker),
        Executed::Started(worker) => Told::Started(worker),
        Executed::Kept => Told::Kept,
        Executed::KeptStart(worker) => Told::KeptStart(worker),
        Executed::Aborted(back) => Told::Aborted(back),
        Executed::CallerRuns(back) => Told::CallerRuns(back),
        Executed::Dropped(back) => Told::Dropped(back),
        Executed::DroppedOldest(_, old) => Told::DroppedOldest(old),
    }
}

/// What a worker that is ready is told.
fn told_ready(answer: Ready<u64>) -> Told {
    match answer {
        Ready::Run(_, job) => Told::Run(job),
        Ready::Waits => Told::Waits,
        Ready::Exit => Told::Exit,
    }
}

/// What a worker that waited is told.
fn told_follow(answer: Followed<u64>) -> Told {
    match answer {
        Followed::Run(_, job) => Told::Run(job),
        Followed::Exit => Told::Exit,
        Followed::NotYet => Told::NotYet,
    }
}

/// What a worker that waited too long is told.
fn told_idle(answer: IdleEnd) -> Told {
    match answer {
        IdleEnd::Exit => Told::Exit,
        IdleEnd::Stay => Told::Stay,
        IdleEnd::Late => Told::Late,
    }
}

/// What is told of an answer.
fn tell(answer: PoolAnswer<u64>) -> Told {
    match answer {
        PoolAnswer::Executed(_, answer) => told_executed(answer),
        PoolAnswer::WasShut => Told::Done,
        PoolAnswer::Returned(jobs) => {
            let first = match jobs.first() {
                Some(task) => task.job,
                None => 0,
            };
            Told::Back(jobs.len() as u64, first)
        }
        PoolAnswer::BeReady(_, answer) => told_ready(answer),
        PoolAnswer::Followed(_, answer) => told_follow(answer),
        PoolAnswer::Finished(_) => Told::Done,
        PoolAnswer::Idled(_, answer) => told_idle(answer),
        PoolAnswer::Left => Told::Done,
        PoolAnswer::NotStarted(_, Some(job)) => Told::Back(1, job),
        PoolAnswer::NotStarted(_, None) => Told::Back(0, 0),
    }
}

/// The seat of this number.
pub(crate) fn seat_of(rt: &impl Abort, number: u64) -> SeatNo {
    SeatNo::new(number).expect(rt, "no such seat number")
}

/// A book of a new pool.
pub(crate) fn book_of(
    rt: &impl Abort,
    alloc: Global,
    sizes: Sizes,
    queue: PoolQueue,
    policy: Policy,
    cap: u64,
) -> Recorded
    requires cap_from { 0 < cap }
    requires cap_to { cap ≤ most_records }
{
    match pool_core::book_of_pool(alloc, sizes, queue, policy, cap) {
        Ok(book) => book,
        Err(_) => panic!(rt; "no book"),
    }
}

/// What the book is asked, and what it says.
fn put_to(rt: &impl Abort, book: &mut Recorded, asked: Ask) -> Told {
    let (number, call) = call_of(asked);
    match book.step(seat_of(rt, number), call) {
        Ok((answer, _)) => tell(answer),
        Err(refused) => Told::Refused(refused.why),
    }
}

/// The book is asked these, and says these.
pub(crate) fn plays(rt: &impl Abort, book: &mut Recorded, rows: &[(Ask, Told)]) {
    for (asked, wanted) in rows {
        assert_eq!(rt; put_to(rt, book, *asked), *wanted);
    }
}

/// What the pool counts: workers, running, kept, done, largest.
pub(crate) fn counts(book: &Recorded) -> (u64, u64, u64, u64, u64) {
    let counters = book.probe().counters();
    (
        counters.workers,
        counters.running,
        counters.kept,
        counters.done,
        counters.largest,
    )
}

/// A job is handed in.
fn executes(pool: &mut PoolCore<u64>, seat: SeatNo, job: u64) -> Told {
    match pool.execute(seat, job) {
        Ok((_, answer)) => told_executed(answer),
        Err(refused) => Told::Refused(refused.why),
    }
}

/// The pool is shut down.
fn shuts_down(pool: &mut PoolCore<u64>, seat: SeatNo) -> Told {
    match pool.shutdown(seat) {
        Ok(()) => Told::Done,
        Err(why) => Told::Refused(why),
    }
}

/// The pool is shut down at once.
fn shuts_down_now(pool: &mut PoolCore<u64>, seat: SeatNo) -> Told {
    match pool.shutdown_now(seat) {
        Ok(jobs) => tell(PoolAnswer::Returned(jobs)),
        Err(why) => Told::Refused(why),
    }
}

/// A worker is ready for a job.
fn is_ready(pool: &mut PoolCore<u64>, seat: SeatNo) -> Told {
    match pool.ready(seat) {
        Ok((_, answer)) => told_ready(answer),
        Err(why) => Told::Refused(why),
    }
}

/// A worker asks what came of its waiting.
fn follows(pool: &mut PoolCore<u64>, seat: SeatNo) -> Told {
    match pool.follow(seat) {
        Ok((_, answer)) => told_follow(answer),
        Err(why) => Told::Refused(why),
    }
}

/// A worker has done its job, with this answer.
fn finishes(pool: &mut PoolCore<u64>, seat: SeatNo, answer: u64) -> Told {
    match pool.finish(seat, answer) {
        Ok(_) => Told::Done,
        Err(why) => Told::Refused(why),
    }
}

/// A worker has waited too long.
fn is_idle(pool: &mut PoolCore<u64>, seat: SeatNo) -> Told {
    match pool.idle_end(seat) {
        Ok((_, answer)) => told_idle(answer),
        Err(why) => Told::Refused(why),
    }
}

/// A worker leaves.
fn leaves(pool: &mut PoolCore<u64>, seat: SeatNo) -> Told {
    match pool.leave(seat) {
        Ok(_) => Told::Done,
        Err(why) => Told::Refused(why),
    }
}

/// A worker couldn't be started.
fn fails_to_start(pool: &mut PoolCore<u64>, seat: SeatNo) -> Told {
    match pool.start_failed(seat) {
        Ok((ticket, job)) => tell(PoolAnswer::NotStarted(ticket, job)),
        Err(why) => Told::Refused(why),
    }
}

/// What the pool itself is asked, without a book, and what it says.
fn put_directly(rt: &impl Abort, pool: &mut PoolCore<u64>, asked: Ask) -> Told {
    let (number, call) = call_of(asked);
    let seat = seat_of(rt, number);
    match call {
        PoolCall::Execute(job) => executes(pool, seat, job),
        PoolCall::ShutDown => shuts_down(pool, seat),
        PoolCall::ShutDownNow => shuts_down_now(pool, seat),
        PoolCall::Ready => is_ready(pool, seat),
        PoolCall::Follow => follows(pool, seat),
        PoolCall::Finish(answer) => finishes(pool, seat, answer),
        PoolCall::IdleEnd => is_idle(pool, seat),
        PoolCall::Leave => leaves(pool, seat),
        PoolCall::StartFailed => fails_to_start(pool, seat),
    }
}

/// A new pool.
fn pool_of(
    rt: &impl Abort,
    alloc: Global,
    sizes: Sizes,
    queue: PoolQueue,
    policy: Policy,
) -> PoolCore<u64> {
    match PoolCore::new(alloc, sizes, queue, policy) {
        Ok(pool) => pool,
        Err(_) => panic!(rt; "no pool"),
    }
}

/// A new pool is asked these, without a book, and says these.
pub(crate) fn plays_directly(
    rt: &impl Abort,
    alloc: Global,
    sizes: Sizes,
    queue: PoolQueue,
    policy: Policy,
    rows: &[(Ask, Told)],
) {
    let mut pool = pool_of(rt, alloc, sizes, queue, policy);
    for (asked, wanted) in rows {
        assert_eq!(rt; put_directly(rt, &mut pool, *asked), *wanted);
    }
}
