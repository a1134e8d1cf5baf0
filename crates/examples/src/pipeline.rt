//! A pipeline of three stages over two transfer queues: the numbers from 1 to 10 are made, squared, and added up, each
//! stage in a thread of its own. After a stage is done, it interrupts the next one.
mod stages;

ghost use Rattle.std.specs.Prelude.{◌≡◌, vec_len};
ghost use Rattle.ibisbookcase.specs.Ledgers.{AreOf};
ghost use Rattle.ibisbookcase.specs.Limits.{most_records};

use self::stages::{add, make, square};
use crate::pairs::{Numbers, Sitting, closed, opened};
use ibisbookcase::queues::{Ledgers, NewQueue, ParkGate, Refusal};
use std::alloc::Global;
use std::marker::Brand;
use std::sync::Wait;
use std::thread;
use std::thread::Threads;
use std::time::Clock;

/// The outcome: the sum, and how many items are left in both queues.
#[derive(Drop)]
pub struct Piped {
    pub sum: u64,
    pub left: usize,
}

/// What the stages return: the seats of each queue's two threads, and the sum.
#[derive(Drop)]
struct Stopped<M: Ledgers, N: Ledgers> {
    maker: Sitting<M>,
    from: Sitting<M>,
    to: Sitting<N>,
    adder: Sitting<N>,
    sum: u64,
}

/// The outcome of the stages, or the first error.
fn outcome<M: Ledgers, N: Ledgers>(
    made: Result<Sitting<M>, Refusal>,
    squared: Result<(Sitting<M>, Sitting<N>), Refusal>,
    added: Result<(Sitting<N>, u64), Refusal>,
) -> Result<Stopped<M, N>, Refusal> {
    let maker = made?;
    let (from, to) = squared?;
    let (adder, sum) = added?;
    Ok(Stopped {
        maker,
        from,
        to,
        adder,
        sum,
    })
}

/// All three stages, each with its seats, until each has ended.
fn run<M, N, R>(
    rt: &R,
    numbers: &Numbers<M>,
    squares: &Numbers<N>,
    first: (Sitting<M>, Sitting<M>),
    second: (Sitting<N>, Sitting<N>),
) -> Result<Stopped<M, N>, Refusal>
where
    M: Ledgers + Send + Sync,
    N: Ledgers + Send + Sync,
    R: Threads + Wait + Clock + Sync,
{
    let (maker, from) = first;
    let (to, adder) = second;
    let (made, (squared, added)) = thread::join(
        rt,
        move || make(rt, numbers, maker, 10),
        move || {
            thread::join(
                rt,
                move || square(rt, numbers, squares, from, to),
                move || add(rt, squares, adder),
            )
        },
    );
    outcome(made, squared, added)
}

/// The stages between a queue that is there, with its two seats, and another of these parts. Returns the seats, and the
/// outcome.
fn run_to<M, N, R>(
    rt: &R,
    alloc: Global,
    numbers: &Numbers<M>,
    first: (Sitting<M>, Sitting<M>),
    parts: NewQueue<ParkGate>,
) -> Result<(Sitting<M>, Sitting<M>, Piped), Refusal>
where
    M: Ledgers + Send + Sync,
    N: Ledgers + Send + Sync,
    R: Threads + Wait + Clock + Sync,
    requires ledgers { AreOf N.name N.folds N.moments N.parts parts.blanks }
    requires one_each { N.parts ≡ vec_len parts.gates }
    requires cap { N.cap ≡ most_records }
{
    let (squares, second) = opened::<N>(alloc, parts)?;
    let Stopped {
        maker,
        from,
        to,
        adder,
        sum,
    } = run(rt, numbers, &squares, first, second)?;
    let left = closed(alloc, squares, to, adder)?;
    Ok((maker, from, Piped { sum, left }))
}

/// The pipeline over two queues of these parts.
fn pipe<M, N, R>(
    rt: &R,
    alloc: Global,
    first: NewQueue<ParkGate>,
    second: NewQueue<ParkGate>,
) -> Result<Piped, Refusal>
where
    M: Ledgers + Send + Sync,
    N: Ledgers + Send + Sync,
    R: Threads + Wait + Clock + Sync,
    requires first { AreOf M.name M.folds M.moments M.parts first.blanks × (M.parts ≡ vec_len first.gates) }
    requires second { AreOf N.name N.folds N.moments N.parts second.blanks × (N.parts ≡ vec_len second.gates) }
    requires caps { (M.cap ≡ most_records) × (N.cap ≡ most_records) }
{
    let (numbers, seats) = opened::<M>(alloc, first)?;
    let (maker, from, piped) = run_to::<M, N, R>(rt, alloc, &numbers, seats, second)?;
    let left = closed(alloc, numbers, maker, from)?;
    Ok(Piped {
        sum: piped.sum,
        left: piped.left.saturating_add(left),
    })
}

/// Runs the pipeline.
pub fn pipe_squares<R>(rt: &R, alloc: Global) -> Result<Piped, Refusal>
where
    R: Threads + Wait + Clock + Sync,
{
    let first = NewQueue::parked(alloc, 2)?;
    let second = NewQueue::parked(alloc, 2)?;
    pipe::<Brand, Brand, R>(rt, alloc, first, second)
}

/// Runs the stages, and prints the sum.
pub fn print_sum<R>(rt: &R, alloc: Global) -> Result<(), Refusal>
where
    R: Threads + Wait + Clock + Print + Sync,
{
    let Piped { sum, left } = pipe_squares(rt, alloc)?;
    println!(rt; "the squares of 1 to 10 add up to {sum}, {left} left").map_err(
        |_| Refusal::WriteFault,
    )
}
