//! A pool of two workers, and a caller that hands ten jobs in. Each job squares a number.

ghost use Rattle.std.specs.Prelude.{◌*◌, ◌<◌};

use anyhow::Result;
use ibisbookcase::pools::{Call, PoolCaller, PoolHandle, Unrun, Work, answers_of, run_fixed_pool};
use std::alloc::Global;
use std::sync::Wait;
use std::thread::Threads;
use std::time::Clock;

struct Squares;

impl Work for Squares {
    ghost worth = { λ number. number * number };
}

#[derive(Drop)]
struct Square {
    number: u64,
    ghost small: { number < 1000 },
}

impl Call<Squares> for Square {
    ghost tag_of = { λ job. job.number };

    fn tag(&self) -> u64 {
        self.number
    }

    fn make(self) -> u64 {
        self.number * self.number
    }
}

struct Ten;

impl PoolCaller<Squares, Square> for Ten {
    type Output = Result<(), Unrun<Square>>;

    fn run<P: PoolHandle<Squares, Square>>(&self, pool: &mut P) -> Self::Output {
        for number in 0..10u64 {
            pool.submit(Square { number })?;
        }
        Ok(())
    }
}

/// Runs the program.
pub fn run<R>(rt: &R, alloc: Global) -> Result<()>
where
    R: Threads + Wait + Clock + Print + Copy + Send + Sync + 'static,
{
    let done = run_fixed_pool(rt, alloc, 1, 2, &Ten)?; // one caller, two workers
    let mut sum = 0u64;
    for answer in answers_of(alloc, &done.log?)? {
        sum = sum.saturating_add(answer.value);
    }
    println!(rt; "{:?}, the squares add up to {sum}", done.results)?;
    Ok(())
}
