//! Rounds at pools. Callers hand jobs in, each in a thread of its own, and one of them shuts the pool down. Then every job
//! is looked for: it ran once and what it returned was recorded once, or it came back once, or it is left.

mod callers;
mod rounds;
mod tallies;

use self::callers::{Account, Board, Note, Soaking};
use self::rounds::Round;
pub use self::tallies::{NONE, Tally};
use pool_callers::{Finished, Task, run_pool};
use pool_threads::PoolChronicle;
use std::alloc::Global;
use std::sync::Wait;
use std::thread::Threads;
use std::time::Clock;

/// Counts each job of these tags once more.
fn add_tags(counts: &mut Vec<u64>, tags: &[u64]) -> Result<(), &'static str> {
    for tag in tags {
        match counts.as_mut_slice().get_mut(*tag as usize) {
            Some(count) => *count = count.saturating_add(1),
            None => return Err("a job that was never handed in"),
        }
    }
    Ok(())
}

/// How often each of this many jobs is named by these tags.
fn counted(alloc: Global, jobs: u64, tags: &[u64]) -> Result<Vec<u64>, &'static str> {
    let mut counts = Vec::new(alloc);
    for _ in 0..jobs {
        counts.push(0).map_err(|_| "memory")?;
    }
    add_tags(&mut counts, tags)?;
    Ok(counts)
}

/// Looks for every job of a round.
fn judge(
    alloc: Global,
    round: Round,
    board: &Board,
    account: &mut Account,
    chronicle: &PoolChronicle<Task<Note>>,
) -> Result<(), &'static str> {
    account.read(chronicle.records.as_slice());
    if let Some(fault) = account.fault {
        return Err(fault);
    }
    let ran = board.counts(alloc)?;
    let answered = counted(alloc, round.jobs(), account.answered.as_slice())?;
    if ran.as_slice() != answered.as_slice() {
        return Err("what a job returned is lost or doubled");
    }
    let mut found = ran;
    add_tags(&mut found, account.came.as_slice())?;
    for (_ticket, job) in chronicle.left.iter() {
        add_tags(&mut found, &[job.tag()])?;
    }
    if found.iter().any(|count| *count != 1) {
        return Err("a job is lost or doubled");
    }
    Ok(())
}

/// Holds the round of this number. Returns how often each outcome came, or what went wrong.
pub fn hold_round<R>(rt: &R, alloc: Global, number: u64) -> Result<Tally, &'static str>
where
    R: Threads + Wait + Clock + Copy + Send + Sync + 'static,
{
    let round = Round::of(number);
    let board = Board::new(alloc, round.jobs())?;
    let task = Soaking {
        rt,
        alloc,
        round,
        board: &board,
    };
    let Finished { results, log } = run_pool(rt, alloc, round.settings(), &task).map_err(
        |why| why.name(),
    )?;
    let mut account = Account::new(alloc);
    for own in results {
        account.add(own);
    }
    match log {
        Ok(chronicle) => {
            judge(alloc, round, &board, &mut account, &chronicle)?;
            Ok(account.tally)
        }
        Err(why) => Err(why.name()),
    }
}
