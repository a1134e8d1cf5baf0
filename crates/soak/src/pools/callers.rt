//! What one caller does in a round.

use super::rounds::{Round, Stop};
use super::tallies::{Event, NONE, Tally};
use meet_shop::Chance;
use meet_tickets::Record;
use pool_callers::{PoolCaller, PoolHandle, Run, Task};
use pool_core::PoolDeed;
use pool_threads::{ItsTag, Job, Outcome};
use std::alloc::Global;
use std::sync::atomic::{AtomicU64, Ordering};
use std::sync::{Arc, Wait};
use std::thread;
use std::time::{Clock, Duration};

/// How often each job ran, by its tag.
#[derive(Drop)]
pub struct Board {
    ran: Vec<AtomicU64>,
}

impl Board {
    /// A board of this many jobs, of which none ran.
    pub fn new(alloc: Global, jobs: u64) -> Result<Arc<Board>, &'static str> {
        let mut ran = Vec::new(alloc);
        for _ in 0..jobs {
            ran.push(AtomicU64::new(0)).map_err(|_| "memory")?;
        }
        Arc::new(alloc, Board { ran }).map_err(|_| "memory")
    }

    /// How often each job ran, in the order of their tags.
    pub fn counts(&self, alloc: Global) -> Result<Vec<u64>, &'static str> {
        let mut counts = Vec::new(alloc);
        for count in self.ran.as_slice() {
            counts
                .push(count.load(Ordering::SeqCst))
                .map_err(|_| "memory")?;
        }
        Ok(counts)
    }
}

/// What a job does: it notes that it ran.
#[derive(Drop)]
pub struct Note {
    tag: u64,
    board: Arc<Board>,
}

impl Run for Note {
    fn run(self) {
        if let Some(count) = self.board.ran.as_slice().get(self.tag as usize) {
            count.fetch_add(1, Ordering::SeqCst);
        }
    }
}

/// The jobs that came back to a caller, what jobs returned as far as it knows, how often each outcome came, and what went
/// wrong first.
#[derive(Drop)]
pub struct Account {
    pub came: Vec<u64>,
    pub answered: Vec<u64>,
    pub tally: Tally,
    pub fault: Option<&'static str>,
}

impl Account {
    /// Nothing came.
    pub fn new(alloc: Global) -> Account {
        Account {
            came: Vec::new(alloc),
            answered: Vec::new(alloc),
            tally: NONE,
            fault: None,
        }
    }

    /// Notes what went wrong, unless something did before.
    fn blame(&mut self, fault: &'static str) {
        self.fault = self.fault.or(Some(fault));
    }

    /// Notes that a job came back.
    fn take(&mut self, job: Job<Task<Note>>) {
        if self.came.push(job.tag()).is_err() {
            self.blame("memory");
        }
    }

    /// Notes what a job returned.
    fn see(&mut self, answer: u64) {
        if self.answered.push(answer).is_err() {
            self.blame("memory");
        }
    }

    /// Notes what came of a job.
    fn note(&mut self, outcome: Outcome<Task<Note>>) {
        self.tally = self.tally.and(Event::of(&outcome));
        match outcome {
            Outcome::Aborted(job) => self.take(job),
            Outcome::Dropped(job) => self.take(job),
            Outcome::DroppedOldest(_, job) => self.take(job),
            Outcome::RanHere(answer) => self.see(answer),
            _ => {}
        }
    }

    /// Notes what these records say of workers: what their jobs returned, and that they waited too long.
    pub fn read(&mut self, records: &[Record<PoolDeed<u64>>]) {
        for record in records {
            match record.deed {
                PoolDeed::Finished(answer) => self.see(answer),
                PoolDeed::IdleExit => self.tally = self.tally.and(Event::Expired),
                _ => {}
            }
        }
    }

    /// Adds another account.
    pub fn add(&mut self, other: Account) {
        if self.came.extend_from_slice(other.came.as_slice()).is_err() {
            self.blame("memory");
        }
        let answered = other.answered.as_slice();
        if self.answered.extend_from_slice(answered).is_err() {
            self.blame("memory");
        }
        self.tally = self.tally.with(other.tally);
        if let Some(fault) = other.fault {
            self.blame(fault);
        }
    }
}

/// How long a caller pauses now and then, in milliseconds: longer than a worker waits for a job.
const PAUSE: u64 = 4;

/// What the callers of a round do.
#[derive(Drop)]
pub struct Soaking<'r, R> {
    pub rt: &'r R,
    pub alloc: Global,
    pub round: Round,
    pub board: &'r Arc<Board>,
}

impl<'r, R: Wait + Clock> Soaking<'r, R> {
    /// Hands the job of this tag in.
    fn hand_in<P: PoolHandle<ItsTag, Task<Note>>>(
        &self,
        pool: &mut P,
        tag: u64,
        account: &mut Account,
    ) {
        let Ok(board) = Arc::try_clone(self.board) else {
            account.blame("memory");
            return;
        };
        match pool.execute(Task::new(tag, Note { tag, board })) {
            Ok(outcome) => account.note(outcome),
            Err(refused) => account.blame(refused.into_why().name()),
        }
    }

    /// Shuts the pool down as in this round.
    fn stop<P: PoolHandle<ItsTag, Task<Note>>>(&self, pool: &mut P, account: &mut Account) {
        match self.round.stop {
            Stop::Later => {
                if let Err(why) = pool.shutdown() {
                    account.blame(why.name());
                }
            }
            Stop::Now => match pool.shutdown_now() {
                Ok(jobs) => {
                    for job in jobs {
                        account.take(job);
                    }
                }
                Err(why) => account.blame(why.name()),
            },
        }
    }

    /// What a caller does after a job, by chance: seldom it takes the records out, or pauses.
    fn look_after<P: PoolHandle<ItsTag, Task<Note>>>(
        &self,
        pool: &mut P,
        chance: &mut Chance,
        account: &mut Account,
    ) {
        match chance.below(128) {
            0 => match pool.rotate(Vec::new(self.alloc)) {
                Ok(chapter) => {
                    account.read(chapter.records.as_slice());
                    account.tally = account.tally.and(Event::Rotated);
                }
                Err(why) => account.blame(why.name()),
            },
            1 => thread::sleep(self.rt, Duration::from_millis(PAUSE)),
            _ => {}
        }
    }
}

impl<'r, R: Wait + Clock> PoolCaller<ItsTag, Task<Note>> for Soaking<'r, R> {
    type Output = Account;

    /// Hands the jobs of a caller in. The first caller shuts the pool down after as many as the round says.
    fn run<P: PoolHandle<ItsTag, Task<Note>>>(&self, pool: &mut P) -> Account {
        let round = self.round;
        let number = pool.number();
        let mut chance = round.chance_of(number);
        let mut account = Account::new(self.alloc);
        for job in 0..round.each {
            if number == 0 && job == round.stops_behind {
                self.stop(pool, &mut account);
            }
            let tag = number.wrapping_mul(round.each).wrapping_add(job);
            self.hand_in(pool, tag, &mut account);
            self.look_after(pool, &mut chance, &mut account);
        }
        if number == 0 && round.stops_behind >= round.each {
            self.stop(pool, &mut account);
        }
        account
    }
}
