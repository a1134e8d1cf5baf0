//! The workers of a pool: what each does, and what they count together. No call takes longer if there are more of them,
//! but for those that go over all.

ghost use Rattle.std.specs.Prelude.{◌≡◌, ◌<◌, ◌≤◌, length, get_or, map, replicate, slice_index_or, slice_set};
ghost use Rattle.std.specs.Prelude.{count_by, sum_by, position, not, if◌then◌else◌, IfOk};
ghost use Rattle.pool_core.specs.Limits.{most_together};
ghost use Rattle.pool_core.specs.Calls.{is_running, is_cut};
ghost use Rattle.pool_core.specs.Pools.{HasNoJob, cut_stage, is_there, stage_owes};
ghost use Rattle.pool_core.specs.declared.stages.Stage.TheVariants.{Absent};

use crate::numbers::Numbers;
use crate::stages::Stage;
use meet_line::let_go_none;
use std::alloc::{AllocError, Global};
use std::marker::Model;
use std::mem;

/// What each worker does, by number; how many are there, how many run a job, and how many records they may still need;
/// which numbers no worker has, and whose takes were interrupted. A contract sees the stages.
#[derive(Drop)]
pub struct Crew<J> {
    stages: Vec<Stage<J>>,
    there: u64,
    running: u64,
    owes: u64,
    free: Numbers,
    cut: Numbers,
}

impl<J> Model for Crew<J> {
    ghost use Rattle.std.specs.Prelude.{List};
    ghost use Rattle.pool_core.specs.Crews.{IsCounted};
    ghost use Rattle.pool_core.specs.declared.stages.Stage.{Stage as Told};

    ghost Value = { List (Told J) };

    ghost view = { λ c. c.stages.items };

    ghost invariant = { λ c. IsCounted c };
}

impl<J> Crew<J> {
    /// Creates `count` numbers that no worker has.
    ///
    /// # Errors
    /// - `AllocError`, if an allocation fails.
    pub fn new(alloc: Global, count: u64) -> Result<Self, AllocError>
        requires { count ≤ most_together }
        ensures { IfOk result (λ crew. crew ≡ replicate count Absent) }
    {
        let free = Numbers::all(alloc, count)?;
        let cut = Numbers::none(alloc, count)?;
        let stages = nobody_works(alloc, count)?;
        Ok(Crew {
            stages,
            there: 0,
            running: 0,
            owes: 0,
            free,
            cut,
        })
    }

    /// Returns what each does.
    pub fn stages(&self) -> &[Stage<J>]
        ensures { result.now ≡ self.now }
    {
        self.stages.as_slice()
    }

    /// Returns how many numbers there are.
    pub fn len(&self) -> u64
        ensures { result ≡ length self.now }
    {
        self.stages.len() as u64
    }

    /// Returns what the worker of this number does.
    pub fn at(&self, worker: u64) -> &Stage<J>
        requires { worker < length self.now }
        ensures { result.now ≡ get_or self.now worker result.now }
    {
        &self.stages[worker as usize]
    }

    /// Returns what each did.
    pub fn into_stages(self) -> Vec<Stage<J>>
        ensures { result.items ≡ self }
    {
        let Crew {
            stages,
            there: _,
            running: _,
            owes: _,
            free: _,
            cut: _,
        } = self;
        stages
    }

    /// Returns the least number that no worker has.
    pub fn free(&self) -> Option<u64>
        ensures { result ≡ position (λ stage. not (is_there stage)) self.now }
    {
        self.free.least()
    }

    /// Returns the first worker whose take was interrupted.
    pub fn first_cut(&self) -> Option<u64>
        ensures { result ≡ position is_cut self.now }
    {
        self.cut.least()
    }

    /// Returns how many workers are there.
    pub fn there(&self) -> u64
        ensures { result ≡ count_by is_there self.now }
    {
        self.there
    }

    /// Returns how many run a job.
    pub fn running(&self) -> u64
        ensures { result ≡ count_by is_running self.now }
    {
        self.running
    }

    /// Returns how many records they may still need.
    pub fn owes(&self) -> u64
        ensures { result ≡ sum_by stage_owes self.now }
    {
        self.owes
    }
}

/// One for what is so, and else none.
#[inline(always)]
fn one_if(is: bool) -> u64
    ensures value { result ≡ (if is then 1 else 0) }
    ensures few { result ≤ 1 }
{
    if is { 1 } else { 0 }
}

impl<J> Crew<J> {
    /// Moves the worker of this number to another stage, and returns the one that it leaves.
    #[inline(always)]
    pub fn put(&mut self, worker: u64, stage: Stage<J>) -> Stage<J>
        requires { worker < length self.old }
        ensures was { result ≡ slice_index_or self.old worker Absent }
        ensures stages { self.new ≡ slice_set self.old worker stage }
    {
        let (there, running, owes) = (
            one_if(stage.is_there()),
            one_if(stage.is_running()),
            stage.owes(),
        );
        let (is_there, is_cut) = (stage.is_there(), stage.is_cut());
        let was = mem::replace(&mut self.stages[worker as usize], stage);
        self.free.change(worker, !was.is_there(), !is_there);
        self.cut.change(worker, was.is_cut(), is_cut);
        self.there = self.there + there - one_if(was.is_there());
        self.running = self.running + running - one_if(was.is_running());
        self.owes = self.owes + owes - was.owes();
        was
    }
}

/// Moves the worker of this number to another stage. What it leaves has no job in it.
#[inline(always)]
pub fn set_stage<J>(workers: &mut Crew<J>, worker: u64, stage: Stage<J>)
    requires there { worker < length workers.old }
    requires no_job { HasNoJob (slice_index_or workers.old worker Absent) }
    ensures { workers.new ≡ slice_set workers.old worker stage }
{
    match workers.put(worker, stage) {
        Stage::Absent | Stage::Waiting(_) | Stage::Cut(_) | Stage::Running(_) => {}
        Stage::Starting(first) => let_go_none(first),
        Stage::HandedOver(_, _) => unreachable!(), // it leaves no job
    }
}

/// Takes out what the worker of this number does; it is absent then.
#[inline(always)]
pub fn take_stage<J>(workers: &mut Crew<J>, worker: u64) -> Stage<J>
    requires { worker < length workers.old }
    ensures was { result ≡ slice_index_or workers.old worker Absent }
    ensures workers { workers.new ≡ slice_set workers.old worker Absent }
{
    workers.put(worker, Stage::Absent)
}

/// So many numbers that no worker has.
fn nobody_works<J>(alloc: Global, count: u64) -> Result<Vec<Stage<J>>, AllocError>
    requires { count ≤ most_together }
    ensures { IfOk result (λ workers. workers.items ≡ replicate count Absent) }
{
    let mut workers = Vec::with_capacity(alloc, count as usize)?;
    for _ in 0..count {
        workers.push_reserved(Stage::Absent);
    }
    Ok(workers)
}

/// Interrupts each worker that waits.
pub fn cut_all<J>(workers: &mut Crew<J>)
    ensures { workers.new ≡ map cut_stage workers.old }
{
    for worker in 0..workers.len() {
        cut_one(workers, worker);
    }
}

/// The worker of this number is cut, if it waits.
fn cut_one<J>(workers: &mut Crew<J>, worker: u64)
    requires { worker < length workers.old }
    ensures { workers.new ≡ slice_set workers.old worker (cut_stage (slice_index_or workers.old worker Absent)) }
{
    let stage = take_stage(workers, worker);
    set_stage(workers, worker, cut(stage));
}

/// What a shutdown makes of what a worker does.
fn cut<J>(stage: Stage<J>) -> Stage<J>
    ensures { result ≡ cut_stage stage }
{
    match stage {
        Stage::Absent => Stage::Absent,
        Stage::Starting(first) => Stage::Starting(first),
        Stage::Waiting(take) => Stage::Cut(take),
        Stage::Cut(take) => Stage::Cut(take),
        Stage::HandedOver(take, task) => Stage::HandedOver(take, task),
        Stage::Running(ticket) => Stage::Running(ticket),
    }
}
