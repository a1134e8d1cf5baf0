//! What happens to a job that a pool is handed.

use crate::jobs::Job;
use meet_tickets::Ticket;

/// What happened to a job that a pool was handed.
#[derive(Debug, Drop)]
pub enum Outcome<C> {
    /// It was handed to this worker, which waited.
    Handed(u64),
    /// This worker was started with it.
    Started(u64),
    /// It is buffered.
    Kept,
    /// It is buffered, and this worker was started.
    KeptStart(u64),
    /// It was rejected, and is returned. Java: `ThreadPoolExecutor.AbortPolicy`.
    Aborted(Job<C>),
    /// It was run here, and returned this. Java: `ThreadPoolExecutor.CallerRunsPolicy`.
    RanHere(u64),
    /// It was dropped, and is returned. Java: `ThreadPoolExecutor.DiscardPolicy`.
    Dropped(Job<C>),
    /// The oldest buffered job, of this ticket, was dropped and is returned, and the new one is buffered. Java:
    /// `ThreadPoolExecutor.DiscardOldestPolicy`.
    DroppedOldest(Ticket, Job<C>),
}

/// How the start of a worker ended.
#[derive(Drop)]
pub enum Begun<C> {
    /// The record of its start stands, and no more is known.
    Stands,
    /// There was no thread; the job that it was started with, if there was one.
    NoThread(Option<Job<C>>),
}
