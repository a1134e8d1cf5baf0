//! The replies to a pool's script.

use meet_tickets::{Refusal, SeatNo, Ticket};
use pool_core::{Counters, PoolDeed};

/// A reply to a call.
#[derive(Clone, Copy, PartialEq, Eq, Debug)]
pub struct PoolReply {
    /// The seat that made the call.
    pub seat: SeatNo,
    /// The result.
    pub outcome: PoolOutcome,
}

/// The result of a call.
#[derive(Clone, Copy, PartialEq, Eq, Debug)]
pub enum PoolOutcome {
    /// The record of this number, from 1, was written: of this ticket, which is 0 if it names none, with this deed.
    Recorded(u64, Ticket, PoolDeed<u64>),
    /// The job of this ticket, with this tag, is returned.
    Returned(Ticket, u64),
    /// The worker's take still waits in the wait queue.
    NotYet,
    /// The worker stays, and waits on.
    Stays,
    /// The worker was handed a job, or interrupted, before its time ran out.
    Late,
    /// What the pool counts.
    Counted(Counters),
    /// This many records were compacted since the first.
    Based(u64),
    /// The call failed, and nothing changed.
    Refused(Refusal),
}
