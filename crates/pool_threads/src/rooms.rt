//! What a pool's end needs memory for.

ghost use Rattle.std.specs.Prelude.{◌≡◌, ◌+◌, ◌≤◌, [], IfSome, vec_len};
ghost use Rattle.std.specs.Vec.{vec_capacity};

use crate::jobs::Job;
use meet_place::{Back, Ledgers, SeatRoom};
use meet_tickets::Ticket;
use pool_core::{PoolDeed, Task};
use std::alloc::Global;

/// Room for seats, and for the jobs that are left.
#[derive(Drop)]
pub(crate) struct EndRoom<C: Drop, N: Ledgers> {
    pub(crate) seats: SeatRoom<PoolDeed<u64>, N>,
    pub(crate) tasks: Vec<Task<u64>>,
    pub(crate) pairs: Vec<(Ticket, Job<C>)>,
    ghost no_task: { tasks.items ≡ [] },
    ghost no_pair: { pairs.items ≡ [] },
}

impl<C: Drop, N: Ledgers> EndRoom<C, N> {
    /// Room for so many seats, for so many jobs that are left, and for so many that are kept; and for as many seats
    /// behind those that were given back. None if an allocation fails.
    pub(crate) fn new(
        alloc: Global,
        made: usize,
        left: usize,
        kept: usize,
        backs: &mut Vec<Back<PoolDeed<u64>, N>>,
    ) -> Option<Self>
        ensures seats { IfSome result (λ room. room.seats.seats ≡ made) }
        ensures backs { IfSome result (λ _. vec_len backs.old + made ≤ vec_capacity backs.new) }
        ensures same { backs.new.items ≡ backs.old.items }
        ensures count { vec_len backs.new ≡ vec_len backs.old }
    {
        backs.reserve(made).ok()?;
        Some(EndRoom {
            seats: SeatRoom::new(alloc, made)?,
            tasks: Vec::with_capacity(alloc, left).ok()?,
            pairs: Vec::with_capacity(alloc, kept).ok()?,
        })
    }
}
