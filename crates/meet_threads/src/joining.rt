//! What the threads of a task return.

ghost use Rattle.std.specs.Prelude.{◌≡◌, ◌≤◌, [], IfOk, IfErr, IfSome, vec_len};
ghost use Rattle.std.specs.Vec.{vec_capacity};
ghost use Rattle.meet_tickets.specs.declared.refusals.Refusal.TheVariants.{Memory};

use meet_tickets::Refusal;
use std::alloc::Global;
use std::thread::{JoinHandle, Threads};

/// What a thread of a task returns: its seat, and its result, or None if it left before it began to work.
#[derive(Drop)]
pub struct Returned<S, A> {
    /// Its seat.
    pub seat: S,
    /// Its result.
    pub output: Option<A>,
}

/// Room for the threads that are started, and for what they return: their seats and their results.
#[derive(Drop)]
pub struct Room<S, A> {
    /// For the threads.
    pub threads: Vec<JoinHandle<Returned<S, A>>>,
    /// For their seats.
    pub seats: Vec<S>,
    /// For their results.
    pub results: Vec<A>,
    ghost empty: { (threads.items ≡ []) × (seats.items ≡ []) × (results.items ≡ []) },
}

impl<S: Drop, A: Drop> Room<S, A> {
    /// Makes room for `count` threads.
    ///
    /// # Errors
    /// - Memory, if an allocation fails.
    pub fn new(alloc: Global, count: usize) -> Result<Self, Refusal>
        ensures threads { IfOk result (λ room. count ≤ vec_capacity room.threads) }
        ensures seats { IfOk result (λ room. count ≤ vec_capacity room.seats) }
        ensures results { IfOk result (λ room. count ≤ vec_capacity room.results) }
        ensures memory { IfErr result (λ why. why ≡ Memory) }
    {
        Ok(Room {
            threads: Vec::with_capacity(alloc, count).map_err(|_| Refusal::Memory)?,
            seats: Vec::with_capacity(alloc, count).map_err(|_| Refusal::Memory)?,
            results: Vec::with_capacity(alloc, count).map_err(|_| Refusal::Memory)?,
        })
    }
}

/// Joins these threads, and returns their seats and their results, in the order of the threads; None if one left before
/// it began to work. The empty lists have room for them.
pub fn joined<S: Drop, A: Drop, R: Threads>(
    rt: &R,
    threads: Vec<JoinHandle<Returned<S, A>>>,
    seats: Vec<S>,
    results: Vec<A>,
) -> Option<(Vec<S>, Vec<A>)>
    requires no_seat { seats.items ≡ [] }
    requires no_result { results.items ≡ [] }
    requires seats { vec_len threads ≤ vec_capacity seats }
    requires results { vec_len threads ≤ vec_capacity results }
    ensures seats { IfSome result (λ ended. vec_len ended.0 ≡ vec_len threads) }
    ensures results { IfSome result (λ ended. vec_len ended.1 ≡ vec_len threads) }
{
    let mut seats = seats;
    let mut results = results;
    for thread in threads {
        let Returned { seat, output } = thread.join(rt);
        let Some(output) = output else {
            return None;
        };
        seats.push_reserved(seat);
        results.push_reserved(output);
    }
    Some((seats, results))
}
