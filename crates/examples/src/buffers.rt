//! Two buffers that change hands, as in the documentation of `Exchanger`: one thread fills a buffer and exchanges it
//! for an empty one, the other empties a buffer and exchanges it for a full one.
mod loops;

use self::loops::{Buffer, empty_all, fill_all};
use ibisbookcase::exchanger::{Arena, Back, CloseFault, Refusal, Seat};
use std::alloc::Global;
use std::sync::Wait;
use std::thread;
use std::thread::Threads;

/// How many times a buffer is filled.
const ROUNDS: u64 = 5;

/// The outcome: the sum of what was taken out of the buffers, and how many exchanges there were.
#[derive(Drop)]
pub struct Exchanges {
    pub sum: u64,
    pub rounds: usize,
}

/// Both loops at a new exchanger with one slot.
pub fn exchange_all<R>(rt: &R, alloc: Global) -> Result<Exchanges, Refusal>
where
    R: Threads + Wait + Sync,
{
    let full = Buffer::new(alloc, 1);
    let empty = Buffer::new(alloc, 2);
    let (arena, mut seats) = Arena::<Buffer>::new(alloc, 1, 2)?; // one slot, two seats
    let (Some(emptier), Some(filler)) = (seats.pop(), seats.pop()) else {
        return Err(Refusal::SeatMissing);
    };
    let shared = &arena;
    let (filled, emptied) = thread::join(
        rt,
        move || fill_all(rt, shared, filler, full, ROUNDS),
        move || empty_all(rt, shared, emptier, empty, ROUNDS),
    );
    let (emptier, sum) = emptied?;
    let mut backs: Vec<Back<Buffer>> = Vec::new(alloc);
    backs
        .push(Back::Free(filled?))
        .map_err(|_| Refusal::Memory)?;
    backs
        .push(Back::Free(emptier))
        .map_err(|_| Refusal::Memory)?;
    let closed = arena.close(alloc, backs).map_err(CloseFault::into_why)?;
    let mut rounds = 0usize;
    for slot in &closed.slots {
        rounds = rounds.saturating_add(slot.len());
    }
    Ok(Exchanges { sum, rounds })
}

/// Exchanges the buffers, and prints how often.
pub fn print_rounds<R>(rt: &R, alloc: Global) -> Result<(), Refusal>
where
    R: Threads + Wait + Print + Sync,
{
    let exchanged = exchange_all(rt, alloc)?;
    println!(rt;
        "{} exchanges, and what was taken out adds up to {}",
        exchanged.rounds, exchanged.sum
    )
    .map_err(|_| Refusal::WriteFault)
}
