//! The loop that fills buffers, and the one that empties them.

ghost use Rattle.std.specs.Prelude.{◌≡◌, ◌<◌, IfOk};

use ibisbookcase::exchanger::{Arena, Exchanged, Marked, Refusal, Seat};
use std::alloc::Global;
use std::sync::Wait;

/// How many numbers a full buffer holds.
const FULL: u64 = 8;

/// How many looks a thread takes at most until the other comes.
const PATIENCE: u64 = 10_000_000;

/// A buffer of numbers, known by its own.
#[derive(Drop)]
pub struct Buffer {
    number: u64,
    items: Vec<u64>,
}

impl Marked for Buffer {
    ghost mark_of = { λ buffer. buffer.number };

    fn mark(&self) -> u64 {
        self.number
    }
}

impl Buffer {
    /// An empty buffer.
    pub fn new(alloc: Global, number: u64) -> Buffer {
        Buffer {
            number,
            items: Vec::new(alloc),
        }
    }

    /// Fills it with the numbers from 1 up.
    fn fill(&mut self) -> Result<(), Refusal> {
        for item in 1..=FULL {
            self.items.push(item).map_err(|_| Refusal::Memory)?;
        }
        Ok(())
    }

    /// Empties it, and returns the sum of what was in it.
    fn empty(&mut self) -> u64 {
        let mut sum = 0u64;
        for item in &self.items {
            sum = sum.saturating_add(*item);
        }
        self.items.clear();
        sum
    }
}

/// Exchanges this buffer for the other thread's.
fn exchange<R: Wait>(
    rt: &R,
    arena: &Arena<Buffer>,
    seat: Seat<Buffer>,
    buffer: Buffer,
) -> Result<(Seat<Buffer>, Buffer), Refusal>
    requires place { seat.arena ≡ arena.now.id }
    requires slot { 0 < arena.now.slots }
    ensures place { IfOk result (λ after. after.0.arena ≡ arena.now.id) }
{
    match arena.exchange(rt, seat, 0, buffer, Some(PATIENCE)) {
        Exchanged::Swapped(seat, other) => Ok((seat, other)),
        Exchanged::TimedOut(_, _) => Err(Refusal::NoThread), // nobody else is there
        Exchanged::Worn(_, _) => Err(Refusal::Worn),
        Exchanged::Memory(_, _) => Err(Refusal::Memory),
    }
}

/// Fills a buffer and exchanges it for an empty one, `rounds` times.
pub fn fill_all<R: Wait>(
    rt: &R,
    arena: &Arena<Buffer>,
    first: Seat<Buffer>,
    own: Buffer,
    rounds: u64,
) -> Result<Seat<Buffer>, Refusal>
    requires place { first.arena ≡ arena.now.id }
    requires slot { 0 < arena.now.slots }
    ensures place { IfOk result (λ seat. seat.arena ≡ arena.now.id) }
{
    let mut seat = first;
    let mut buffer = own;
    for _ in 0..rounds {
        buffer.fill()?;
        let (after, other) = exchange(rt, arena, seat, buffer)?;
        seat = after;
        buffer = other;
    }
    Ok(seat)
}

/// Exchanges a buffer that is empty for a full one and empties that, `rounds` times. Returns the sum of what was in
/// them.
pub fn empty_all<R: Wait>(
    rt: &R,
    arena: &Arena<Buffer>,
    first: Seat<Buffer>,
    own: Buffer,
    rounds: u64,
) -> Result<(Seat<Buffer>, u64), Refusal>
    requires place { first.arena ≡ arena.now.id }
    requires slot { 0 < arena.now.slots }
    ensures place { IfOk result (λ done. done.0.arena ≡ arena.now.id) }
{
    let mut seat = first;
    let mut buffer = own;
    let mut sum = 0u64;
    for _ in 0..rounds {
        let (after, other) = exchange(rt, arena, seat, buffer)?;
        seat = after;
        buffer = other;
        sum = sum.saturating_add(buffer.empty());
    }
    Ok((seat, sum))
}
