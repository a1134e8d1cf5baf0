//! A gate at which a thread spins before it parks.

ghost use Rattle.std.specs.Prelude.{◌≡◌, IfNone, IfOk, IfErr, vec_len};
ghost use Rattle.meet_cells.specs.declared.gates.Turn.TheVariants.{Woken};
ghost use Rattle.meet_tickets.specs.declared.refusals.Refusal.TheVariants.{Memory};

use crate::gates::{Gate, Turn};
use crate::parking::ParkGate;
use meet_tickets::Refusal;
use std::alloc::Global;
use std::sync::Wait;
use std::time::Clock;

/// A gate at which a thread looks for a wake some turns, and then parks as at a `ParkGate`: as the transferers of
/// `SynchronousQueue` spin before they park. After each turn it lets another thread run, as by `Thread.yield`; if that
/// takes long, this wait and the next ones park at once, as at a `ParkGate`. The time of the turns counts towards the
/// limit, which is checked after they are over.
#[derive(Drop)]
pub struct SpinGate {
    gate: ParkGate,
    turns: u64,
}

impl SpinGate {
    /// Creates a gate without a wake. Each wait spins for `turns` turns before it parks; at 0 it parks at once.
    pub fn new(turns: u64) -> SpinGate {
        SpinGate {
            gate: ParkGate::new(),
            turns,
        }
    }

    /// Creates `count` gates without a wake, one for each seat of a place. Each wait spins for `turns` turns before it
    /// parks.
    ///
    /// # Errors
    /// - Memory, if an allocation fails.
    pub fn many(alloc: Global, count: u64, turns: u64) -> Result<Vec<SpinGate>, Refusal>
        ensures count { IfOk result (λ gates. vec_len gates ≡ count) }
        ensures memory { IfErr result (λ why. why ≡ Memory) }
    {
        let mut gates = Vec::new(alloc);
        for _ in 0..count {
            gates
                .push(SpinGate::new(turns))
                .map_err(|_| Refusal::Memory)?;
        }
        Ok(gates)
    }
}

impl Gate for SpinGate {
    /// Spins, and then parks until another thread wakes the gate, or until `limit` milliseconds passed. Without a limit
    /// only a wake ends it.
    fn wait<R: Wait + Clock>(&self, rt: &R, limit: Option<u64>) -> Turn
        ensures { IfNone limit (result ≡ Woken) }
    {
        self.gate.spin_and_park(rt, self.turns, limit)
    }

    fn wake(&self) {
        self.gate.wake();
    }

    /// Returns true if a turn took long, and the next wait parks at once therefore.
    fn is_oversubscribed(&self) -> bool {
        self.gate.is_oversubscribed()
    }
}
