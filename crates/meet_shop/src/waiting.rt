//! Gates: two that never wait, and those at which threads park or spin.

use meet_cells::{ParkGate, SpinGate};
use meet_sync::{Gate, Turn};
use std::alloc::Global;
use std::sync::Wait;
use std::time::Clock;

/// A gate that can be made.
pub trait Fresh: Gate + Drop {
    /// A gate that nobody woke.
    fn fresh() -> Self;
}

/// So many gates.
pub fn gates<G: Fresh>(alloc: Global, count: u64) -> Result<Vec<G>, &'static str> {
    let mut gates = Vec::new(alloc);
    for _ in 0..count {
        gates.push(G::fresh()).map_err(|_| "memory")?;
    }
    Ok(gates)
}

/// A gate at which each wait is over at once, as if its limit had passed.
#[derive(Drop)]
pub struct Idle {}

impl Fresh for Idle {
    fn fresh() -> Idle {
        Idle {}
    }
}

impl Gate for Idle {
    fn wait<R: Wait + Clock>(&self, _rt: &R, _limit: Option<u64>) -> Turn {
        Turn::Elapsed
    }

    fn wake(&self) {}
}

/// A gate at which each wait is over at once, as if somebody had woken it.
#[derive(Drop)]
pub struct Eager {}

impl Fresh for Eager {
    fn fresh() -> Eager {
        Eager {}
    }
}

impl Gate for Eager {
    fn wait<R: Wait + Clock>(&self, _rt: &R, _limit: Option<u64>) -> Turn {
        Turn::Woken
    }

    fn wake(&self) {}
}

impl Fresh for ParkGate {
    fn fresh() -> ParkGate {
        ParkGate::new()
    }
}

/// It spins a hundred turns before it parks.
impl Fresh for SpinGate {
    fn fresh() -> SpinGate {
        SpinGate::new(100)
    }
}
