//! Where threads wait, and where each seat met a partner last. All of it is a hint: no contract rests on it.

ghost use Rattle.std.specs.Prelude.{◌≡◌, IfNone, IfErr};
ghost use Rattle.meet_tickets.specs.declared.refusals.Refusal.TheVariants.{Memory};
ghost use Rattle.meet_cells.specs.declared.gates.Turn.TheVariants.{Woken};

use crossbeam_utils::CachePadded;
use meet_cells::{Gate, SpinGate, Turn};
use meet_tickets::{Refusal, SeatNo};
use std::alloc::Global;
use std::sync::Wait;
use std::sync::atomic::{AtomicBool, AtomicUsize, Ordering};
use std::thread;
use std::time::Clock;

/// How many turns a gate looks for a wake before its thread parks: it has looked at the slot before.
const GATE_TURNS: u64 = 0;

/// Where one seat waits.
#[derive(Drop)]
struct Waiter {
    gate: SpinGate,
    /// Whether it waits at the gate, or is about to.
    waits: AtomicBool,
    /// The slot that it tries first.
    first_slot: AtomicUsize,
}

/// Where the seats wait, by their numbers, and which slots they use.
#[derive(Drop)]
pub(crate) struct Waiters {
    waiters: Vec<CachePadded<Waiter>>,
    used: CachePadded<AtomicUsize>,
}

impl Waiters {
    /// Creates them for this number of seats.
    ///
    /// # Errors
    /// - Memory, if an allocation fails.
    pub(crate) fn new(alloc: Global, seats: u64) -> Result<Waiters, Refusal>
        ensures memory { IfErr result (λ why. why ≡ Memory) }
    {
        let mut waiters = Vec::new(alloc);
        for _ in 0..seats {
            let waiter = Waiter {
                gate: SpinGate::new(GATE_TURNS),
                waits: AtomicBool::new(false),
                first_slot: AtomicUsize::new(0),
            };
            waiters
                .push(CachePadded::new(waiter))
                .map_err(|_| Refusal::Memory)?;
        }
        Ok(Waiters {
            waiters,
            used: CachePadded::new(AtomicUsize::new(1)),
        })
    }

    /// Returns where the seat of this number waits.
    fn of(&self, number: u64) -> Option<&CachePadded<Waiter>> {
        self.waiters.get(number as usize)
    }

    /// Returns the slot that this seat tries first.
    pub(crate) fn first_slot(&self, seat: SeatNo) -> usize {
        match self.of(seat.number()) {
            Some(waiter) => waiter.first_slot.load(Ordering::SeqCst),
            None => 0,
        }
    }

    /// Notes the slot that this seat tries first.
    pub(crate) fn begin_at(&self, seat: SeatNo, slot: usize) {
        if let Some(waiter) = self.of(seat.number()) {
            if waiter.first_slot.load(Ordering::SeqCst) != slot {
                waiter.first_slot.store(slot, Ordering::SeqCst);
            }
        }
    }

    /// Returns the number below which the slots are that are in use.
    pub(crate) fn used(&self) -> usize {
        self.used.load(Ordering::SeqCst)
    }

    /// Notes below which number the slots are that are in use.
    pub(crate) fn use_slots(&self, used: usize) {
        self.used.store(used, Ordering::SeqCst);
    }

    /// Announces that this seat is about to wait, or that it waits no more.
    pub(crate) fn announce(&self, seat: SeatNo, waits: bool) {
        if let Some(waiter) = self.of(seat.number()) {
            waiter.waits.store(waits, Ordering::SeqCst);
        }
    }

    /// Parks this seat's thread until it is woken, or until `limit` milliseconds have passed.
    pub(crate) fn park<R: Wait + Clock>(&self, rt: &R, seat: SeatNo, limit: Option<u64>) -> Turn
        ensures { IfNone limit (result ≡ Woken) }
    {
        match self.of(seat.number()) {
            Some(waiter) => waiter.gate.wait(rt, limit),
            None => {
                thread::yield_now(); // it is no seat of this exchanger, so nobody wakes it
                Turn::Woken
            }
        }
    }

    /// Wakes the thread of the seat of this number, if it has announced that it waits.
    pub(crate) fn wake(&self, number: u64) {
        if let Some(waiter) = self.of(number) {
            if waiter.waits.load(Ordering::SeqCst) {
                waiter.gate.wake();
            }
        }
    }
}
