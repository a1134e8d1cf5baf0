//! A gate that tells who looks at it whether somebody waits there, and whether it was woken.

use meet_sync::{Gate, Turn};
use std::sync::atomic::{AtomicBool, AtomicU64, Ordering};
use std::sync::{Arc, Wait};
use std::thread;
use std::time::{Clock, Duration};

/// How often a flag is looked at, a millisecond apart, before it is given up.
const LOOKS: u64 = 10_000;

/// What happened at a gate.
#[derive(Drop)]
pub struct Flags {
    entered: AtomicBool,
    limit: AtomicU64,
    raised: AtomicBool,
}

impl Flags {
    /// Nothing happened yet.
    pub fn new() -> Flags {
        Flags {
            entered: AtomicBool::new(false),
            limit: AtomicU64::new(0),
            raised: AtomicBool::new(false),
        }
    }

    /// The limit of the first wait, in milliseconds; the greatest number where it had none, and 0 where nobody waited.
    pub fn limit(&self) -> u64 {
        self.limit.load(Ordering::SeqCst)
    }

    /// Whether the gate was woken.
    pub fn is_raised(&self) -> bool {
        self.raised.load(Ordering::SeqCst)
    }

    /// Waits until somebody waits at the gate, ten seconds at most: whether somebody does.
    pub fn await_entry<R: Wait + Clock>(&self, rt: &R) -> bool {
        comes(rt, &self.entered)
    }
}

/// Waits until a flag is set, ten seconds at most: whether it was.
fn comes<R: Wait + Clock>(rt: &R, flag: &AtomicBool) -> bool {
    for _ in 0..LOOKS {
        if flag.load(Ordering::SeqCst) {
            return true;
        }
        thread::sleep(rt, Duration::from_millis(1));
    }
    false
}

/// A gate that notes what happens there. A wait ends once the gate was ever woken, and after ten seconds, whatever its
/// limit.
#[derive(Drop)]
pub struct FlagGate {
    flags: Arc<Flags>,
}

impl FlagGate {
    /// A gate with these flags.
    pub fn new(flags: Arc<Flags>) -> FlagGate {
        FlagGate { flags }
    }
}

impl Gate for FlagGate {
    fn wait<R: Wait + Clock>(&self, rt: &R, limit: Option<u64>) -> Turn {
        if !self.flags.entered.load(Ordering::SeqCst) {
            self.flags
                .limit
                .store(limit.unwrap_or(u64::MAX), Ordering::SeqCst);
            self.flags.entered.store(true, Ordering::SeqCst);
        }
        if comes(rt, &self.flags.raised) {
            Turn::Woken
        } else {
            Turn::Elapsed
        }
    }

    fn wake(&self) {
        self.flags.raised.store(true, Ordering::SeqCst);
    }
}
