//! Gates (parkers), at which seats wait.

use std::sync::Wait;
use std::time::Clock;

/// Why a wait at a gate ended.
#[derive(Clone, Copy, PartialEq, Eq, Debug)]
pub enum Turn {
    /// Another thread woke the gate.
    Woken,
    /// The limit passed.
    Elapsed,
}

/// Where one seat waits (a parker). A gate is a hint: no clause states that a wait ends, nor why it did, so the thread
/// looks at the place again after a wait. It keeps one wake for the next wait, as `LockSupport.unpark` does for the
/// next `park`.
pub trait Gate {
    /// Waits until another thread wakes the gate, or for `limit` milliseconds if there is a limit.
    fn wait<R: Wait + Clock>(&self, rt: &R, limit: Option<u64>) -> Turn;

    /// Wakes the thread that waits here, or else the next that comes to wait.
    fn wake(&self);

    /// Returns true if waits here found the processors oversubscribed: other programs want them too. Then it is quicker
    /// to sleep than to let another thread run and look again. It is a hint; a gate that doesn't look for it returns
    /// false.
    fn is_oversubscribed(&self) -> bool {
        false
    }
}
