//! The start of a task: no thread begins before all are there.

use std::sync::{Condvar, Mutex, Wait};

/// Where the threads wait until it is known whether all of them could be started.
#[derive(Drop)]
pub struct Start {
    all_there: Mutex<Option<bool>>,
    known: Condvar,
}

impl Start {
    /// Creates it: nothing is known yet.
    pub fn new() -> Start {
        Start {
            all_there: Mutex::new(None),
            known: Condvar::new(),
        }
    }

    /// Lets all threads begin, or all leave.
    pub fn decide<R: Wait>(&self, rt: &R, all_there: bool) {
        *self.all_there.lock(rt) = Some(all_there);
        self.known.notify_all();
    }

    /// Waits until it is known, and returns whether to begin.
    pub fn begins<R: Wait>(&self, rt: &R) -> bool {
        let unknown = self.all_there.lock(rt);
        *self.known.wait_while(rt, unknown, |there| there.is_none()) == Some(true)
    }
}
