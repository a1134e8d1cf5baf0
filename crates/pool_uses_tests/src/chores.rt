//! Jobs of the tests: each answers its tag, and one may look for others first.

ghost use Rattle.std.specs.Prelude.{◌<◌};

use pool_threads::{Call, ItsTag};
use std::alloc::Global;
use std::process::Abort;
use std::sync::Arc;
use std::sync::atomic::{AtomicBool, AtomicU64, Ordering};
use std::test::*;
use std::thread;
use std::time::{Clock, Duration};

/// What jobs and their test tell one another.
#[derive(Drop)]
pub(crate) struct Flags {
    first: AtomicBool,
    second: AtomicBool,
    seen: AtomicU64,
    go: AtomicBool,
}

impl Flags {
    /// None is set.
    pub(crate) fn new(rt: &impl Abort, alloc: Global) -> Arc<Self> {
        let flags = Flags {
            first: AtomicBool::new(false),
            second: AtomicBool::new(false),
            seen: AtomicU64::new(0),
            go: AtomicBool::new(false),
        };
        Arc::new(alloc, flags).expect(rt, "no memory")
    }

    /// Lets the jobs come to their ends.
    pub(crate) fn set(&self) {
        self.go.store(true, Ordering::SeqCst);
    }

    /// How many jobs saw another one at work.
    pub(crate) fn seen(&self) -> u64 {
        self.seen.load(Ordering::SeqCst)
    }
}

/// Another hold of these flags.
pub(crate) fn another(rt: &impl Abort, flags: &Arc<Flags>) -> Arc<Flags> {
    Arc::try_clone(flags).expect(rt, "too many holds")
}

/// Looks for a flag, at most 10,000 times, 1 ms apart: whether it was set.
fn look<R: Clock>(rt: &R, flag: &AtomicBool) -> bool {
    for _ in 0..10_000 {
        if flag.load(Ordering::SeqCst) {
            return true;
        }
        thread::sleep(rt, Duration::from_millis(1));
    }
    false
}

/// What a job does before it answers.
#[derive(Drop)]
pub(crate) enum Before<R> {
    Nothing,
    /// It sets the first flag, looks for the second, and then for the test's.
    First(R, Arc<Flags>),
    /// It sets the second flag, looks for the first, and then for the test's.
    Second(R, Arc<Flags>),
    /// It looks for the test's.
    Go(R, Arc<Flags>),
}

impl<R: Clock + Drop> Before<R> {
    fn make(self) {
        match self {
            Before::Nothing => {}
            Before::First(rt, flags) => meet(&rt, &flags, &flags.first, &flags.second),
            Before::Second(rt, flags) => meet(&rt, &flags, &flags.second, &flags.first),
            Before::Go(rt, flags) => {
                let _ = look(&rt, &flags.go);
            }
        }
    }
}

/// Sets a flag, looks for the other, and then for the test's.
fn meet<R: Clock>(rt: &R, flags: &Flags, mine: &AtomicBool, other: &AtomicBool) {
    mine.store(true, Ordering::SeqCst);
    if look(rt, other) {
        flags.seen.fetch_add(1, Ordering::SeqCst);
    }
    let _ = look(rt, &flags.go);
}

/// A job of this tag, which it answers.
#[derive(Drop)]
pub(crate) struct Chore<R> {
    pub tag: u64,
    pub before: Before<R>,
}

impl<R> Chore<R> {
    /// A job that does nothing else.
    pub(crate) fn new(tag: u64) -> Self {
        Chore {
            tag,
            before: Before::Nothing,
        }
    }
}

impl<R: Clock + Drop> Call<ItsTag> for Chore<R> {
    ghost tag_of = { λ chore. chore.tag };

    fn tag(&self) -> u64 {
        self.tag
    }

    fn make(self) -> u64 {
        let Chore { tag, before } = self;
        before.make();
        tag
    }
}
