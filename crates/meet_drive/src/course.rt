//! Calls of a demo run: each is split, so that a thread that waits can be stopped.

use crate::history::History;
use crate::progress::Progress;
use meet_cells::{Gate, ParkGate, Turn};
use meet_sync::{
    Answer, Asked, FairSeats, Followed, Ledgers, Pending, Request, Seat, SyncQueue, TakenBack,
};
use meet_tickets::{Deed, Record, Refusal, SeatNo};
use std::alloc::Global;
use std::sync::atomic::{AtomicBool, AtomicU64, Ordering};
use std::sync::{Mutex, Wait};
use std::time::Clock;

/// A second, in milliseconds.
const SECOND: u64 = 1_000;

/// What the threads of a demo run share: the queue, the chapters that it handed out, whether all are to stop, and how
/// far they are.
#[derive(Drop)]
pub struct Course<G, N: Ledgers> {
    queue: SyncQueue<u64, FairSeats<u64>, G, N>,
    /// How many records there may be before they are handed out.
    most: u64,
    history: Mutex<History>,
    /// How many records were handed out so far.
    told: AtomicU64,
    alloc: Global,
    stopped: AtomicBool,
    /// How many items were taken so far.
    taken: AtomicU64,
    /// How many threads are at work, the one that starts them included while it does.
    busy: AtomicU64,
    /// Woken once none is.
    ended: ParkGate,
}

/// How a call of a demo run ended.
#[derive(Clone, Copy, PartialEq, Eq, Debug)]
pub enum Passed {
    /// The producer's item was taken.
    Gave,
    /// The consumer got this item.
    Got(u64),
    /// All are to stop.
    Stopped,
    /// The call failed with this reason.
    Refused(Refusal),
}

impl<G, N: Ledgers> Course<G, N> {
    /// Creates a course over this queue, whose records are handed out after more than `most` were written.
    pub fn new(alloc: Global, queue: SyncQueue<u64, FairSeats<u64>, G, N>, most: u64) -> Self {
        Course {
            queue,
            most,
            history: Mutex::new(History::new(alloc)),
            told: AtomicU64::new(0),
            alloc,
            stopped: AtomicBool::new(false),
            taken: AtomicU64::new(0),
            busy: AtomicU64::new(1),
            ended: ParkGate::new(),
        }
    }

    /// Returns the queue, and the records that it handed out.
    pub fn into_parts(self) -> (SyncQueue<u64, FairSeats<u64>, G, N>, Vec<Record<Deed>>) {
        let Course { queue, history, .. } = self;
        (queue, history.into_inner().into_records())
    }

    /// Has the records so far handed out if there may be more than `most`, so that the log never fills. Returns the
    /// seat, and the reason, if that failed.
    pub fn tend<R: Wait>(&self, rt: &R, seat: Seat<Deed, N>) -> (Seat<Deed, N>, Option<Refusal>) {
        let last = seat.receipts().last().map_or(0, |receipt| receipt.place());
        if last.saturating_sub(self.told.load(Ordering::Relaxed)) <= self.most {
            return (seat, None);
        }
        let mut history = self.history.lock(rt);
        if last.saturating_sub(history.count()) <= self.most {
            return (seat, None);
        }
        match self.queue.rotate(rt, seat, history.take_room(self.alloc)) {
            Ok((seat, chapter)) => {
                let why = history.append(chapter).err();
                self.told.store(history.count(), Ordering::Relaxed);
                (self.queue.trim(rt, seat), why)
            }
            Err(refused) => (refused.seat, Some(refused.why)),
        }
    }

    /// Counts one more thread at work.
    pub fn begin(&self) {
        self.busy.fetch_add(1, Ordering::SeqCst);
    }

    /// Counts one thread less at work, and wakes the one that watches after the last.
    pub fn end(&self) {
        if self.busy.fetch_sub(1, Ordering::SeqCst) == 1 {
            self.ended.wake();
        }
    }

    /// Counts one more item that was taken.
    pub fn count_taken(&self) {
        self.taken.fetch_add(1, Ordering::Relaxed);
    }

    /// Waits until no thread is at work; each second it reports how many of all items were taken so far.
    pub fn watch<R: Wait + Clock, P: Progress>(&self, rt: &R, progress: &P, all: u64) {
        for _ in rt.forever() {
            if self.ended.wait(rt, Some(SECOND)) == Turn::Woken {
                return;
            }
            if self.busy.load(Ordering::SeqCst) == 0 {
                return;
            }
            progress.tell(self.taken.load(Ordering::Relaxed), all);
        }
    }

    /// Returns true if all are to stop.
    pub fn is_stopped(&self) -> bool {
        self.stopped.load(Ordering::SeqCst)
    }
}

impl<G: Gate, N: Ledgers> Course<G, N> {
    /// Stops all: a thread that waits is woken, and cancels its request.
    pub fn stop(&self) {
        self.stopped.store(true, Ordering::SeqCst);
        for number in 0..self.queue.seats() {
            if let Some(seat) = SeatNo::new(number) {
                self.queue.wake(seat);
            }
        }
    }

    /// Follows an open ticket up. Returns its seat, and how its call ended; or the ticket as it was.
    fn look<R: Wait>(
        &self,
        rt: &R,
        pending: Pending<Deed, N>,
    ) -> Result<(Seat<Deed, N>, Passed), Pending<Deed, N>> {
        match self.queue.follow_up(rt, pending) {
            Followed::Done(seat) => Ok((seat, Passed::Gave)),
            Followed::Got(seat, _, item) => Ok((seat, Passed::Got(item))),
            // Nobody interrupts a drive.
            Followed::Interrupted(seat, _) => Ok((seat, Passed::Stopped)),
            Followed::NotYet(again) => Err(again),
        }
    }

    /// Waits for the completion of an open ticket. If all are to stop it is cancelled, unless it was matched before.
    fn await_end<R: Wait + Clock>(
        &self,
        rt: &R,
        first: Pending<Deed, N>,
    ) -> (Seat<Deed, N>, Passed) {
        let mut pending = first;
        for _ in rt.forever() {
            if self.is_stopped() {
                match self.queue.cancel(rt, pending) {
                    TakenBack::Back(seat, _) => return (seat, Passed::Stopped),
                    TakenBack::Late(again) => pending = again,
                }
            } else {
                let _ = self.queue.wait(rt, &pending, None);
            }
            match self.look(rt, pending) {
                Ok(ended) => return ended,
                Err(again) => pending = again,
            }
        }
        unreachable!() // it loops for ever
    }

    /// Makes a call, and waits for its completion. Returns the seat, and how the call ended.
    pub fn pass<R: Wait + Clock>(
        &self,
        rt: &R,
        seat: Seat<Deed, N>,
        request: Request<u64>,
    ) -> (Seat<Deed, N>, Passed) {
        let asked = match self.queue.request(rt, seat, request) {
            Ok(asked) => asked,
            Err(refused) => return (refused.seat, Passed::Refused(refused.why)),
        };
        match asked {
            Asked::Parked(pending) => self.await_end(rt, pending),
            Asked::Settled(seat, answer) => match answer {
                Answer::Gave(_) => (seat, Passed::Gave),
                Answer::Got(_, item) => (seat, Passed::Got(item)),
                // A call that waits doesn't fail, a synchronous queue keeps nothing, and nobody is flagged in a drive.
                Answer::Failed(_) | Answer::Kept => (seat, Passed::Stopped),
                Answer::EntryInterrupted(_) => (seat, Passed::Stopped),
            },
        }
    }
}
