//! Requests that are taken back from the middle of a wait queue: how long each takes.
//!
//! Each of WAITING seats of a fair queue makes a request that waits. Then, ROUNDS times, the first request of the second
//! half is taken back, and its seat makes another, which goes to the end. A line says how many requests were taken back,
//! and how many records there are. One on standard error says how long these calls took.

ghost use Rattle.std.specs.Prelude.{◌≡◌, vec_len};
ghost use Rattle.meet_place.specs.Ledgers.{AreOf};
ghost use Rattle.meet_tickets.specs.Limits.{most_records};

use crate::counting::{Spread, note, now};
use meet_cells::ParkGate;
use meet_sync::{
    Asked, Back, FairSeats, Ledgers, NewQueue, Pending, Request, Seat, SyncQueue, TakenBack,
};
use meet_tickets::{Deed, Refusal};
use std::alloc::Global;
use std::collections::VecDeque;
use std::marker::Brand;
use std::mem::ManuallyDrop;
use std::sync::Wait;
use std::time::Clock;

/// The queue at which requests wait.
type Waiting<N> = SyncQueue<u64, FairSeats<u64>, ParkGate, N>;

/// The seats of a queue, by the order of their requests in its wait queue.
#[derive(Drop)]
struct Waiters<N: Ledgers> {
    /// The first half, which stays.
    ahead: Vec<Back<Deed, N>>,
    /// The second half, whose first request is taken back.
    behind: VecDeque<Back<Deed, N>>,
    /// How long each of these calls took.
    times: Vec<u128>,
    /// Why a call was refused, if one was.
    why: Option<Refusal>,
}

impl<N: Ledgers> Waiters<N> {
    /// Notes why a call was refused, unless one was before.
    fn blame(&mut self, why: Refusal) {
        self.why = self.why.or(Some(why));
    }

    /// A seat makes a request that waits.
    fn enter<R: Wait>(&mut self, rt: &R, queue: &Waiting<N>, seat: Seat<Deed, N>) -> Back<Deed, N> {
        match queue.request(rt, seat, Request::Take) {
            Ok(Asked::Parked(pending)) => Back::Held(pending),
            Ok(Asked::Settled(seat, _)) => Back::Free(seat),
            Err(refused) => {
                self.blame(refused.why);
                Back::Free(refused.seat)
            }
        }
    }

    /// All these seats make requests that wait.
    fn fill<R: Wait>(&mut self, rt: &R, queue: &Waiting<N>, seats: Vec<Seat<Deed, N>>) {
        let half = seats.len() / 2;
        for seat in seats {
            let back = self.enter(rt, queue, seat);
            let is_kept = if self.ahead.len() < half {
                self.ahead.push(back).is_ok()
            } else {
                self.behind.push_back(back).is_ok()
            };
            if !is_kept {
                self.blame(Refusal::Memory);
            }
        }
    }

    /// Takes a request back, and notes how long that took.
    fn leave<R: Wait + Clock>(
        &mut self,
        rt: &R,
        queue: &Waiting<N>,
        pending: Pending<Deed, N>,
    ) -> TakenBack<u64, N> {
        let start = now(rt);
        let taken = queue.cancel(rt, pending);
        note(rt, start, &mut self.times);
        taken
    }

    /// The first request of the second half is taken back, and its seat makes another. Returns whether one was.
    fn turn<R: Wait + Clock>(&mut self, rt: &R, queue: &Waiting<N>) -> bool {
        let Some(first) = self.behind.pop_front() else {
            return false;
        };
        let (back, is_taken) = match first {
            Back::Free(seat) => (Back::Free(seat), false),
            Back::Held(pending) => match self.leave(rt, queue, pending) {
                TakenBack::Back(seat, _) => (self.enter(rt, queue, seat), true),
                TakenBack::Late(pending) => (Back::Held(pending), false),
            },
        };
        if self.behind.push_back(back).is_err() {
            self.blame(Refusal::Memory);
        }
        is_taken
    }

    /// All seats, and the times; or why a call was refused.
    fn into_parts(self) -> (Vec<Back<Deed, N>>, Result<Vec<u128>, Refusal>) {
        let Waiters {
            ahead,
            behind,
            times,
            why,
        } = self;
        let mut backs = ahead;
        let mut refused = why;
        for back in behind {
            if backs.push(back).is_err() {
                refused = refused.or(Some(Refusal::Memory));
            }
        }
        match refused {
            Some(why) => (backs, Err(why)),
            None => (backs, Ok(times)),
        }
    }
}

/// What came of the calls: how many requests were taken back, how many records there are, and how long the calls took.
#[derive(Clone, Copy)]
struct Withdrawn {
    taken: u64,
    records: u64,
    spread: Spread,
}

/// Makes the calls at a queue of these parts, and closes it.
fn run_at<N: Ledgers, R: Wait + Clock>(
    rt: &R,
    alloc: Global,
    parts: NewQueue<ParkGate>,
    rounds: u64,
) -> Result<Withdrawn, Refusal>
    requires ledgers { AreOf N.name N.folds N.moments N.parts parts.blanks }
    requires one_each { N.parts ≡ vec_len parts.gates }
    requires cap { N.cap ≡ most_records }
{
    let mut waiters = Waiters {
        ahead: Vec::new(alloc),
        behind: VecDeque::new(alloc),
        times: Vec::new(alloc),
        why: None,
    };
    let (queue, seats) = match Waiting::<N>::new(alloc, parts) {
        Ok(made) => made,
        Err(refused) => return Err(refused.into_why()), // the gates and the ledgers are dropped
    };
    waiters.fill(rt, &queue, seats);
    let mut taken = 0u64;
    for _ in 0..rounds {
        if waiters.turn(rt, &queue) {
            taken = taken.saturating_add(1);
        }
    }
    let (backs, timed) = waiters.into_parts();
    match queue.close(alloc, backs) {
        Ok(chronicle) => Ok(Withdrawn {
            taken,
            records: chronicle.records.len() as u64,
            spread: Spread::of(timed?),
        }),
        Err(fault) => {
            let why = fault.why();
            let _kept = ManuallyDrop::new(fault);
            Err(why)
        }
    }
}

/// Takes requests back, and prints what came of it.
///
/// # Errors
/// - The error of the first call that fails, or of the close.
/// - WriteFault, if a line can't be printed; Memory, if an allocation fails.
pub fn run<R>(rt: &R, alloc: Global, waiting: u64, rounds: u64) -> Result<(), Refusal>
where
    R: Wait + Clock + Print + Eprint,
{
    let parts = NewQueue::parked(alloc, waiting)?;
    let Withdrawn {
        taken,
        records,
        spread,
    } = run_at::<Brand, R>(rt, alloc, parts, rounds)?;
    println!(rt; "taken back {taken} records {records}").map_err(|_| Refusal::WriteFault)?;
    eprintln!(rt; "withdrawal {spread}").map_err(|_| Refusal::WriteFault)
}
