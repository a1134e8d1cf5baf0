//! An order that a program can observe. One thread puts an item into a transfer queue, which buffers it, and then
//! raises a flag. Another waits for the flag, and polls. The flag carries a moment of the first thread's seat, and the
//! second thread's seat is shown it. So it is proved that the record of the poll stands after the record of the put.

ghost use Rattle.std.specs.Prelude.{◌≡◌, ◌<◌, ◌≤◌, ℕ, [], All, IfOk, IfSome, vec_len};
ghost use Rattle.ibisbookcase.specs.Ledgers.{AreOf};
ghost use Rattle.ibisbookcase.specs.Limits.{most_records};
ghost use Rattle.ibisbookcase.specs.Seats.{IsLater};

use crate::pairs::{Numbers, Sitting, closed, opened};
use ibisbookcase::queues::{End, Ended, Ledgers, Moment, NewQueue, ParkGate, Refusal};
use std::alloc::Global;
use std::marker::Brand;
use std::sync::{Condvar, Mutex, Wait};
use std::thread;
use std::thread::Threads;
use std::time::Clock;

/// A put, by the number of its record, and a moment after it.
#[derive(Drop)]
struct Note<N: Ledgers> {
    put: u64,
    moment: Moment<N>,
    ghost behind: { put ≤ moment },
}

/// What one thread shows the other.
#[derive(Drop)]
enum Flag<N: Ledgers> {
    /// Nothing yet.
    Down,
    /// The item was put.
    Up(Note<N>),
    /// The put was refused.
    Refused,
}

/// Where one thread shows the other.
#[derive(Drop)]
struct Board<N: Ledgers> {
    flag: Mutex<Flag<N>>,
    raised: Condvar,
}

impl<N: Ledgers> Board<N> {
    /// A board whose flag is down.
    fn new() -> Self {
        Board {
            flag: Mutex::new(Flag::Down),
            raised: Condvar::new(),
        }
    }

    /// Raises the flag.
    fn raise<R: Wait>(&self, rt: &R, note: Option<Note<N>>) {
        let mut flag = self.flag.lock(rt);
        *flag = match note {
            Some(note) => Flag::Up(note),
            None => Flag::Refused,
        };
        self.raised.notify_all();
    }

    /// Waits for the flag, and takes the note from the board.
    fn wait<R: Wait>(&self, rt: &R) -> Option<Note<N>> {
        let mut flag = self
            .raised
            .wait_while(rt, self.flag.lock(rt), |flag| matches!(flag, Flag::Down));
        match std::mem::replace(&mut *flag, Flag::Refused) {
            Flag::Up(note) => Some(note),
            Flag::Down | Flag::Refused => None,
        }
    }
}

/// What was put and polled: the number of each record in the log, and the item that was got.
#[derive(Drop)]
pub struct Observed {
    pub put: u64,
    pub poll: u64,
    pub item: Option<u64>,
    ghost later: { put < poll },
}

/// The number of the last record of a seat.
fn last_record<N: Ledgers>(seat: &Sitting<N>) -> Option<u64>
    ensures within { IfSome result (λ number. (before after : ℕ)
        → All (λ receipt. (before < receipt.place) × (receipt.place ≤ after)) seat.now.list
        → (before < number) × (number ≤ after)) }
{
    Some(seat.receipts().last()?.place())
}

/// The last record of a seat, which is a put, and the moment after it.
fn note_of<N: Ledgers>(seat: &Sitting<N>) -> Option<Note<N>>
    requires within { (before : ℕ) × IsLater before seat.now.moment [] seat.now.list }
{
    Some(Note {
        put: last_record(seat)?,
        moment: seat.moment(),
    })
}

/// Puts the number 7, and then raises the flag.
fn put_and_note<N: Ledgers, R: Wait + Clock>(
    rt: &R,
    queue: &Numbers<N>,
    seat: Sitting<N>,
    board: &Board<N>,
) -> Sitting<N>
    requires fresh { seat.list ≡ [] }
{
    match queue.put(rt, seat, 7) {
        Ok(ended) => {
            board.raise(rt, note_of(&ended.seat));
            ended.seat
        }
        Err(refused) => {
            board.raise(rt, None);
            refused.seat
        }
    }
}

/// Shows a seat the moment of this note, and polls.
fn poll_behind<N: Ledgers, R: Wait + Clock>(
    rt: &R,
    queue: &Numbers<N>,
    seat: Sitting<N>,
    note: &Note<N>,
) -> (Sitting<N>, Option<Observed>)
    requires fresh { seat.list ≡ [] }
{
    let mut seat = seat;
    seat.learn(&note.moment);
    match queue.poll(rt, seat) {
        Ok(Ended { seat, end }) => {
            let observed = match last_record(&seat) {
                Some(poll) => Some(Observed {
                    put: note.put,
                    poll,
                    item: match end {
                        End::Got(_, item) => Some(item),
                        _ => None,
                    },
                }),
                None => None,
            };
            (seat, observed)
        }
        Err(refused) => (refused.seat, None),
    }
}

/// Waits for the flag, and then polls.
fn wait_and_poll<N: Ledgers, R: Wait + Clock>(
    rt: &R,
    queue: &Numbers<N>,
    seat: Sitting<N>,
    board: &Board<N>,
) -> (Sitting<N>, Option<Observed>)
    requires fresh { seat.list ≡ [] }
{
    match board.wait(rt) {
        Some(note) => poll_behind(rt, queue, seat, &note),
        None => (seat, None),
    }
}

/// Puts and polls at a queue of these parts.
fn put_and_poll_at<N, R>(
    rt: &R,
    alloc: Global,
    parts: NewQueue<ParkGate>,
) -> Result<Observed, Refusal>
where
    N: Ledgers + Send + Sync,
    R: Threads + Wait + Clock + Sync,
    requires ledgers { AreOf N.name N.folds N.moments N.parts parts.blanks }
    requires one_each { N.parts ≡ vec_len parts.gates }
    requires cap { N.cap ≡ most_records }
    ensures later { IfOk result (λ observed. observed.put < observed.poll) }
{
    let (queue, (first, second)) = opened::<N>(alloc, parts)?;
    let board = Board::new();
    let (first, (second, observed)) = thread::join(
        rt,
        || put_and_note(rt, &queue, first, &board),
        || wait_and_poll(rt, &queue, second, &board),
    );
    closed(alloc, queue, first, second)?;
    observed.ok_or(Refusal::Memory)
}

/// Puts an item in one thread, and polls in another that learned of it: the poll's record stands after the put's. Only
/// memory can run out.
pub fn put_then_poll<R>(rt: &R, alloc: Global) -> Result<Observed, Refusal>
where
    R: Threads + Wait + Clock + Sync,
    ensures later { IfOk result (λ observed. observed.put < observed.poll) }
{
    let parts = NewQueue::parked(alloc, 2)?;
    put_and_poll_at::<Brand, R>(rt, alloc, parts)
}

/// Puts and polls, and prints the numbers of both records.
pub fn print_order<R>(rt: &R, alloc: Global) -> Result<(), Refusal>
where
    R: Threads + Wait + Clock + Print + Sync,
{
    let Observed { put, poll, item } = put_then_poll(rt, alloc)?;
    println!(rt;
        "record {put} is the put, record {poll} the poll behind it, which got {}",
        item.unwrap_or(0)
    )
    .map_err(|_| Refusal::WriteFault)
}
