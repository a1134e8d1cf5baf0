//! A demo run from its start to its end.

ghost use Rattle.std.specs.Prelude.{◌≡◌, ◌<◌, ◌≤◌, ◌*◌, true, false, Some, [], length, IfOk, vec_len};
ghost use Rattle.std.specs.Vec.{vec_capacity};
ghost use Rattle.meet_place.specs.Ledgers.{AreOf};
ghost use Rattle.meet_tickets.specs.declared.refusals.Refusal.TheVariants.{NoThread};
ghost use Rattle.meet_drive.specs.Driven.{IsDriven, IsSized};

use crate::course::Course;
use crate::outcome::Drive;
use crate::progress::{Progress, Silent};
use crate::takings::{count_got, sum_got};
use crate::threads::{Count, NOTHING, Slot, run_all};
use meet_cells::{Gate, ParkGate};
use meet_history::{CheckFault, check};
use meet_laws::delivered;
use meet_sync::{Back, Chronicle, Ledgers, NewQueue, Seat, SyncQueue};
use meet_tickets::{Base, Deed, Kind, Order, Record, Refusal};
use std::alloc::Global;
use std::marker::Brand;
use std::sync::{Mutex, Wait};
use std::thread::Threads;
use std::time::Clock;

/// The most producers of a demo run, and the most consumers: 64.
pub const MOST_GIVERS: u64 = 64;

/// The most items that each of them gives or takes: 1,000.
pub const MOST_EACH: u64 = 1000;

/// How many records a demo run's queue holds for each of its seats.
const RECORDS_OF_A_SEAT: u64 = 64;

/// The queue's kind.
const FAIR: Kind = Kind {
    order: Order::Fair,
    bound: None,
};

/// Slots with these seats, in their order. The empty list has room for them.
fn slots_of<N: Ledgers>(
    seats: Vec<Seat<Deed, N>>,
    empty: Vec<Mutex<Slot<N>>>,
) -> Vec<Mutex<Slot<N>>>
    requires empty { empty.items ≡ [] }
    requires room { vec_len seats ≤ vec_capacity empty }
    ensures count { vec_len result ≡ vec_len seats }
{
    let mut slots = empty;
    for seat in seats {
        slots.push_reserved(Mutex::new(Slot {
            seat: Some(seat),
            count: NOTHING,
        }));
    }
    slots
}

/// The seats of these slots, to be returned, and what their threads counted together. The empty list has room for them.
fn seats_of<N: Ledgers>(
    slots: Vec<Mutex<Slot<N>>>,
    empty: Vec<Back<Deed, N>>,
) -> (Vec<Back<Deed, N>>, Count)
    requires empty { empty.items ≡ [] }
    requires room { vec_len slots ≤ vec_capacity empty }
{
    let mut backs = empty;
    let mut counted = NOTHING;
    for slot in slots {
        let Slot { seat, count } = slot.into_inner();
        counted = counted.with(count);
        if let Some(seat) = seat {
            backs.push_reserved(Back::Free(seat));
        }
    }
    (backs, counted)
}

/// Why a demo run ended early, if it did: a thread couldn't be started, or else the reason of the first call that
/// failed.
fn ended_early(all_started: bool, counted: Count) -> Option<Refusal>
    ensures unstarted { all_started ≡ false → result ≡ Some NoThread }
    ensures refused { all_started ≡ true → result ≡ counted.why }
{
    if all_started {
        counted.why
    } else {
        Some(Refusal::NoThread)
    }
}

/// What a log states of a demo run of this many producers and consumers of `each` items, whose consumers counted so. By
/// the records the consumers got what they counted, and all that was given; otherwise it is Differs.
fn told(
    alloc: Global,
    records: &[Record<Deed>],
    counted: Count,
    givers: u64,
    each: u64,
) -> Result<Drive, Refusal>
    requires sized { IsSized givers each }
    ensures driven { IfOk result (λ drive. IsDriven givers each drive) }
    ensures all { IfOk result (λ drive. drive.records ≡ length records.now) }
{
    let items = count_got(records);
    let sum = sum_got(records).ok_or(Refusal::Differs)?;
    if items != counted.items || sum != counted.sum {
        return Err(Refusal::Differs);
    }
    if items != givers * each || sum.checked_mul(2) != Some(items * (each + 1)) {
        return Err(Refusal::Differs);
    }
    let first = Base::empty(alloc);
    match check(alloc, FAIR, &first, records) {
        Ok(standing) => Ok(Drive {
            items,
            sum,
            pairs: delivered(&first, records),
            records: records.len() as u64,
            standing,
        }),
        Err(CheckFault::Memory) => Err(Refusal::Memory),
        // A queue that was closed has a legal history.
        Err(CheckFault::Illegal { .. }) => Err(Refusal::Differs),
    }
}

/// What the threads of a demo run leave: the records that were handed out while they ran, the queue's own at its end,
/// and what was counted.
#[derive(Drop)]
struct Ended {
    handed: Vec<Record<Deed>>,
    chronicle: Chronicle<u64>,
    counted: Count,
}

/// The threads of a demo run, from the first to the last, and the end of their queue: one of these parts, whose records
/// are this many at most, and are handed out after there are more than `most`. Half of its seats give, the others take.
fn driving<G, N, R, P>(
    rt: &R,
    alloc: Global,
    parts: NewQueue<G>,
    each: u64,
    cap: u64,
    most: u64,
    progress: &P,
) -> Result<Ended, Refusal>
where
    P: Progress,
    G: Gate + Drop + Send + Sync,
    N: Ledgers + Send + Sync,
    R: Threads + Wait + Clock + Sync,
    requires ledgers { AreOf N.name N.folds N.moments N.parts parts.blanks }
    requires one_each { N.parts ≡ vec_len parts.gates }
    requires cap { N.cap ≡ cap }
    ensures cap { IfOk result (λ ended. length ended.chronicle.records.items ≤ cap) }
{
    let count = parts.gates.len();
    let Ok(slots) = Vec::with_capacity(alloc, count) else {
        return Err(Refusal::Memory);
    };
    let Ok(backs) = Vec::with_capacity(alloc, count) else {
        return Err(Refusal::Memory);
    };
    let (queue, seats) = match SyncQueue::with_cap(alloc, parts, cap) {
        Ok(made) => made,
        Err(refused) => return Err(refused.into_why()), // the gates and the ledgers are dropped
    };
    let course = Course::new(alloc, queue, most);
    let slots = slots_of::<N>(seats, slots);
    let all_started = run_all(rt, &course, slots.as_slice(), each, progress);
    let (backs, counted) = seats_of(slots, backs);
    let (queue, handed) = course.into_parts();
    let chronicle = match queue.close(alloc, backs) {
        Ok(chronicle) => chronicle,
        Err(fault) => return Err(fault.into_why()), // the queue and the seats are dropped
    };
    match ended_early(all_started, counted) {
        Some(why) => Err(why),
        None => Ok(Ended {
            handed,
            chronicle,
            counted,
        }),
    }
}

/// Makes a demo run of a synchronous queue in fair mode. Each of `givers` producers, 1 to `MOST_GIVERS`, puts the items
/// from 1 up to `each`, at most `MOST_EACH`; as many consumers take as many. Each is a thread. Then the queue is
/// closed, and its log is checked. The queue holds 64 records a seat, and its log is handed out chapter by chapter
/// meanwhile.
///
/// # Errors
/// Every thread has been stopped, and the queue closed all the same.
/// - NoThread, if a thread can't be started.
/// - The error of the first call of the queue that failed.
/// - Differs, if the log states other items than were counted, which none of a queue does.
/// - Memory, if an allocation fails.
///
/// # Example
/// From `crates/meet_drive_tests/src/drives.rt`:
///
///     assert_eq!(&rt; drive(&rt, rt.alloc(), 4, 100), whole(400, 20_200));
pub fn drive<R>(rt: &R, alloc: Global, givers: u64, each: u64) -> Result<Drive, Refusal>
where
    R: Threads + Wait + Clock + Sync,
    requires { IsSized givers each }
    ensures { IfOk result (λ drive. IsDriven givers each drive) }
{
    drive_told(rt, alloc, givers, each, &Silent {})
}

/// Makes a demo run as `drive` does, and reports progress each second that it lasts.
///
/// # Errors
/// - The errors of `drive`.
pub fn drive_told<R, P>(
    rt: &R,
    alloc: Global,
    givers: u64,
    each: u64,
    progress: &P,
) -> Result<Drive, Refusal>
where
    R: Threads + Wait + Clock + Sync,
    P: Progress,
    requires { IsSized givers each }
    ensures { IfOk result (λ drive. IsDriven givers each drive) }
{
    let cap = 2 * givers * RECORDS_OF_A_SEAT;
    in_chapters(rt, alloc, givers, each, cap, progress)
}

/// Makes a demo run as `drive` does, with a queue that holds `cap` records at most. 16 records for each of its seats
/// are enough.
///
/// # Errors
/// - BadSizes, if `cap` is 0 or above 1,048,576.
/// - HistoryFull, if these are too few: fewer than 16 a seat may be.
/// - The errors of `drive`.
pub fn drive_in_chapters<R>(
    rt: &R,
    alloc: Global,
    givers: u64,
    each: u64,
    cap: u64,
) -> Result<Drive, Refusal>
where
    R: Threads + Wait + Clock + Sync,
    requires { IsSized givers each }
    ensures { IfOk result (λ drive. IsDriven givers each drive) }
{
    in_chapters(rt, alloc, givers, each, cap, &Silent {})
}

/// Makes a demo run as `drive` does, in one chapter of at most `cap` records.
///
/// # Errors
/// - BadSizes, if `cap` is 0 or above 1,048,576.
/// - HistoryFull, if the run needs more records.
/// - The errors of `drive`.
pub fn drive_within<R>(
    rt: &R,
    alloc: Global,
    givers: u64,
    each: u64,
    cap: u64,
) -> Result<Drive, Refusal>
where
    R: Threads + Wait + Clock + Sync,
    requires { IsSized givers each }
    ensures driven { IfOk result (λ drive. IsDriven givers each drive) }
    ensures cap { IfOk result (λ drive. drive.records ≤ cap) }
{
    let ended = started(rt, alloc, givers, each, cap, cap, &Silent {})?;
    if ended.handed.len() > 0 {
        return Err(Refusal::Differs);
    }
    let records = ended.chronicle.records.as_slice();
    told(alloc, records, ended.counted, givers, each)
}

/// A demo run with `cap` records at a time, which are handed out after there are more than half as many; put together
/// at its end, they are one log.
fn in_chapters<R, P>(
    rt: &R,
    alloc: Global,
    givers: u64,
    each: u64,
    cap: u64,
    progress: &P,
) -> Result<Drive, Refusal>
where
    R: Threads + Wait + Clock + Sync,
    P: Progress,
    requires { IsSized givers each }
    ensures { IfOk result (λ drive. IsDriven givers each drive) }
{
    let Ended {
        handed,
        chronicle,
        counted,
    } = started(rt, alloc, givers, each, cap, cap / 2, progress)?;
    let mut records = handed;
    if chronicle.base.gone != records.len() as u64 {
        return Err(Refusal::Differs);
    }
    if records
        .extend_from_slice(chronicle.records.as_slice())
        .is_err()
    {
        return Err(Refusal::Memory);
    }
    told(alloc, records.as_slice(), counted, givers, each)
}

/// The threads of a demo run, with gates and ledgers for them.
fn started<R, P>(
    rt: &R,
    alloc: Global,
    givers: u64,
    each: u64,
    cap: u64,
    most: u64,
    progress: &P,
) -> Result<Ended, Refusal>
where
    R: Threads + Wait + Clock + Sync,
    P: Progress,
    requires { IsSized givers each }
    ensures { IfOk result (λ ended. length ended.chronicle.records.items ≤ cap) }
{
    let parts = NewQueue::parked(alloc, 2 * givers)?;
    driving::<ParkGate, Brand, R, P>(rt, alloc, parts, each, cap, most, progress)
}
