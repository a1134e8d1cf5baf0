//! The exports of a queue. Each calls the library's function, and states its clauses again.

ghost use Rattle.std.specs.Prelude.{◌≡◌, ◌≢◌, ◌⊎◌, Some, None, IfSome};
ghost use Rattle.meet_c.specs.Handled.{HoldsNewQueue, IsPlace, IsNoPlace, Steps, StepsHeld, Looks, Opens, Copies};
ghost use Rattle.meet_c.specs.Handled.{Cuts, CutsHeld, TellsBase, TellsRow};

use crate::answers::{Answer, failed};
use crate::bases::{BaseRow, PlainBase, row_at, tell_base};
use crate::entries::{PlainRecord, copy_records};
use crate::held::Held;
use crate::loose::Handle;
use crate::names::{read_call, read_kind, seat_in};
use crate::queues::{Look, cut, new_book, open_at, see, step};
use meet_history::Setup;
use std::alloc::Global;

/// Reads the numbers of a place.
pub(crate) fn read_setup(order: u64, bound: u64, seats: u64, first: u64, cap: u64) -> Option<Setup>
    ensures some { IfSome result (λ setup. IsPlace order bound seats first cap setup.kind
        × (setup ≡ record { kind = setup.kind; seats = seats; cap = cap; first = first })) }
    ensures none { result ≡ None → IsNoPlace order bound seats first cap }
{
    match read_kind(order, bound) {
        Some(kind) => Setup::new(kind, seats, first, cap),
        None => None,
    }
}

/// Creates a queue of this order (1 fair, 2 unfair, 3 transfer). `bound` is the most items that a transfer queue
/// buffers, 0 for no bound. It has 1 to 65,536 seats; `first` is the first ticket, 1 to 2^63 - 1; `cap` is the most
/// records at a time, 1 to 1,048,576. The handle holds it after that, and what it held is dropped.
///
/// # Errors
/// The handle holds what it held.
/// - 1 if memory runs out.
/// - 41 if a number is out of its limits.
///
/// Java: `SynchronousQueue`, `LinkedTransferQueue`.
#[unsafe(no_mangle)]
pub extern "C" fn ibis_queue_new(
    alloc: Global,
    handle: &mut Handle,
    order: u64,
    bound: u64,
    seats: u64,
    first: u64,
    cap: u64,
) -> u64
    ensures made { result ≡ 0 → HoldsNewQueue order bound seats first cap handle.new.loose.value }
    ensures unchanged { result ≢ 0 → handle.new.loose.value ≡ handle.old.loose.value }
    ensures status { (result ≡ 0) ⊎ ((result ≡ 1) ⊎ (result ≡ 41)) }
    ensures numbers { result ≡ 41 → IsNoPlace order bound seats first cap }
{
    let setup = match read_setup(order, bound, seats, first, cap) {
        Some(setup) => setup,
        None => return 41,
    };
    let book = match new_book(alloc, setup) {
        Ok(book) => book,
        Err(_) => return 1,
    };
    match Box::new(alloc, Held::Queue(book)) {
        Ok(held) => {
            drop(handle.take(alloc));
            *handle = Handle::of(held);
            0
        }
        Err(_) => 1,
    }
}

/// Makes a seat's call at what is held.
fn step_held(held: &mut Held, verb: u64, seat: u64, value: u64) -> Answer
    ensures { StepsHeld held.old verb seat value result held.new }
{
    match held {
        Held::Queue(book) => match (read_call(verb, value), seat_in(seat)) {
            (Some(call), Some(seat)) => step(book, seat, call),
            _ => failed(41),
        },
        Held::Checker(_) => failed(40),
    }
}

/// Makes one call of a seat: put 1, give 2, offer 3, take 4, poll 5, follow-up 6, cancel 7, expire 8, interrupt 9. The
/// value is the item of 1 to 3, the ticket of 6 to 8, and the seat that is interrupted of 9. It never waits: a request
/// that isn't matched is pending, and its seat asks by a follow-up. Returns the answer's status.
///
/// # Errors
/// Nothing has changed.
/// - 1 Memory, 2 HistoryFull, 3 TicketsSpent, 4 SeatOpen, 5 NoSuchSeat or 6 NotOpen: the queue's error.
/// - 40 if no queue is held.
/// - 41 if the numbers are no call and seat.
#[unsafe(no_mangle)]
pub extern "C" fn ibis_queue_step(
    alloc: Global,
    handle: &mut Handle,
    verb: u64,
    seat: u64,
    value: u64,
    answer: &mut Answer,
) -> u64
    ensures steps { Steps handle.old.loose.value verb seat value answer.new handle.new.loose.value }
    ensures status { result ≡ answer.new.status }
{
    let told = match handle.take(alloc) {
        None => failed(40),
        Some(held) => {
            let mut held = held;
            let told = step_held(&mut held, verb, seat, value);
            *handle = Handle::of(held);
            told
        }
    };
    *answer = told;
    told.status
}

/// Looks at a queue: its read-only queries (probes), and the counts of its log. It doesn't allocate.
///
/// # Errors
/// - 40 if no queue is held.
#[unsafe(no_mangle)]
pub extern "C" fn ibis_queue_look(alloc: Global, handle: &mut Handle, seen: &mut Look) -> u64
    ensures looks { Looks handle.old.loose.value seen.old result seen.new }
    ensures same { handle.new.loose.value ≡ handle.old.loose.value }
{
    match handle.take(alloc) {
        None => 40,
        Some(held) => {
            let status = look_held(&held, seen);
            *handle = Handle::of(held);
            status
        }
    }
}

/// Looks at what is held.
fn look_held(held: &Held, seen: &mut Look) -> u64
    ensures { Looks (Some held.now) seen.old result seen.new }
{
    match held {
        Held::Queue(book) => {
            *seen = see(book);
            0
        }
        Held::Checker(_) => 40,
    }
}

/// Finds a seat's open ticket, 0 for none, also of a seat that the queue hasn't. It doesn't allocate.
///
/// # Errors
/// - 40 if no queue is held.
/// - 41 if the number is no seat's.
#[unsafe(no_mangle)]
pub extern "C" fn ibis_queue_open(
    alloc: Global,
    handle: &mut Handle,
    seat: u64,
    ticket: &mut u64,
) -> u64
    ensures opens { Opens handle.old.loose.value seat ticket.old result ticket.new }
    ensures same { handle.new.loose.value ≡ handle.old.loose.value }
{
    match handle.take(alloc) {
        None => 40,
        Some(held) => {
            let status = open_held(&held, seat, ticket);
            *handle = Handle::of(held);
            status
        }
    }
}

/// Finds a seat's open ticket at what is held.
fn open_held(held: &Held, seat: u64, ticket: &mut u64) -> u64
    ensures { Opens (Some held.now) seat ticket.old result ticket.new }
{
    match held {
        Held::Queue(book) => match seat_in(seat) {
            Some(seat) => {
                *ticket = open_at(book, seat);
                0
            }
            None => 41,
        },
        Held::Checker(_) => 40,
    }
}

/// Copies the queue's records since the last cut, from this index on, from 0, as many as there are and as have room,
/// and sets how many. It doesn't allocate.
///
/// # Errors
/// - 40 if no queue is held.
#[unsafe(no_mangle)]
pub extern "C" fn ibis_queue_records(
    alloc: Global,
    handle: &mut Handle,
    from: usize,
    into: &mut [PlainRecord],
    count: &mut usize,
) -> u64
    ensures copies { Copies handle.old.loose.value from into.old result count.new into.new }
    ensures same { handle.new.loose.value ≡ handle.old.loose.value }
{
    match handle.take(alloc) {
        None => {
            *count = 0;
            40
        }
        Some(held) => {
            let status = copy_held(&held, from, into, count);
            *handle = Handle::of(held);
            status
        }
    }
}

/// Copies the records of what is held.
fn copy_held(held: &Held, from: usize, into: &mut [PlainRecord], count: &mut usize) -> u64
    ensures { Copies (Some held.now) from into.old result count.new into.new }
{
    match held {
        Held::Queue(book) => {
            *count = copy_records(book.records(), from, into);
            0
        }
        Held::Checker(_) => {
            *count = 0;
            40
        }
    }
}

/// Reads the snapshot of the compacted records: how many these are, and how many rows state the rest.
///
/// # Errors
/// - 40 if no queue is held.
#[unsafe(no_mangle)]
pub extern "C" fn ibis_queue_base(alloc: Global, handle: &mut Handle, base: &mut PlainBase) -> u64
    ensures tells { TellsBase handle.old.loose.value base.old result base.new }
    ensures same { handle.new.loose.value ≡ handle.old.loose.value }
{
    match handle.take(alloc) {
        None => 40,
        Some(held) => {
            let status = base_of_held(&held, base);
            *handle = Handle::of(held);
            status
        }
    }
}

/// Reads the numbers of the base of what is held.
fn base_of_held(held: &Held, base: &mut PlainBase) -> u64
    ensures { TellsBase (Some held.now) base.old result base.new }
{
    match held {
        Held::Queue(book) => {
            *base = tell_base(book.base());
            0
        }
        Held::Checker(_) => 40,
    }
}

/// Reads a row of a queue's base by its index, from 0: first those of the wait queue, in order of request; then those
/// of matched pairs and of interrupted requests, each by rising ticket; then those of pending interrupts, by rising
/// seat.
///
/// # Errors
/// - 40 if no queue is held.
/// - 41 if the base has no such row.
#[unsafe(no_mangle)]
pub extern "C" fn ibis_queue_base_row(
    alloc: Global,
    handle: &mut Handle,
    at: usize,
    row: &mut BaseRow,
) -> u64
    ensures tells { TellsRow handle.old.loose.value at row.old result row.new }
    ensures same { handle.new.loose.value ≡ handle.old.loose.value }
{
    match handle.take(alloc) {
        None => 40,
        Some(held) => {
            let status = row_of_held(&held, at, row);
            *handle = Handle::of(held);
            status
        }
    }
}

/// Reads a row of the base of what is held.
fn row_of_held(held: &Held, at: usize, row: &mut BaseRow) -> u64
    ensures { TellsRow (Some held.now) at row.old result row.new }
{
    match held {
        Held::Queue(book) => match row_at(book.base(), at) {
            Some(found) => {
                *row = found;
                0
            }
            None => 41,
        },
        Held::Checker(_) => 40,
    }
}

/// Compacts the records (a checkpoint): from then on the queue's base stands for them, and there is room for as many as
/// at first. Sets how many records were compacted since the first.
///
/// # Errors
/// Nothing has changed.
/// - 1 if memory runs out.
/// - 2 if more than 2^63 - 1 records would be compacted.
/// - 40 if no queue is held.
#[unsafe(no_mangle)]
pub extern "C" fn ibis_queue_cut(alloc: Global, handle: &mut Handle, gone: &mut u64) -> u64
    ensures { Cuts handle.old.loose.value result gone.new handle.new.loose.value }
{
    let (status, count) = match handle.take(alloc) {
        None => (40, 0),
        Some(held) => {
            let mut held = held;
            let told = cut_held(&mut held);
            *handle = Handle::of(held);
            told
        }
    };
    *gone = count;
    status
}

/// Folds the records of what is held away.
fn cut_held(held: &mut Held) -> (u64, u64)
    ensures { CutsHeld held.old result.0 result.1 held.new }
{
    match held {
        Held::Queue(book) => cut(book),
        Held::Checker(_) => (40, 0),
    }
}
