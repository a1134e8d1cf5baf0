//! The exports of a checker, and of every handle. Each calls the library's function, and states its clauses again.

ghost use Rattle.std.specs.Prelude.{◌≡◌, ◌≢◌, ◌⊎◌, None};
ghost use Rattle.meet_c.specs.Handled.{HoldsNewChecker, IsNoPlace, Pushes, PushesHeld, Stands, ChecksHeld, ChecksAt};
ghost use Rattle.meet_c.specs.Handled.{ChecksBoth};

use crate::entries::PlainRecord;
use crate::followers::{Found, check, new_follower, standing, status_with, take_many};
use crate::held::Held;
use crate::loose::Handle;
use crate::queue_exports::read_setup;
use std::alloc::Global;

/// Creates a checker of a place of this order and bound, with an empty log. The handle holds it after that, and what it
/// held is dropped.
///
/// # Errors
/// The handle holds what it held.
/// - 1 if memory runs out.
/// - 41 if no place has these numbers.
#[unsafe(no_mangle)]
pub extern "C" fn ibis_checker_new(
    alloc: Global,
    handle: &mut Handle,
    order: u64,
    bound: u64,
) -> u64
    ensures made { result ≡ 0 → HoldsNewChecker order bound handle.new.loose.value }
    ensures unchanged { result ≢ 0 → handle.new.loose.value ≡ handle.old.loose.value }
    ensures status { (result ≡ 0) ⊎ ((result ≡ 1) ⊎ (result ≡ 41)) }
    ensures numbers { result ≡ 41 → IsNoPlace order bound 1 1 1 }
{
    let setup = match read_setup(order, bound, 1, 1, 1) {
        Some(setup) => setup,
        None => return 41,
    };
    let follower = match new_follower(alloc, setup.kind) {
        Some(follower) => follower,
        None => return 1,
    };
    match Box::new(alloc, Held::Checker(follower)) {
        Ok(held) => {
            drop(handle.take(alloc));
            *handle = Handle::of(held);
            0
        }
        Err(_) => 1,
    }
}

/// Pushes records at what is held.
fn push_held(held: &mut Held, entries: &[PlainRecord]) -> Found
    ensures { PushesHeld held.old entries.now result held.new }
{
    match held {
        Held::Checker(follower) => take_many(follower, entries),
        Held::Queue(_) => status_with(40, 0),
    }
}

/// Pushes records on a checker, the first one first, up to the first that is no record, that can't stand, or for which
/// memory runs out. It sets how many records the checker has taken in. Returns the finding's status, 0 if those that
/// were pushed are legal after those before.
///
/// # Errors
/// - 1 if memory runs out: those that were taken in count, and the next may be pushed again.
/// - 30 if a record's numbers are those of none: it isn't taken in.
/// - 31 if a record can't stand, with its number and the reason: it is taken in, and each later push returns the same.
/// - 40 if no checker is held.
#[unsafe(no_mangle)]
pub extern "C" fn ibis_checker_push(
    alloc: Global,
    handle: &mut Handle,
    entries: &[PlainRecord],
    found: &mut Found,
) -> u64
    ensures pushes { Pushes handle.old.loose.value entries.now found.new handle.new.loose.value }
    ensures status { result ≡ found.new.status }
{
    let told = match handle.take(alloc) {
        None => status_with(40, 0),
        Some(held) => {
            let mut held = held;
            let told = push_held(&mut held, entries);
            *handle = Handle::of(held);
            told
        }
    };
    *found = told;
    told.status
}

/// Returns the verdict on the records that were pushed: their status, and where they leave the place. It doesn't
/// allocate.
///
/// # Errors
/// - 31 if a record can't stand, with its number and the reason.
/// - 40 if no checker is held.
#[unsafe(no_mangle)]
pub extern "C" fn ibis_checker_standing(
    alloc: Global,
    handle: &mut Handle,
    found: &mut Found,
) -> u64
    ensures stands { Stands handle.old.loose.value found.new }
    ensures same { handle.new.loose.value ≡ handle.old.loose.value }
    ensures status { result ≡ found.new.status }
{
    let told = match handle.take(alloc) {
        None => status_with(40, 0),
        Some(held) => {
            let told = match &*held {
                Held::Checker(follower) => standing(follower),
                Held::Queue(_) => status_with(40, 0),
            };
            *handle = Handle::of(held);
            told
        }
    };
    *found = told;
    told.status
}

/// Takes the new records of a held queue in at a held checker.
fn check_held(held: &mut Held, other: &mut Held) -> Found
    ensures { ChecksHeld held.old other.old result held.new other.new }
{
    match held {
        Held::Queue(book) => match other {
            Held::Checker(follower) => check(book, follower),
            Held::Queue(_) => status_with(40, 0),
        },
        Held::Checker(_) => status_with(40, 0),
    }
}

/// Takes the new records of a held queue in at a handle's checker.
fn check_at(alloc: Global, held: &mut Held, checker: &mut Handle) -> Found
    ensures { ChecksAt held.old checker.old.loose.value result held.new checker.new.loose.value }
{
    match checker.take(alloc) {
        None => status_with(40, 0),
        Some(other) => {
            let mut other = other;
            let told = check_held(held, &mut other);
            *checker = Handle::of(other);
            told
        }
    }
}

/// Pushes all new records of a queue on a checker, and compacts them if they are legal. New are those that the checker
/// hasn't taken in. Returns the finding's status, 0 if all records since the first are legal, with where they leave the
/// queue.
///
/// # Errors
/// - 31 if a record can't stand: nothing is compacted.
/// - 1 or 2 as `ibis_queue_cut`, and 1 if memory runs out for the checker: the call may be repeated.
/// - 40 if the handles don't hold a queue and a checker. Nothing has changed.
/// - 42 if the checker has taken in fewer records than were compacted, or more than there are. Nothing has changed.
#[unsafe(no_mangle)]
pub extern "C" fn ibis_queue_check(
    alloc: Global,
    queue: &mut Handle,
    checker: &mut Handle,
    found: &mut Found,
) -> u64
    ensures checks { ChecksBoth queue.old.loose.value checker.old.loose.value found.new queue.new.loose.value
        checker.new.loose.value }
    ensures status { result ≡ found.new.status }
{
    let told = match queue.take(alloc) {
        None => status_with(40, 0),
        Some(held) => {
            let mut held = held;
            let told = check_at(alloc, &mut held, checker);
            *queue = Handle::of(held);
            told
        }
    };
    *found = told;
    told.status
}

/// Drops what a handle holds, if anything. It holds nothing after that.
#[unsafe(no_mangle)]
pub extern "C" fn ibis_free(alloc: Global, handle: &mut Handle)
    ensures { handle.new.loose.value ≡ None }
{
    let held = handle.take(alloc);
    drop(held);
}
