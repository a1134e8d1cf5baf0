//! A checker of records, as the exports call it.

ghost use Rattle.std.specs.Prelude.{◌≡◌, ◌≢◌, ◌<◌, ◌+◌, ◌^◌, Some, None, IfSome, IfOk, [], true, false, length};
ghost use Rattle.meet_tickets.specs.Bases.{no_base};
ghost use Rattle.meet_history.specs.Pushing.{HasSeen};
ghost use Rattle.meet_c.specs.Entries.{record_of};
ghost use Rattle.meet_c.specs.Followed.{status_with, fault_with, found_with, TakesNext, TakesRead};
ghost use Rattle.meet_c.specs.Followed.{TakesMany};
ghost use Rattle.meet_c.specs.Followed.{StandsAs, Follows, ChecksNew};

use crate::entries::{PlainRecord, read_record};
use crate::queues::cut;
use meet_book::Book;
use meet_history::{CheckFault, Checker, Standing};
use meet_queues::AnyQueue;
use meet_tickets::{Base, Deed, Kind, Record};
use std::alloc::Global;

/// A checker, and how many records it has taken in.
#[derive(Drop)]
pub struct Follower {
    /// The checker.
    pub checker: Checker,
    /// How many records it has taken in.
    pub taken: u64,
}

/// The finding of a checker. What it hasn't is 0.
#[repr(C)]
#[derive(Clone, Copy, PartialEq, Eq, Debug)]
pub struct Found {
    /// 0 if the records so far are legal, else the error.
    pub status: u64,
    /// How many records the checker has taken in.
    pub records: u64,
    /// The number of the first record that can't stand, from 1.
    pub place: u64,
    /// The reason, 1 to 4.
    pub why: u64,
    /// Pending requests that wait.
    pub waiting: u64,
    /// Pending requests that were matched or interrupted, and need a follow-up.
    pub uncollected: u64,
    /// Items that are buffered.
    pub kept: u64,
}

/// Makes a finding of a status and of how many records were taken in.
pub(crate) fn status_with(status: u64, records: u64) -> Found
    ensures { result ≡ status_with status records }
{
    Found {
        status,
        records,
        place: 0,
        why: 0,
        waiting: 0,
        uncollected: 0,
        kept: 0,
    }
}

/// Returns the finding of a fault, after this many records.
fn fault_with(fault: CheckFault, records: u64) -> Found
    ensures { result ≡ fault_with fault records }
{
    match fault {
        CheckFault::Memory => status_with(1, records),
        CheckFault::Illegal { place, why } => Found {
            place,
            why: why.number(),
            ..status_with(31, records)
        },
    }
}

/// Makes a checker of a place of this kind with an empty log. Returns None only if memory runs out.
pub(crate) fn new_follower(alloc: Global, kind: Kind) -> Option<Follower>
    ensures kind { IfSome result (λ f. f.checker.place.kind ≡ kind) }
    ensures seen { IfSome result (λ f. HasSeen no_base f.checker []) }
    ensures sound { IfSome result (λ f. f.checker.fault ≡ None) }
    ensures none { IfSome result (λ f. f.taken ≡ 0) }
{
    let base = Base::empty(alloc);
    match Checker::new(alloc, kind, &base) {
        Ok(checker) => Some(Follower { checker, taken: 0 }),
        Err(_) => None,
    }
}

/// Takes the next record in, and returns the fault, if there is one.
fn take_next(follower: &mut Follower, entry: Record<Deed>) -> Option<CheckFault>
    ensures { TakesNext follower.old entry result follower.new }
{
    if follower.taken == u64::MAX {
        return Some(CheckFault::Memory);
    }
    match follower.checker.push(entry) {
        Ok(()) => {
            follower.taken += 1;
            None
        }
        Err(CheckFault::Memory) => Some(CheckFault::Memory),
        Err(CheckFault::Illegal { place, why }) => {
            follower.taken += 1;
            Some(CheckFault::Illegal { place, why })
        }
    }
}

/// Takes the next record in, if these numbers are one.
fn take_read(follower: &mut Follower, entry: &PlainRecord) -> Found
    ensures { TakesRead follower.old (record_of entry.now) result follower.new }
{
    match read_record(entry) {
        None => status_with(30, follower.taken),
        Some(entry) => match take_next(follower, entry) {
            None => status_with(0, follower.taken),
            Some(fault) => fault_with(fault, follower.taken),
        },
    }
}

/// Takes records in, one after another, up to the first that is none, that can't stand, or for which memory runs out.
pub(crate) fn take_many(follower: &mut Follower, entries: &[PlainRecord]) -> Found
    ensures { TakesMany follower.old entries.now result follower.new }
{
    for entry in entries {
        let found = take_read(follower, entry);
        if found.status != 0 {
            return found;
        }
    }
    status_with(0, follower.taken)
}

/// Finds the status of the requests and items, or the fault. It doesn't allocate.
pub(crate) fn standing(follower: &Follower) -> Found
    ensures { StandsAs follower.now result }
{
    match follower.checker.standing() {
        Ok(standing) => {
            let Standing {
                waiting,
                uncollected,
                kept,
            } = standing;
            Found {
                waiting,
                uncollected,
                kept,
                ..status_with(0, follower.taken)
            }
        }
        Err(fault) => fault_with(fault, follower.taken),
    }
}

/// Takes a queue's records in. Returns whether there was memory for all of them.
fn follow(follower: &mut Follower, records: &[Record<Deed>]) -> bool
    requires { follower.old.taken + length records.now < 2 ^ 64 }
    ensures { Follows follower.old records.now result follower.new }
{
    for entry in records {
        match follower.checker.push(*entry) {
            Err(CheckFault::Memory) => return false,
            Ok(()) => follower.taken += 1,
            Err(CheckFault::Illegal { .. }) => follower.taken += 1,
        }
    }
    true
}

/// Takes a queue's new records in, and compacts them if they are legal.
pub(crate) fn check(book: &mut Book<AnyQueue>, follower: &mut Follower) -> Found
    ensures { ChecksNew book.old follower.old result book.new follower.new }
{
    let written = book.written();
    let gone = written - book.records().len() as u64;
    if follower.taken < gone || written < follower.taken {
        return status_with(42, follower.taken);
    }
    let from = (follower.taken - gone) as usize;
    if !follow(follower, &book.records()[from..]) {
        return status_with(1, follower.taken);
    }
    let found = standing(follower);
    if found.status != 0 {
        return found;
    }
    let (status, _) = cut(book);
    if status == 0 {
        found
    } else {
        status_with(status, follower.taken)
    }
}
