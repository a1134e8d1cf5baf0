//! The counts of each seat.

ghost use Rattle.std.specs.Prelude.{◌≡◌, ℕ, ◌+◌, ◌<◌, ◌^◌, ◌∷◌, ◌++◌, [], List, Some, length, slice_get};
ghost use Rattle.std.specs.Prelude.{slice_set, IfOk, vec_len, if◌then◌else◌};
ghost use Rattle.meet_tickets.specs.declared.records.Deed.{Deed};
ghost use Rattle.meet_tickets.specs.declared.records.Record.{Record};
ghost use Rattle.meet_tickets.specs.Limits.{most_seats};
ghost use Rattle.meet_sum.specs.declared.stories.Story.{Story};
ghost use Rattle.meet_sum.specs.Seats.{greater, seat_sum, HasSeats};

use crate::stories::Story;
use crate::waits::stay;
use meet_tickets::{Deed, MOST_SEATS, Record, SeatNo};
use std::alloc::{AllocError, Global};

/// The counts of a seat.
#[derive(Clone, Copy, PartialEq, Eq, Debug)]
pub struct SeatSum {
    /// Whether it has a record, or an entry of the base.
    pub present: bool,
    /// Its records.
    pub records: u64,
    /// The requests among them.
    pub requests: u64,
    /// The longest time that one of its tickets stood in the wait queue, in records; None if none did.
    pub wait: Option<u64>,
}

/// The sum of a seat.
fn sum_at(sums: &Vec<SeatSum>, seat: SeatNo) -> SeatSum
    requires { vec_len sums.now ≡ most_seats }
    ensures sum { slice_get sums.now.items seat ≡ Some result }
    ensures in_range { seat < most_seats }
{
    sums[seat.number() as usize]
}

/// Puts another sum in its place.
fn put_sum(sums: &mut Vec<SeatSum>, seat: SeatNo, sum: SeatSum)
    requires { vec_len sums.old ≡ most_seats }
    ensures { sums.new.items ≡ slice_set sums.old.items seat sum }
{
    sums[seat.number() as usize] = sum;
}

/// Notes that a seat has a record that opens a base.
fn enter(sums: &mut Vec<SeatSum>, entry: &Record<Deed>)
    requires { vec_len sums.old ≡ most_seats }
    ensures every { vec_len sums.new ≡ most_seats }
    ensures told { (before : List (Record Deed)) (opened all : ℕ) (stories : List Story)
        → HasSeats (seat_sum before [] opened all stories) sums.old.items
        → HasSeats (seat_sum (before ++ entry.now ∷ []) [] opened all stories) sums.new.items }
{
    let old = sum_at(sums, entry.seat);
    put_sum(
        sums,
        entry.seat,
        SeatSum {
            present: true,
            records: old.records,
            requests: old.requests,
            wait: old.wait,
        },
    );
}

/// A number, with one more if this is so.
fn plus(number: u64, more: bool) -> u64
    ensures { number + 1 < 2 ^ 64 → result ≡ number + (if more then 1 else 0) }
{
    if more {
        number.saturating_add(1)
    } else {
        number
    }
}

/// Counts a record more of its seat.
fn count(sums: &mut Vec<SeatSum>, entry: &Record<Deed>)
    requires { vec_len sums.old ≡ most_seats }
    ensures every { vec_len sums.new ≡ most_seats }
    ensures told { (before records : List (Record Deed)) (opened all : ℕ) (stories : List Story)
        → length records + 1 < 2 ^ 64 → HasSeats (seat_sum before records opened all stories) sums.old.items
        → HasSeats (seat_sum before (records ++ entry.now ∷ []) opened all stories) sums.new.items }
{
    let old = sum_at(sums, entry.seat);
    put_sum(
        sums,
        entry.seat,
        SeatSum {
            present: true,
            records: plus(old.records, true),
            requests: plus(old.requests, entry.deed.is_request()),
            wait: old.wait,
        },
    );
}

/// The greater of two numbers, as far as they are there.
fn greater(one: Option<u64>, other: Option<u64>) -> Option<u64>
    ensures { result ≡ greater one other }
{
    match one {
        None => other,
        Some(first) => match other {
            None => one,
            Some(second) => Some(first.max(second)),
        },
    }
}

/// Notes how long the ticket of a story stood in the wait queue, at its seat.
pub(crate) fn note(sums: &mut Vec<SeatSum>, story: &Story, opened: u64, all: u64)
    requires { vec_len sums.old ≡ most_seats }
    ensures every { vec_len sums.new ≡ most_seats }
    ensures told { (before records : List (Record Deed)) (stories : List Story)
        → HasSeats (seat_sum before records opened all stories) sums.old.items
        → HasSeats (seat_sum before records opened all (stories ++ story.now ∷ [])) sums.new.items }
{
    match story.asked {
        None => {}
        Some(asked) => {
            let old = sum_at(sums, asked.seat);
            let here = stay(story, opened, all);
            put_sum(
                sums,
                asked.seat,
                SeatSum {
                    present: old.present,
                    records: old.records,
                    requests: old.requests,
                    wait: greater(old.wait, here),
                },
            );
        }
    }
}

/// Notes the records that open a base.
fn enter_all(sums: &mut Vec<SeatSum>, more: &[Record<Deed>])
    requires { vec_len sums.old ≡ most_seats }
    ensures every { vec_len sums.new ≡ most_seats }
    ensures noted { (opened all : ℕ) → HasSeats (seat_sum [] [] opened all []) sums.old.items
        → HasSeats (seat_sum more.now [] opened all []) sums.new.items }
{
    for entry in more {
        enter(sums, entry);
    }
}

/// Counts all these records.
fn count_all(sums: &mut Vec<SeatSum>, more: &[Record<Deed>])
    requires every { vec_len sums.old ≡ most_seats }
    requires few { length more.now < 2 ^ 64 }
    ensures every { vec_len sums.new ≡ most_seats }
    ensures counted { (before : List (Record Deed)) (opened all : ℕ)
        → HasSeats (seat_sum before [] opened all []) sums.old.items
        → HasSeats (seat_sum before more.now opened all []) sums.new.items }
{
    for entry in more {
        count(sums, entry);
    }
}

/// The counts of each seat by the records that open a base and those since, from seat 0 on: all but how long its
/// tickets stood in the wait queue.
pub(crate) fn seats_in(
    alloc: Global,
    before: &[Record<Deed>],
    records: &[Record<Deed>],
) -> Result<Vec<SeatSum>, AllocError>
    requires { length records.now < 2 ^ 64 }
    ensures every { IfOk result (λ sums. vec_len sums ≡ most_seats) }
    ensures told { IfOk result (λ sums. (opened all : ℕ)
        → HasSeats (seat_sum before.now records.now opened all []) sums.items) }
{
    let none = SeatSum {
        present: false,
        records: 0,
        requests: 0,
        wait: None,
    };
    let mut sums = vec![in alloc; none; MOST_SEATS as usize]?;
    enter_all(&mut sums, before);
    count_all(&mut sums, records);
    Ok(sums)
}
