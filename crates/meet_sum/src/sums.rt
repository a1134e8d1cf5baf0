//! The sums of a base and records.

ghost use Rattle.std.specs.Prelude.{◌≡◌, ℕ, ◌+◌, ◌<◌, ◌^◌, ◌++◌, [], List, length, map, vec_len, IfOk, IfErr};
ghost use Rattle.std.specs.List.Sorted.{IsStrictlyIncreasing};
ghost use Rattle.meet_tickets.specs.declared.refusals.Refusal.TheVariants.{Memory};
ghost use Rattle.meet_tickets.specs.Fates.{opening};
ghost use Rattle.meet_tickets.specs.declared.records.Deed.{Deed};
ghost use Rattle.meet_tickets.specs.declared.records.Record.{Record};
ghost use Rattle.meet_tickets.specs.Limits.{most_seats};
ghost use Rattle.meet_sum.specs.FatesCounted.{AreFates, numbers_of};
ghost use Rattle.meet_sum.specs.Seats.{seat_sum, HasSeats};
ghost use Rattle.meet_sum.specs.Stories.{story_in, fate_told, AreRequested};
ghost use Rattle.meet_sum.specs.Sums.{AreSums};
ghost use Rattle.meet_sum.specs.Waits.{stories_on, IsLongest};

use crate::deeds::{DeedCounts, count_deeds};
use crate::fates::{FateCounts, add, count_stories, no_fates};
use crate::line::{LongestLine, longest_line};
use crate::openings::{opening, requested};
use crate::seats::{SeatSum, note, seats_in};
use crate::stories::Story;
use crate::table::{hear_all, untold_all};
use crate::waits::{Wait, longest_with};
use meet_tickets::{Base, Deed, Record, Refusal};
use std::alloc::{AllocError, Global};

/// The sums of a legal history.
#[derive(Debug, Drop)]
pub struct Sums {
    /// How many records have which deed.
    pub deeds: DeedCounts,
    /// How many tickets have which fate.
    pub fates: FateCounts,
    /// The longest wait queue.
    pub line: LongestLine,
    /// The longest wait of a ticket in the wait queue; None if no ticket stood there.
    pub wait: Option<Wait>,
    /// The counts of each seat, by the seats' numbers, from 0.
    pub seats: Vec<SeatSum>,
}

/// What a base, which these records open, and the records since state of these tickets.
fn stories_of(
    alloc: Global,
    tickets: &[u64],
    before: &[Record<Deed>],
    records: &[Record<Deed>],
) -> Result<Vec<Story>, AllocError>
    requires rising { IsStrictlyIncreasing tickets.now }
    requires few { length before.now + length records.now < 2 ^ 64 }
    ensures { IfOk result (λ stories. stories.items ≡ map (story_in (before.now ++ records.now)) tickets.now) }
{
    let mut stories = untold_all(alloc, tickets)?;
    hear_all(tickets, &mut stories, before, 0);
    hear_all(tickets, &mut stories, records, before.len() as u64);
    Ok(stories)
}

/// What a base, which these records open, and the records since state of the tickets that they name as requested. Fails
/// only if an allocation fails.
fn stories_on(
    alloc: Global,
    base: &Base,
    before: &[Record<Deed>],
    records: &[Record<Deed>],
) -> Result<Vec<Story>, Refusal>
    requires few { length before.now + length records.now < 2 ^ 64 }
    requires opened { before.now ≡ opening base.now }
    ensures told { IfOk result (λ stories. (tickets : List ℕ) × AreRequested base.now records.now tickets
        × (stories.items ≡ stories_on base.now records.now tickets)) }
    ensures memory { IfErr result (λ why. why ≡ Memory) }
{
    let Ok(tickets) = requested(alloc, base, records) else {
        return Err(Refusal::Memory);
    };
    match stories_of(alloc, tickets.as_slice(), before, records) {
        Ok(stories) => Ok(stories),
        Err(_) => Err(Refusal::Memory),
    }
}

/// Counts the tickets with each fate, of those that a base and the records since name as requested. It allocates for
/// each ticket, and reads each record twice.
///
/// # Errors
/// - Memory, if an allocation fails.
pub fn count_fates(
    alloc: Global,
    base: &Base,
    records: &[Record<Deed>],
) -> Result<FateCounts, Refusal>
    ensures counted { IfOk result (AreFates base.now records.now) }
    ensures memory { IfErr result (λ why. why ≡ Memory) }
{
    let Ok(before) = opening(alloc, base) else {
        return Err(Refusal::Memory);
    };
    if records.len() > usize::MAX - before.len() {
        return Err(Refusal::Memory);
    }
    let stories = stories_on(alloc, base, before.as_slice(), records)?;
    Ok(count_stories(stories.as_slice()))
}

/// Notes how long the tickets of these stories stood in the wait queue, each at its seat. Returns how many have which
/// fate, and the first of those that stood longest. Each story is read once.
fn add_up(
    stories: &[Story],
    seats: &mut Vec<SeatSum>,
    opened: u64,
    all: u64,
) -> (FateCounts, Option<Wait>)
    requires { vec_len seats.old ≡ most_seats }
    ensures fates { result.0 ≡ numbers_of (map fate_told stories.now) }
    ensures wait { IsLongest opened all stories.now result.1 }
    ensures seats { (before records : List (Record Deed))
        → HasSeats (seat_sum before records opened all []) seats.old.items
        → HasSeats (seat_sum before records opened all stories.now) seats.new.items }
{
    let mut fates = no_fates();
    let mut wait = None;
    for story in stories {
        add(&mut fates, story);
        note(seats, story, opened, all);
        wait = longest_with(wait, story, opened, all);
    }
    (fates, wait)
}

/// Returns the sums of a base and the records since. It allocates for each ticket, and reads each record five times.
///
/// # Errors
/// - Memory, if an allocation fails.
pub fn sum_records(alloc: Global, base: &Base, records: &[Record<Deed>]) -> Result<Sums, Refusal>
    requires entries { length base.now.line + length records.now < 2 ^ 64 }
    requires numbers { base.now.gone + length records.now < 2 ^ 64 }
    ensures sums { IfOk result (AreSums base.now records.now) }
    ensures memory { IfErr result (λ why. why ≡ Memory) }
{
    let Ok(before) = opening(alloc, base) else {
        return Err(Refusal::Memory);
    };
    if records.len() > usize::MAX - before.len() {
        return Err(Refusal::Memory);
    }
    let opened = before.len() as u64;
    let all = opened + records.len() as u64;
    let stories = stories_on(alloc, base, before.as_slice(), records)?;
    let Ok(mut seats) = seats_in(alloc, before.as_slice(), records) else {
        return Err(Refusal::Memory);
    };
    let (fates, wait) = add_up(stories.as_slice(), &mut seats, opened, all);
    Ok(Sums {
        deeds: count_deeds(records),
        fates,
        line: longest_line(base, records),
        wait,
        seats,
    })
}
