//! The rounds of the slots, rebuilt from the seats' lists in three sweeps.

ghost use Rattle.std.specs.Prelude.{◌≡◌, ◌≤◌, ◌<◌, ◌++◌, ◌∷◌, [], if◌then◌else◌, ℕ, map, replicate, length, IfSome};
ghost use Rattle.meet_tickets.specs.Limits.{most_seats};
ghost use Rattle.meet_exchange.specs.declared.rebuild.Pass.TheVariants.{Posts, Ends, Collects};
ghost use Rattle.meet_exchange.specs.Rounds.{in_slot};
ghost use Rattle.meet_exchange.specs.Rebuild.{writer, written, all_written, swept, collected_end as after_collect};
ghost use Rattle.meet_exchange.specs.Rebuild.{blank as nothing_known, is_post as posts_in_deed};
ghost use Rattle.meet_exchange.specs.Rebuild.{posts_among, posts_of, rebuilt_from};
ghost use Rattle.meet_exchange.specs.Closed.{back_lists, entry_at, numbered};

use crate::records::{Part, Round, RoundEnd, SlotDeed};
use crate::seats::Back;
use meet_tickets::SeatNo;
use std::alloc::Global;

/// What a sweep looks at.
#[derive(Clone, Copy)]
pub(crate) enum Pass {
    Posts,
    Ends,
    Collects,
}

/// The round after a part of this seat's.
fn entry_after(pass: Pass, number: SeatNo, deed: SlotDeed, entry: Round) -> Round
    ensures { result ≡ writer pass number deed entry }
{
    match (pass, deed) {
        (Pass::Posts, SlotDeed::Posted(mark)) => Round {
            seat: number,
            mark,
            end: RoundEnd::Posted,
        },
        (Pass::Ends, SlotDeed::Withdrawn) => Round {
            seat: entry.seat,
            mark: entry.mark,
            end: RoundEnd::Withdrawn,
        },
        (Pass::Ends, SlotDeed::Swapped { gave, got: _ }) => Round {
            seat: entry.seat,
            mark: entry.mark,
            end: RoundEnd::Swapped {
                by: number,
                mark: gave,
                collected: false,
            },
        },
        (Pass::Collects, SlotDeed::Collected { got: _ }) => Round {
            seat: entry.seat,
            mark: entry.mark,
            end: collected_end(entry.end),
        },
        _ => entry,
    }
}

/// The end once it was collected.
fn collected_end(end: RoundEnd) -> RoundEnd
    ensures { result ≡ after_collect end }
{
    match end {
        RoundEnd::Swapped {
            by,
            mark,
            collected: _,
        } => RoundEnd::Swapped {
            by,
            mark,
            collected: true,
        },
        _ => end,
    }
}

/// Writes one part of a seat's.
fn write(pass: Pass, number: SeatNo, part: Part, start: u64, rounds: &mut [Round])
    ensures { rounds.new ≡ written (writer pass) start number part rounds.old }
{
    let i = part.round.saturating_sub(start) as usize;
    if i < rounds.len() {
        rounds[i] = entry_after(pass, number, part.deed, rounds[i]);
    }
}

/// Writes the parts of a seat in the slot.
fn sweep_list(
    pass: Pass,
    number: SeatNo,
    list: &[Part],
    slot: usize,
    start: u64,
    rounds: &mut [Round],
)
    ensures { rounds.new ≡ all_written (writer pass) start number (in_slot slot list.now) rounds.old }
{
    for part in list {
        if part.slot == slot {
            write(pass, number, *part, start, rounds);
        }
    }
}

/// Writes the parts of all seats in the slot.
fn sweep(pass: Pass, lists: &[Vec<Part>], slot: usize, start: u64, rounds: &mut [Round])
    requires seats { length lists.now ≤ most_seats }
    ensures { rounds.new ≡ swept (writer pass) start slot (numbered 0 (map (λ list. list.items) lists.now)) rounds.old }
{
    let mut number = 0;
    for list in lists {
        let seat = SeatNo::new(number).unwrap();
        sweep_list(pass, seat, list.as_slice(), slot, start, rounds);
        number += 1;
    }
}

/// Fills the rounds of a slot in. They are blank, and as many as the slot had.
fn fill_in(lists: &[Vec<Part>], slot: usize, start: u64, rounds: &mut [Round])
    requires seats { length lists.now ≤ most_seats }
    ensures { rounds.new ≡ rebuilt_from start slot (numbered 0 (map (λ list. list.items) lists.now)) rounds.old }
{
    sweep(Pass::Posts, lists, slot, start, rounds);
    sweep(Pass::Ends, lists, slot, start, rounds);
    sweep(Pass::Collects, lists, slot, start, rounds);
}

/// Fills the rounds of all slots in.
pub(crate) fn fill_all(lists: &[Vec<Part>], start: u64, slots: &mut Vec<Vec<Round>>)
    requires seats { length lists.now ≤ most_seats }
    ensures count { length slots.new.items ≡ length slots.old.items }
    ensures each { (k : ℕ) → k < length slots.old.items → entry_at (map (λ rounds. rounds.items) slots.new.items) k
        ≡ rebuilt_from start k (numbered 0 (map (λ list. list.items) lists.now))
        (entry_at (map (λ rounds. rounds.items) slots.old.items) k) }
{
    for slot in 0..slots.len() {
        fill_in(lists, slot, start, slots[slot].as_mut_slice());
    }
}

/// Whether it is a post.
fn is_post(deed: SlotDeed) -> bool
    ensures { (if result then 1 else 0) ≡ posts_in_deed deed }
{
    match deed {
        SlotDeed::Posted(_) => true,
        _ => false,
    }
}

/// A blank round, where it is a post in the slot; or none, if an allocation fails.
fn add_post(rounds: &mut Vec<Round>, slot: usize, part: &Part) -> Option<()>
    ensures { IfSome result (λ _. rounds.new.items
        ≡ rounds.old.items ++ replicate (posts_among (in_slot slot (part.now ∷ []))) nothing_known) }
{
    if part.slot == slot && is_post(part.deed) {
        let seat = SeatNo::new(0).unwrap();
        let end = RoundEnd::Posted;
        rounds.push(Round { seat, mark: 0, end }).ok()?;
    }
    Some(())
}

/// A blank round for each post of a list in the slot; or none, if an allocation fails.
fn add_posts(rounds: &mut Vec<Round>, slot: usize, list: &[Part]) -> Option<()>
    ensures { IfSome result (λ _. rounds.new.items
        ≡ rounds.old.items ++ replicate (posts_among (in_slot slot list.now)) nothing_known) }
{
    for part in list {
        add_post(rounds, slot, part)?;
    }
    Some(())
}

/// As many blank rounds as the seats posted in the slot; or none, if an allocation fails.
fn blanks_of<T>(alloc: Global, slot: usize, seats: &[Back<T>]) -> Option<Vec<Round>>
    ensures { IfSome result (λ rounds. rounds.items
        ≡ replicate (posts_of slot (back_lists seats.now)) nothing_known) }
{
    let mut rounds = Vec::new(alloc);
    for back in seats {
        add_posts(&mut rounds, slot, back.parts())?;
    }
    Some(rounds)
}

/// The same for all slots.
pub(crate) fn blanks<T>(alloc: Global, slots: usize, seats: &[Back<T>]) -> Option<Vec<Vec<Round>>>
    ensures count { IfSome result (λ all. length all.items ≡ slots) }
    ensures each { IfSome result (λ all. (k : ℕ) → k < slots → entry_at (map (λ rounds. rounds.items) all.items) k
        ≡ replicate (posts_of k (back_lists seats.now)) nothing_known) }
{
    let mut all = Vec::with_capacity(alloc, slots).ok()?;
    for slot in 0..slots {
        all.push_reserved(blanks_of(alloc, slot, seats)?);
    }
    Some(all)
}
