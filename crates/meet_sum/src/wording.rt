//! The text of sums, a fact a line. If memory runs out, nothing is stated of what was appended.

ghost use Rattle.std.specs.Prelude.{◌≡◌, ◌++◌, OnOk};
ghost use Rattle.meet_sum.specs.SumTexts.{count_line, give_deeds_text, take_deeds_text, end_deeds_text};
ghost use Rattle.meet_sum.specs.SumTexts.{open_fates_text, ended_fates_text, other_fates_text};
ghost use Rattle.meet_sum.specs.SumTexts.{longest_line_text, waited_text, wait_text, stay_text, seat_text, seats_text};
ghost use Rattle.meet_sum.specs.SumTexts.{sums_text};

use crate::deeds::DeedCounts;
use crate::fates::FateCounts;
use crate::line::LongestLine;
use crate::seats::SeatSum;
use crate::sums::Sums;
use crate::waits::Wait;
use meet_run::text::wording::{push_numbered, push_pair};
use std::alloc::AllocError;

/// Appends a number after a word, as a line.
#[tactic(auto, unfolding(crate::specs::SumTexts::count_line))]
fn push_count(out: &mut Vec<u8>, word: &[u8], number: u64) -> Result<(), AllocError>
    ensures { OnOk result (out.new.items ≡ out.old.items ++ count_line word.now number) }
{
    push_numbered(out, word, number)?;
    out.extend_from_slice(b"\n")
}

/// Appends how many requests are producers', by their deeds.
#[tactic(auto, unfolding(crate::specs::SumTexts::give_deeds_text))]
fn push_give_deeds(out: &mut Vec<u8>, counts: &DeedCounts) -> Result<(), AllocError>
    ensures { OnOk result (out.new.items ≡ out.old.items ++ give_deeds_text counts.now) }
{
    push_count(out, b"deed give-waits ", counts.give_waits)?;
    push_count(out, b"deed give-meets ", counts.give_meets)?;
    push_count(out, b"deed give-fails ", counts.give_fails)?;
    push_count(out, b"deed give-kept ", counts.give_kept)?;
    Ok(())
}

/// Appends how many requests are consumers', by their deeds, and how many were refused at their entry.
#[tactic(auto, unfolding(crate::specs::SumTexts::take_deeds_text))]
fn push_take_deeds(out: &mut Vec<u8>, counts: &DeedCounts) -> Result<(), AllocError>
    ensures { OnOk result (out.new.items ≡ out.old.items ++ take_deeds_text counts.now) }
{
    push_count(out, b"deed take-waits ", counts.take_waits)?;
    push_count(out, b"deed take-meets ", counts.take_meets)?;
    push_count(out, b"deed take-fails ", counts.take_fails)?;
    push_count(out, b"deed entry-interrupted ", counts.entry_interrupted)?;
    Ok(())
}

/// Appends how many records completed a ticket, or interrupted a seat, by their deeds.
#[tactic(auto, unfolding(crate::specs::SumTexts::end_deeds_text))]
fn push_end_deeds(out: &mut Vec<u8>, counts: &DeedCounts) -> Result<(), AllocError>
    ensures { OnOk result (out.new.items ≡ out.old.items ++ end_deeds_text counts.now) }
{
    push_count(out, b"deed done ", counts.done)?;
    push_count(out, b"deed got ", counts.got)?;
    push_count(out, b"deed withdrawn ", counts.withdrawn)?;
    push_count(out, b"deed interrupt ", counts.interrupt)?;
    Ok(())
}

/// Appends how many tickets stand in the wait queue, and how many were matched.
#[tactic(auto, unfolding(crate::specs::SumTexts::open_fates_text))]
fn push_open_fates(out: &mut Vec<u8>, counts: &FateCounts) -> Result<(), AllocError>
    ensures { OnOk result (out.new.items ≡ out.old.items ++ open_fates_text counts.now) }
{
    push_count(out, b"fate waiting ", counts.waiting)?;
    push_count(out, b"fate kept ", counts.kept)?;
    push_count(out, b"fate paired ", counts.paired)?;
    push_count(out, b"fate collected ", counts.collected)?;
    Ok(())
}

/// Appends how many tickets were withdrawn, by their causes.
#[tactic(auto, unfolding(crate::specs::SumTexts::ended_fates_text))]
fn push_ended_fates(out: &mut Vec<u8>, counts: &FateCounts) -> Result<(), AllocError>
    ensures { OnOk result (out.new.items ≡ out.old.items ++ ended_fates_text counts.now) }
{
    push_count(out, b"fate cancelled ", counts.cancelled)?;
    push_count(out, b"fate expired ", counts.expired)?;
    push_count(out, b"fate interrupted ", counts.interrupted)?;
    Ok(())
}

/// Appends how many tickets were interrupted, failed or were refused.
#[tactic(auto, unfolding(crate::specs::SumTexts::other_fates_text))]
fn push_other_fates(out: &mut Vec<u8>, counts: &FateCounts) -> Result<(), AllocError>
    ensures { OnOk result (out.new.items ≡ out.old.items ++ other_fates_text counts.now) }
{
    push_count(out, b"fate cut ", counts.cut)?;
    push_count(out, b"fate failed ", counts.failed)?;
    push_count(out, b"fate entry-refused ", counts.entry_refused)?;
    Ok(())
}

/// Appends the longest wait queue.
#[tactic(auto, unfolding(crate::specs::SumTexts::longest_line_text))]
fn push_longest_line(out: &mut Vec<u8>, line: &LongestLine) -> Result<(), AllocError>
    ensures { OnOk result (out.new.items ≡ out.old.items ++ longest_line_text line.now) }
{
    push_pair(
        out,
        b"longest line ",
        line.entries,
        b" behind ",
        line.behind,
    )?;
    out.extend_from_slice(b"\n")
}

/// Appends how long a ticket of a seat waited.
#[tactic(auto, unfolding(crate::specs::SumTexts::waited_text))]
fn push_waited(out: &mut Vec<u8>, records: u64, ticket: u64, seat: u64) -> Result<(), AllocError>
    ensures { OnOk result (out.new.items ≡ out.old.items ++ waited_text records ticket seat) }
{
    push_pair(out, b"longest wait ", records, b" ticket ", ticket)?;
    push_numbered(out, b" seat ", seat)?;
    out.extend_from_slice(b"\n")?;
    Ok(())
}

/// Appends the longest wait.
#[tactic(auto, unfolding(crate::specs::SumTexts::wait_text))]
fn push_wait(out: &mut Vec<u8>, wait: Option<Wait>) -> Result<(), AllocError>
    ensures { OnOk result (out.new.items ≡ out.old.items ++ wait_text wait) }
{
    match wait {
        None => out.extend_from_slice(b"longest wait none\n"),
        Some(wait) => push_waited(out, wait.records, wait.ticket.number(), wait.seat.number()),
    }
}

/// Appends how long a seat waited at most.
#[tactic(auto, unfolding(crate::specs::SumTexts::stay_text))]
fn push_stay(out: &mut Vec<u8>, wait: Option<u64>) -> Result<(), AllocError>
    ensures { OnOk result (out.new.items ≡ out.old.items ++ stay_text wait) }
{
    match wait {
        None => out.extend_from_slice(b" wait none\n"),
        Some(records) => {
            push_numbered(out, b" wait ", records)?;
            out.extend_from_slice(b"\n")
        }
    }
}

/// Appends the counts of the seat of this number, if it is there.
#[tactic(auto, unfolding(crate::specs::SumTexts::seat_text))]
fn push_seat(out: &mut Vec<u8>, seat: u64, sum: &SeatSum) -> Result<(), AllocError>
    ensures { OnOk result (out.new.items ≡ out.old.items ++ seat_text seat sum.now) }
{
    if sum.present {
        push_pair(out, b"seat ", seat, b" records ", sum.records)?;
        push_numbered(out, b" requests ", sum.requests)?;
        push_stay(out, sum.wait)
    } else {
        Ok(())
    }
}

/// Appends the counts of seats, from 0 on.
fn push_seats(out: &mut Vec<u8>, sums: &[SeatSum]) -> Result<(), AllocError>
    ensures { OnOk result (out.new.items ≡ out.old.items ++ seats_text 0 sums.now) }
{
    for (seat, sum) in sums.iter().enumerate() {
        push_seat(out, seat as u64, sum)?;
    }
    Ok(())
}

/// Appends sums.
#[tactic(auto, unfolding(crate::specs::SumTexts::sums_text))]
pub(crate) fn push_sums(out: &mut Vec<u8>, sums: &Sums) -> Result<(), AllocError>
    ensures { OnOk result (out.new.items ≡ out.old.items ++ sums_text sums.now) }
{
    push_give_deeds(out, &sums.deeds)?;
    push_take_deeds(out, &sums.deeds)?;
    push_end_deeds(out, &sums.deeds)?;
    push_open_fates(out, &sums.fates)?;
    push_ended_fates(out, &sums.fates)?;
    push_other_fates(out, &sums.fates)?;
    push_longest_line(out, &sums.line)?;
    push_wait(out, sums.wait)?;
    push_seats(out, sums.seats.as_slice())?;
    Ok(())
}
