//! Whether a call comes in its seat's turn. The calls of a seat make their records in their order, also if two of them
//! share a time.

ghost use Rattle.std.specs.Prelude.{◌≡◌, ◌↔◌, ◌+◌, ◌<◌, ◌≤◌, length, IsTrue, OnOk};
ghost use Rattle.meet_tickets.specs.BySeat.{put_at};
ghost use Rattle.meet_overlap.specs.Calls.{IsInTurn};
ghost use Rattle.meet_overlap.specs.Places.{latest_at, stage_at};
ghost use Rattle.meet_overlap.specs.declared.calls.Stage.TheVariants.{Ahead};

use crate::calls::{Call, Stage};
use crate::stages::{Window, stage};
use meet_tickets::SeatNo;
use std::alloc::AllocError;

/// Whether a call that is so far hasn't begun.
fn is_ahead(stage: Stage) -> bool
    ensures { IsTrue result ↔ (stage ≡ Ahead) }
{
    match stage {
        Stage::Ahead => true,
        Stage::Open(_) => false,
        Stage::Over => false,
    }
}

/// The number of the first call after the window, or of calls if there is none.
fn end_of(window: &Window, count: usize) -> usize
    ensures within { result ≤ count }
    ensures behind { result < count → window.now.first + length window.now.stages.items ≤ result }
{
    match window.first.checked_add(window.stages.len()) {
        Some(end) => end.min(count),
        None => count,
    }
}

/// Whether no call of its seat that stands behind the one of this number has begun.
pub(crate) fn is_in_turn(calls: &[Call], window: &Window, number: usize) -> bool
    requires { number < length calls.now }
    ensures { IsTrue result ↔ IsInTurn calls.now (stage_at window.now) number }
{
    let seat = calls[number].seat;
    let end = end_of(window, calls.len());
    for later in number + 1..end {
        if calls[later].seat == seat && !is_ahead(stage(window, later)) {
            return false;
        }
    }
    true
}

/// Whether the latest call of this seat that has begun is none behind the one of this number.
pub(crate) fn is_latest(latest: &[usize], seat: SeatNo, number: usize) -> bool
    ensures { IsTrue result → latest_at latest.now seat ≤ number }
{
    let index = seat.number() as usize;
    if index < latest.len() {
        latest[index] <= number
    } else {
        true
    }
}

/// Notes which call of a seat began last. Fails only if an allocation fails.
pub(crate) fn put_latest(
    latest: &mut Vec<usize>,
    seat: SeatNo,
    number: usize,
) -> Result<(), AllocError>
    ensures { OnOk result (latest_at latest.new.items ≡ put_at (latest_at latest.old.items) seat number) }
{
    let index = seat.number() as usize;
    while latest.len() <= index {
        latest.push(0)?;
    }
    latest[index] = number;
    Ok(())
}
