//! Whether a call was met or cut so as it doesn't answer: then no history explains it from there.

ghost use Rattle.std.specs.Prelude.{◌≡◌, ◌+◌, ◌<◌, ◌≤◌, ℕ, List, Some, length, IsTrue};
ghost use Rattle.meet_tickets.specs.declared.lines.Entry.{Entry};
ghost use Rattle.meet_tickets.specs.declared.records.Deed.{Deed};
ghost use Rattle.meet_overlap.specs.declared.calls.Stage.TheVariants.{Open};
ghost use Rattle.meet_overlap.specs.Calls.{Tells};
ghost use Rattle.meet_overlap.specs.Known.{IsGone, IsMisled, IsSettledBy};
ghost use Rattle.meet_overlap.specs.Places.{stage_at, world_of};
ghost use Rattle.meet_overlap.specs.Search.{ending_of};

use crate::calls::{Call, Stage};
use crate::fits::tells;
use crate::line::Line;
use crate::next::ends;
use crate::place::hold;
use crate::stages::{Window, stage};
use crate::world::Reached;
use meet_tickets::{Entry, Hold, SeatNo, Ticket};

/// Whether what a seat holds is this ticket, and it was met or cut.
pub(crate) fn is_settled_by(hold: &Hold<u64>, ticket: Ticket) -> bool
    ensures { IsTrue result → IsSettledBy ticket hold.now }
{
    match hold {
        Hold::Free => false,
        Hold::Waiting(_) => false,
        Hold::Handed(held, _, _) => *held == ticket,
        Hold::Served(held, _, _) => *held == ticket,
        Hold::Cut(held, _) => *held == ticket,
    }
}

/// Whether no other call than the one of this number waits by this ticket.
pub(crate) fn is_alone(window: &Window, ticket: Ticket, number: usize) -> bool
    requires { window.now.first ≤ number }
    ensures { IsTrue result → (other : ℕ) → stage_at window.now other ≡ Open ticket → other ≡ number }
{
    let mine = number - window.first;
    for at in 0..window.stages.len() {
        if at != mine {
            if let Stage::Open(held) = window.stages[at] {
                if held == ticket {
                    return false;
                }
            }
        }
    }
    true
}

/// Whether no entry of this seat waits in the line.
pub(crate) fn is_gone(line: &[Entry<u64>], seat: SeatNo) -> bool
    ensures { IsTrue result → IsGone seat line.now }
{
    for at in 0..line.len() {
        if line[at].waits && line[at].seat == seat {
            return false;
        }
    }
    true
}

/// Whether a call whose ticket was met or cut can't end as it did.
fn ends_otherwise(call: &Call, line: &Line, hold: &Hold<u64>, ticket: Ticket) -> bool
    ensures settled { IsTrue result → IsSettledBy ticket hold.now }
    ensures misled { IsTrue result → (other : List (Entry ℕ)) (d : Deed)
        → ending_of other call.now.verb hold.now ≡ Some d → Tells call.now d → ⊥ }
{
    if !is_settled_by(hold, ticket) {
        return false;
    }
    match ends(line, call.verb, hold) {
        None => true,
        Some(deed) => !tells(call, &deed),
    }
}

/// Whether the call of this number is misled.
fn is_misled_at(calls: &[Call], reached: &Reached, number: usize) -> bool
    requires { number < length calls.now }
    ensures { IsTrue result → IsMisled calls.now (world_of reached.now) }
{
    let call = &calls[number];
    if call.returned.is_none() || number < reached.window.first {
        return false;
    }
    let Stage::Open(ticket) = stage(&reached.window, number) else {
        return false;
    };
    let own = number as u64;
    if own == u64::MAX || ticket.number() != own + 1 {
        return false;
    }
    let held = hold(&reached.place.holds, call.seat);
    if !ends_otherwise(call, &reached.place.line, &held, ticket) {
        return false;
    }
    is_alone(&reached.window, ticket, number) && is_gone(reached.place.line.as_slice(), call.seat)
}

/// Whether a call in the window was met or cut so as it doesn't answer.
pub(crate) fn is_misled(calls: &[Call], reached: &Reached) -> bool
    ensures { IsTrue result → IsMisled calls.now (world_of reached.now) }
{
    let first = reached.window.first;
    let behind = reached
        .window
        .stages
        .len()
        .saturating_add(first)
        .min(calls.len());
    for number in first..behind {
        if is_misled_at(calls, reached, number) {
            return true;
        }
    }
    false
}
