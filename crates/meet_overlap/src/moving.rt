//! The next event of a call, and the next call that has one.

ghost use Rattle.std.specs.Prelude.{◌≡◌, ◌<◌, length, slice_index_or, None, MatchOption, IfOk, IfSome, IfNone, IsTrue};
ghost use Rattle.std.specs.Prelude.{IsSomeAnd};
ghost use Rattle.meet_overlap.specs.Known.{HasNoPlay, HasNonePlayed, LeadsOn, AreLeast};
ghost use Rattle.meet_overlap.specs.Places.{scene, world_of};
ghost use Rattle.meet_overlap.specs.Plays.{own_ticket, play_ticket};

use crate::calls::{Call, Stage, Verb};
use crate::due::{Due, first_due};
use crate::fault::Fault;
use crate::fits::{is_within, tells};
use crate::making::entry_held;
use crate::next::deed;
use crate::place::Place;
use crate::stages::stage;
use crate::turns::is_in_turn;
use crate::world::{Reached, after};
use meet_tickets::{Kind, Record, Ticket};
use std::alloc::Global;

/// The ticket of a request: one more than its call's number, or for an interrupt the one that is cut.
fn request_ticket(place: &Place, number: usize, verb: Verb) -> Option<Ticket>
    ensures { IfSome result (λ ticket. ticket ≡ own_ticket (scene place.now).seats number verb) }
{
    if let Verb::Interrupt(target) = verb {
        return match entry_held(place, target) {
            Some(cut) => Some(cut.ticket),
            None => Ticket::new(0),
        };
    }
    let number = number as u64;
    if number == u64::MAX {
        return None;
    }
    Ticket::new(number + 1)
}

/// The ticket of the next record of a call that is so far.
fn ticket(place: &Place, number: usize, verb: Verb, stage: &Stage) -> Option<Ticket>
    ensures { IfSome result (λ ticket. ticket ≡ play_ticket (scene place.now).seats number verb stage.now) }
{
    match stage {
        Stage::Ahead => request_ticket(place, number, verb),
        Stage::Open(ticket) => Some(*ticket),
        Stage::Over => Ticket::new(0),
    }
}

/// What the next event of the call of this number leaves, if it has one.
pub(crate) fn play(
    alloc: Global,
    kind: Kind,
    calls: &[Call],
    reached: &Reached,
    number: usize,
) -> Result<Option<Reached>, Fault>
    requires { number < length calls.now }
    ensures { IfOk result (λ found. MatchOption found (HasNoPlay kind calls.now (world_of reached.now) number)
        (λ then. LeadsOn kind calls.now (world_of reached.now) number (world_of then))) }
{
    let call = &calls[number];
    let stage = stage(&reached.window, number);
    let Some(deed) = deed(kind, &reached.place, call, &stage) else {
        return Ok(None);
    };
    let time = if reached.time < call.begin {
        call.begin
    } else {
        reached.time
    };
    if !tells(call, &deed) {
        return Ok(None);
    }
    if !is_within(call, time, &deed) {
        return Ok(None);
    }
    if !is_in_turn(calls, &reached.window, number) {
        return Ok(None);
    }
    let Some(ticket) = ticket(&reached.place, number, call.verb, &stage) else {
        return Err(Fault::TicketsSpent);
    };
    let entry = Record {
        seat: call.seat,
        ticket,
        deed,
    };
    let then = after(alloc, kind, reached, number, time, &entry)?;
    Ok(Some(then))
}

/// A call that moves, and what its event leaves; or a call that moved, and the world in which it did.
#[derive(Drop)]
pub(crate) struct Move {
    pub(crate) number: usize,
    pub(crate) reached: Reached,
    /// How many moves had been made before it.
    pub(crate) made: usize,
}

/// Whether no call from this number on can begin before one that is due has ended.
fn is_too_late(due: Option<Due>, begins: &[u64], number: usize) -> bool
    ensures { IsTrue result → IsSomeAnd due (λ due. (due.number < number)
        × (due.at < slice_index_or begins.now number 0)) }
{
    match due {
        None => false,
        Some(due) => number < begins.len() && due.number < number && due.at < begins[number],
    }
}

/// The next call from this number on that has an event, and what that leaves.
pub(crate) fn next_move(
    alloc: Global,
    kind: Kind,
    calls: &[Call],
    begins: &[u64],
    reached: &Reached,
    from: usize,
) -> Result<Option<Move>, Fault>
    requires least { AreLeast calls.now begins.now }
    ensures leads { IfOk result (λ found. IfSome found (λ then.
        LeadsOn kind calls.now (world_of reached.now) then.number (world_of then.reached))) }
    ensures passed { IfOk result (λ found. IfSome found (λ then.
        HasNonePlayed kind calls.now (world_of reached.now) from
        → HasNonePlayed kind calls.now (world_of reached.now) then.number)) }
    ensures none { IfOk result (λ found. IfNone found (HasNonePlayed kind calls.now (world_of reached.now) from
        → HasNonePlayed kind calls.now (world_of reached.now) (length calls.now))) }
{
    let due = first_due(calls, reached);
    for number in from..calls.len() {
        if is_too_late(due, begins, number) {
            return Ok(None);
        }
        if let Some(reached) = play(alloc, kind, calls, reached, number)? {
            return Ok(Some(Move {
                number,
                reached,
                made: 0,
            }));
        }
    }
    Ok(None)
}
