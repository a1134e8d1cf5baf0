//! Which call has to move first, and which calls are too late for it.

ghost use Rattle.std.specs.Prelude.{◌≡◌, ◌<◌, length, IfOk, IfSome, IsTrue, Some};
ghost use Rattle.meet_overlap.specs.Known.{AreLeast, IsBound, IsDue, IsEndedAt, IsOverdue, IsPatient};
ghost use Rattle.meet_overlap.specs.Places.{world_of};

use crate::calls::{Call, Stage, Verb};
use crate::stages::stage;
use crate::world::Reached;
use std::alloc::{AllocError, Global};

/// A call, and the time by which it has to move.
#[derive(Clone, Copy)]
pub(crate) struct Due {
    pub(crate) number: usize,
    pub(crate) at: u64,
}

/// When a call ended, if it did.
fn ended(call: &Call) -> Option<u64>
    ensures { IfSome result (IsEndedAt call.now) }
{
    match call.returned {
        None => None,
        Some(returned) => Some(returned.at),
    }
}

/// The time by which a call was seen to wait, if it was. An interrupt doesn't wait.
fn seen(call: &Call) -> Option<u64>
    ensures { IfSome result (λ at. IsPatient call.now.verb × (call.now.waits ≡ Some at)) }
{
    match call.verb {
        Verb::Keep(_) => call.waits,
        Verb::Give(_, _) => call.waits,
        Verb::Take(_) => call.waits,
        Verb::Interrupt(_) => None,
    }
}

/// The time by which a call that is so far has to move, if it has to.
fn bound(call: &Call, stage: &Stage) -> Option<u64>
    ensures { IfSome result (IsBound call.now stage.now) }
{
    match stage {
        Stage::Over => None,
        Stage::Open(_) => ended(call),
        Stage::Ahead => match seen(call) {
            None => ended(call),
            Some(by) => match ended(call) {
                None => Some(by),
                Some(at) => { if at < by { Some(at) } else { Some(by) } }
            },
        },
    }
}

/// The time by which the call of this number has to move, if it has to.
fn bound_of(calls: &[Call], reached: &Reached, number: usize) -> Option<u64>
    requires { number < length calls.now }
    ensures { IfSome result (λ at. IsDue calls.now (world_of reached.now) number at) }
{
    let stage = stage(&reached.window, number);
    bound(&calls[number], &stage)
}

/// Of the calls in the window, and the one behind it, that which has to move first.
pub(crate) fn first_due(calls: &[Call], reached: &Reached) -> Option<Due>
    ensures { IfSome result (λ due. IsDue calls.now (world_of reached.now) due.number due.at) }
{
    let first = reached.window.first;
    let behind = reached
        .window
        .stages
        .len()
        .saturating_add(1)
        .saturating_add(first)
        .min(calls.len());
    let mut least: Option<Due> = None;
    for number in first..behind {
        if let Some(at) = bound_of(calls, reached, number) {
            least = match least {
                None => Some(Due { number, at }),
                Some(due) => {
                    if at < due.at {
                        Some(Due { number, at })
                    } else {
                        Some(due)
                    }
                }
            };
        }
    }
    least
}

/// Whether a call should have moved before now.
pub(crate) fn is_overdue(calls: &[Call], reached: &Reached) -> bool
    ensures { IsTrue result → IsOverdue calls.now (world_of reached.now) }
{
    match first_due(calls, reached) {
        None => false,
        Some(due) => due.at < reached.time,
    }
}

/// The least begin among the calls from each number on.
pub(crate) fn least_begins(alloc: Global, calls: &[Call]) -> Result<Vec<u64>, AllocError>
    ensures { IfOk result (λ begins. AreLeast calls.now begins.items) }
{
    let count = calls.len();
    let mut begins = Vec::new(alloc);
    for _ in 0..count {
        begins.push(0)?;
    }
    let mut least = u64::MAX;
    for behind in 0..count {
        let number = count - 1 - behind;
        least = least.min(calls[number].begin);
        begins[number] = least;
    }
    Ok(begins)
}
