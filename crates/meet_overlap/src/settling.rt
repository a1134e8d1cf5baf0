//! The endings of calls that were met or cut. Nobody else sees them, so they are made at once.

ghost use Rattle.std.specs.Prelude.{◌≡◌, ◌<◌, length, IfOk, IfSome, IsTrue};
ghost use Rattle.meet_overlap.specs.Known.{IsBarren, IsSettled};
ghost use Rattle.meet_overlap.specs.Places.{world_of};

use crate::calls::{Call, Stage};
use crate::fault::Fault;
use crate::misled::{is_alone, is_gone, is_settled_by};
use crate::moving::{Move, play};
use crate::place::hold;
use crate::stages::stage;
use crate::world::Reached;
use meet_tickets::Kind;
use std::alloc::Global;

/// Whether the call of this number began, was met or cut, and hasn't ended, and nobody else has to do with its ticket.
fn is_settled(calls: &[Call], reached: &Reached, number: usize) -> bool
    requires { number < length calls.now }
    ensures { IsTrue result → (settled : IsSettled calls.now (world_of reached.now)) × (settled.number ≡ number) }
{
    let call = &calls[number];
    if reached.time < call.begin || number < reached.window.first {
        return false;
    }
    let Stage::Open(ticket) = stage(&reached.window, number) else {
        return false;
    };
    let own = number as u64;
    if own == u64::MAX || ticket.number() != own + 1 {
        return false;
    }
    let held = hold(&reached.place.holds, call.seat);
    if !is_settled_by(&held, ticket) {
        return false;
    }
    is_alone(&reached.window, ticket, number) && is_gone(reached.place.line.as_slice(), call.seat)
}

/// The ending of the first call in the window that was met or cut, and can end.
fn settled_move(
    alloc: Global,
    kind: Kind,
    calls: &[Call],
    reached: &Reached,
) -> Result<Option<Move>, Fault>
    ensures { IfOk result (λ found. IfSome found (λ moved. IsBarren kind calls.now (world_of moved.reached)
        → IsBarren kind calls.now (world_of reached.now))) }
{
    let first = reached.window.first;
    let behind = reached
        .window
        .stages
        .len()
        .saturating_add(first)
        .min(calls.len());
    for number in first..behind {
        if is_settled(calls, reached, number) {
            if let Some(there) = play(alloc, kind, calls, reached, number)? {
                return Ok(Some(Move {
                    number,
                    reached: there,
                    made: 0,
                }));
            }
        }
    }
    Ok(None)
}

/// The world behind the endings of all calls that were met or cut. Who ended is put behind the others in the order.
pub(crate) fn settle(
    alloc: Global,
    kind: Kind,
    calls: &[Call],
    reached: Reached,
    order: &mut Vec<usize>,
) -> Result<Reached, Fault>
    ensures { IfOk result (λ there. IsBarren kind calls.now (world_of there)
        → IsBarren kind calls.now (world_of reached)) }
{
    let mut there = reached;
    for _ in 0..calls.len() {
        match settled_move(alloc, kind, calls, &there)? {
            None => return Ok(there),
            Some(moved) => {
                order.push(moved.number)?;
                there = moved.reached;
            }
        }
    }
    Ok(there)
}
