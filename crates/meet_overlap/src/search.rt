//! The search for an order in which calls make their records (Wing and Gong 1993), with a memory of what leads nowhere
//! (Lowe 2017). It is depth first; each search step (move) is the next record of one call.
//!
//! - A call has at most one next record at a known place, so a move is a call (`next`, `moving`).
//! - A call that was matched or interrupted ends at once, since no other call sees that (`settling`).
//! - What leads nowhere is left early: a call is late (`due`), was matched in a way that contradicts its result
//!   (`misled`), or the state was seen before (`seen`).
//! - What is found is written once more with tickets in their order, which makes it a history (`judging`).

ghost use Rattle.std.specs.Prelude.{IfOk, IfErr, IsTrue, List};
ghost use Rattle.meet_tickets.specs.declared.records.Record.{Record};
ghost use Rattle.meet_tickets.specs.declared.records.Deed.{Deed};
ghost use Rattle.meet_overlap.specs.Explaining.{Explains};
ghost use Rattle.meet_overlap.specs.Known.{AreBarren, AreLeast, IsBarren};
ghost use Rattle.meet_overlap.specs.Places.{world_of};

use crate::calls::{Call, Stage};
use crate::due::{first_due, is_overdue};
use crate::fault::Fault;
use crate::fits::may_all_stop;
use crate::misled::is_misled;
use crate::moving::{Move, next_move};
use crate::seen::Seen;
use crate::settling::settle;
use crate::world::{Reached, beginning};
use meet_tickets::Kind;
use std::alloc::Global;

/// How far the search came, if no history explains the calls.
#[derive(Clone, Copy, PartialEq, Eq, Debug)]
pub struct Stuck {
    /// How many calls had made all of their records in the longest partial explanation, the first such order.
    pub explained: usize,
    /// Of the calls that were left there, the one that had to move first: its index in the list.
    pub call: Option<usize>,
}

/// How many calls are over.
fn over(reached: &Reached) -> usize {
    let mut count = reached.window.first;
    for stage in &reached.window.stages {
        if let Stage::Over = stage {
            count = count.saturating_add(1);
        }
    }
    count
}

/// How far this world is.
fn stuck_at(calls: &[Call], reached: &Reached) -> Stuck {
    Stuck {
        explained: over(reached),
        call: match first_due(calls, reached) {
            None => None,
            Some(due) => Some(due.number),
        },
    }
}

/// Whether it is known that this world leads nowhere: a call should have ended, or was met so as it doesn't answer, or
/// the world was seen before.
fn leads_nowhere(kind: Kind, calls: &[Call], reached: &Reached, seen: &Seen) -> bool
    requires { AreBarren kind calls.now seen.now.worlds.items }
    ensures { IsTrue result → IsBarren kind calls.now (world_of reached.now) }
{
    if is_overdue(calls, reached) {
        return true;
    }
    if is_misled(calls, reached) {
        return true;
    }
    seen.has(reached)
}

/// The calls that make their records, in order, to where each may be left as it is; or how far the search came, where
/// no history explains the calls. It makes at most `limit` moves, and else fails with Limit.
pub(crate) fn search(
    alloc: Global,
    kind: Kind,
    calls: &[Call],
    begins: &[u64],
    limit: u64,
) -> Result<Result<Vec<usize>, Stuck>, Fault>
    requires least { AreLeast calls.now begins.now }
    ensures none { IfOk result (λ found. IfErr found (λ _.
        (history : List (Record Deed)) → Explains kind calls.now history → ⊥)) }
{
    let mut reached = beginning(alloc);
    if may_all_stop(calls, &reached.window) {
        return Ok(Ok(Vec::new(alloc)));
    }
    let mut stuck = stuck_at(calls, &reached);
    let mut most = 0;
    let mut path: Vec<Move> = Vec::new(alloc);
    let mut order = Vec::new(alloc);
    let mut seen = Seen::nothing(alloc)?;
    let mut next = 0;
    for _ in 0..limit {
        match next_move(alloc, kind, calls, begins, &reached, next)? {
            Some(then) => {
                let made = order.len();
                order.push(then.number)?;
                let there = settle(alloc, kind, calls, then.reached, &mut order)?;
                if may_all_stop(calls, &there.window) {
                    return Ok(Ok(order));
                }
                if leads_nowhere(kind, calls, &there, &seen) {
                    order.truncate(made);
                    next = then.number.saturating_add(1);
                } else {
                    if most < order.len() {
                        most = order.len();
                        stuck = stuck_at(calls, &there);
                    }
                    next = there.window.first;
                    path.push(Move {
                        number: then.number,
                        reached,
                        made,
                    })?;
                    reached = there;
                }
            }
            None => match path.pop() {
                None => return Ok(Err(stuck)),
                Some(moved) => {
                    seen.note(reached)?;
                    order.truncate(moved.made);
                    next = moved.number.saturating_add(1);
                    reached = moved.reached;
                }
            },
        }
    }
    Err(Fault::Limit)
}
