//! When each call makes its records, as the guess has it.

use crate::calls::{Call, Verb};
use crate::guess::buffer::{guess_buffer, is_buffer};
use crate::guess::busy::Busy;
use crate::guess::flags::Flags;
use crate::guess::partners::Partners;
use crate::guess::parts::{Known, Moment, Part, Row, Way};
use crate::guess::stays::{Placed, place};
use crate::guess::ties::in_order;
use meet_tickets::{Kind, Side};
use std::alloc::{AllocError, Global};

/// How often a moment looks for a time at which both sides of the wait queue are empty.
const LOOKS: usize = 64;

/// How often a plan is made anew because calls that were to pass have to stay in the wait queue.
const ROUNDS: usize = 16;

/// What is planned for one time stands by its rank.
#[derive(Clone, Copy, PartialEq, Eq, PartialOrd, Ord)]
enum Rank {
    /// A seat is flagged, whose next call is interrupted at its entry at this time.
    Strikes,
    /// An entry leaves the wait queue.
    Leaves,
    /// Two calls meet, or a call fails: the wait queue is as it was before.
    Passes,
    /// An entry joins the wait queue.
    Enters,
    /// A seat is flagged.
    Flags,
}

/// The next record of a call. Turns stand by their times; those of one time by their rank, then by the item that they
/// belong to, and within that in its order.
#[derive(Clone, Copy, PartialEq, Eq, PartialOrd, Ord)]
pub(crate) struct Turn {
    pub(crate) at: u64,
    rank: Rank,
    item: usize,
    step: u8,
    pub(crate) number: usize,
}

impl Turn {
    /// Whether two turns belong to one item, and come one right after the other.
    pub(crate) fn is_with(&self, other: &Turn) -> bool {
        self.at == other.at && self.rank == other.rank && self.item == other.item
    }
}

/// What was planned so far.
#[derive(Drop)]
struct Draft {
    turns: Vec<Turn>,
    /// When producers stand in the wait queue.
    givers: Busy,
    /// When consumers do.
    takers: Busy,
}

impl Draft {
    fn put(
        &mut self,
        at: u64,
        rank: Rank,
        item: usize,
        step: u8,
        number: Option<usize>,
    ) -> Result<(), AllocError> {
        if let Some(number) = number {
            self.turns.push(Turn {
                at,
                rank,
                item,
                step,
                number,
            })?;
        }
        Ok(())
    }

    /// Plans a stay, the one of this number.
    fn put_stay(&mut self, calls: &[Call], placed: &Placed, item: usize) -> Result<(), AllocError> {
        let stay = &placed.stay;
        let (enters, leaves) = if placed.enters < placed.leaves {
            (Rank::Enters, Rank::Leaves)
        } else {
            (Rank::Passes, Rank::Passes)
        };
        let goes_on = stay.owner < calls.len()
            && match calls[stay.owner].verb {
                Verb::Keep(_) => true,
                _ => false,
            };
        let ends = if goes_on { None } else { Some(stay.owner) };
        self.put(placed.enters, enters, item, 0, Some(stay.owner))?;
        if stay.other.is_some() {
            self.put(placed.leaves, leaves, item, 1, stay.other)?;
            self.put(placed.leaves, leaves, item, 2, ends)?;
        }
        match stay.side {
            Side::Giver => self.givers.note(placed.enters, placed.leaves),
            Side::Taker => self.takers.note(placed.enters, placed.leaves),
        }
    }

    /// The first time of its span at which a moment can be; or the side of the wait queue that isn't empty.
    fn time_of(&self, moment: &Moment) -> Result<u64, Side> {
        let mut at = moment.span.from;
        let mut side = Side::Giver;
        for _ in 0..LOOKS {
            let mut next = at;
            if moment.no_givers {
                next = self.givers.free_from(next);
                if next != at {
                    side = Side::Giver;
                }
            }
            if moment.no_takers {
                let then = self.takers.free_from(next);
                if then != next {
                    side = Side::Taker;
                }
                next = then;
            }
            if next == at {
                return Ok(at);
            }
            if moment.span.by < next {
                return Err(side);
            }
            at = next;
        }
        Err(side)
    }

    /// Plans a moment for this time.
    fn put_moment(&mut self, at: u64, row: &Row) -> Result<(), AllocError> {
        self.put(at, Rank::Passes, row.first, 0, Some(row.first))?;
        self.put(at, Rank::Passes, row.first, 1, row.second)?;
        self.put(at, Rank::Passes, row.first, 2, row.third)
    }

    /// Plans the interrupts that flag seats.
    fn put_flags(&mut self, flags: &Flags) -> Result<(), AllocError> {
        for flag in &flags.flags {
            let rank = if flag.from < flag.until {
                Rank::Flags
            } else {
                Rank::Strikes
            };
            self.put(flag.from, rank, flag.number, 0, Some(flag.number))?;
        }
        Ok(())
    }

    /// Plans what passes. Returns the pairs that find no time for it, each with the side of the wait queue that isn't
    /// empty; none if there is no time for a call that can't stay there.
    fn put_moments(
        &mut self,
        alloc: Global,
        known: Known<'_>,
    ) -> Result<Option<Vec<Blocked>>, AllocError> {
        let mut blocked = Vec::new(alloc);
        for number in 0..known.calls.len() {
            if let Part::Passes(moment) = known.part(number) {
                match self.time_of(&moment) {
                    Ok(at) => self.put_moment(at, &moment.row)?,
                    Err(side) => match moment.pair {
                        Some(giver) => blocked.push(Blocked { giver, side })?,
                        None => return Ok(None),
                    },
                }
            }
        }
        Ok(Some(blocked))
    }
}

/// A pair that can't pass in a moment, by its producer, and the side of the wait queue that isn't empty.
#[derive(Clone, Copy)]
struct Blocked {
    giver: usize,
    side: Side,
}

/// What came of one plan.
#[derive(Drop)]
enum Planned {
    /// The order in which the calls make their records.
    Order(Vec<usize>),
    /// These pairs have to stay in the wait queue.
    Blocked(Vec<Blocked>),
    /// There is no time for a call.
    Nothing,
}

/// Makes a plan.
fn plan(alloc: Global, known: Known<'_>) -> Result<Planned, AllocError> {
    let stays = known.stays(alloc)?;
    let Some(placed) = place(alloc, known.kind.order.end(), &stays)? else {
        return Ok(Planned::Nothing);
    };
    let mut draft = Draft {
        turns: Vec::new(alloc),
        givers: Busy::never(alloc),
        takers: Busy::never(alloc),
    };
    for item in 0..placed.len() {
        draft.put_stay(known.calls, &placed[item], item)?;
    }
    draft.givers.settle(alloc)?;
    draft.takers.settle(alloc)?;
    draft.put_flags(known.flags)?;
    let Some(blocked) = draft.put_moments(alloc, known)? else {
        return Ok(Planned::Nothing);
    };
    if !blocked.is_empty() {
        return Ok(Planned::Blocked(blocked));
    }
    draft.turns.sort_unstable();
    let order = in_order(alloc, known.calls, &draft.turns)?;
    Ok(Planned::Order(order))
}

/// Has these pairs stay in the wait queue. Whether one of them hadn't yet.
fn keep_in_line(ways: &mut Vec<Way>, blocked: &[Blocked]) -> bool {
    let mut changed = false;
    for pair in blocked {
        let way = Way::Stays(pair.side);
        if pair.giver < ways.len() && ways[pair.giver] != way {
            ways[pair.giver] = way;
            changed = true;
        }
    }
    changed
}

/// A guess at the order in which the calls make their records, by their numbers; none if the calls leave no time for
/// one of them. Fails only if an allocation fails.
pub(crate) fn guess(
    alloc: Global,
    kind: Kind,
    calls: &[Call],
    partners: &Partners,
) -> Result<Option<Vec<usize>>, AllocError> {
    if is_buffer(kind, calls) {
        return guess_buffer(alloc, kind, calls, partners);
    }
    let flags = Flags::of(alloc, calls, partners)?;
    let mut ways = Vec::with_capacity(alloc, calls.len())?;
    for _ in 0..calls.len() {
        ways.push(Way::Free)?;
    }
    for _ in 0..ROUNDS {
        let known = Known {
            kind,
            calls,
            partners,
            flags: &flags,
            ways: &ways,
        };
        match plan(alloc, known)? {
            Planned::Order(order) => return Ok(Some(order)),
            Planned::Nothing => return Ok(None),
            Planned::Blocked(blocked) => {
                if !keep_in_line(&mut ways, &blocked) {
                    return Ok(None);
                }
            }
        }
    }
    Ok(None)
}
