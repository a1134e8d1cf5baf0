//! Calls and items that stay in the wait queue: an order in which they can enter and leave it, and when they do, so
//! that the queue is empty for as long as possible.

use meet_tickets::{End, Side};
use std::alloc::{AllocError, Global};
use std::collections::BinaryHeap;

/// A time from which and one by which.
#[derive(Clone, Copy)]
pub(crate) struct Span {
    pub(crate) from: u64,
    pub(crate) by: u64,
}

/// The last time there is.
pub(crate) const NEVER: Span = Span {
    from: u64::MAX,
    by: u64::MAX,
};

/// A call that enters the wait queue, or whose item does, and leaves it when another call meets or cuts it.
#[derive(Clone, Copy)]
pub(crate) struct Stay {
    pub(crate) side: Side,
    pub(crate) owner: usize,
    pub(crate) other: Option<usize>,
    pub(crate) enters: Span,
    pub(crate) leaves: Span,
}

/// When a stay begins and ends.
#[derive(Clone, Copy)]
pub(crate) struct Placed {
    pub(crate) stay: Stay,
    pub(crate) enters: u64,
    pub(crate) leaves: u64,
}

/// A time of a stay, by the stay's number.
#[derive(Clone, Copy, PartialEq, Eq, PartialOrd, Ord)]
struct At {
    time: u64,
    number: usize,
}

/// A stay that may come next. The heap gives the greatest, and wanted is the one that can begin and end first: so its
/// times are counted from the last one back.
#[derive(Clone, Copy, PartialEq, Eq, PartialOrd, Ord, Drop)]
struct Ready {
    begins: u64,
    ends: u64,
    number: usize,
}

/// Which stays have been placed, and which may be.
#[derive(Drop)]
struct Progress {
    /// For each stay, on how many sides it may come next: on both it is ready.
    sides: Vec<u8>,
    placed: Vec<bool>,
    ready: BinaryHeap<Ready>,
}

impl Progress {
    fn is_placed(&self, number: usize) -> bool {
        number < self.placed.len() && self.placed[number]
    }

    /// A stay may come next on one side more.
    fn allow(&mut self, stays: &[Stay], number: usize) -> Result<(), AllocError> {
        if number < self.sides.len() && number < stays.len() {
            if self.sides[number] == 0 {
                self.sides[number] = 1;
            } else {
                let stay = &stays[number];
                self.ready.push(Ready {
                    begins: u64::MAX - stay.enters.from.max(stay.leaves.from),
                    ends: u64::MAX - stay.enters.by.min(stay.leaves.by),
                    number,
                })?;
            }
        }
        Ok(())
    }
}

/// The index of the first time whose stay isn't placed, from this index on.
fn first_left(times: &[At], progress: &Progress, from: usize) -> usize {
    let mut next = from;
    for _ in from..times.len() {
        if next < times.len() && progress.is_placed(times[next].number) {
            next += 1;
        } else {
            return next;
        }
    }
    next
}

/// The time at this index.
fn time_at(times: &[At], index: usize) -> u64 {
    if index < times.len() {
        times[index].time
    } else {
        u64::MAX
    }
}

/// Allows the stays from this index on, up to this time, to come next on this side. Returns the index after them.
fn allow_until(
    times: &[At],
    from: usize,
    until: u64,
    stays: &[Stay],
    progress: &mut Progress,
) -> Result<usize, AllocError> {
    let mut next = from;
    for _ in from..times.len() {
        if next < times.len() && times[next].time <= until {
            progress.allow(stays, times[next].number)?;
            next += 1;
        } else {
            return Ok(next);
        }
    }
    Ok(next)
}

/// An order in which no stay has to enter, or to leave, before an earlier one can, if there is such an order.
fn order(alloc: Global, stays: &[Stay]) -> Result<Option<Vec<usize>>, AllocError> {
    let mut enters_from = Vec::with_capacity(alloc, stays.len())?;
    let mut enters_by = Vec::with_capacity(alloc, stays.len())?;
    let mut leaves_from = Vec::with_capacity(alloc, stays.len())?;
    let mut leaves_by = Vec::with_capacity(alloc, stays.len())?;
    let mut progress = Progress {
        sides: Vec::with_capacity(alloc, stays.len())?,
        placed: Vec::with_capacity(alloc, stays.len())?,
        ready: BinaryHeap::new(alloc),
    };
    for number in 0..stays.len() {
        let stay = &stays[number];
        let at = |time| At { time, number };
        enters_from.push(at(stay.enters.from))?;
        enters_by.push(at(stay.enters.by))?;
        leaves_from.push(at(stay.leaves.from))?;
        leaves_by.push(at(stay.leaves.by))?;
        progress.sides.push(0)?;
        progress.placed.push(false)?;
    }
    enters_from.sort_unstable();
    enters_by.sort_unstable();
    leaves_from.sort_unstable();
    leaves_by.sort_unstable();
    let mut order = Vec::with_capacity(alloc, stays.len())?;
    let mut entering = 0;
    let mut leaving = 0;
    let mut entered = 0;
    let mut left = 0;
    for _ in 0..stays.len() {
        entered = first_left(&enters_by, &progress, entered);
        left = first_left(&leaves_by, &progress, left);
        let enters = time_at(&enters_by, entered);
        let leaves = time_at(&leaves_by, left);
        entering = allow_until(&enters_from, entering, enters, stays, &mut progress)?;
        leaving = allow_until(&leaves_from, leaving, leaves, stays, &mut progress)?;
        let Some(next) = progress.ready.pop() else {
            return Ok(None);
        };
        if next.number < progress.placed.len() {
            progress.placed[next.number] = true;
        }
        order.push(next.number)?;
    }
    Ok(Some(order))
}

/// For each index of an order the last time at which that stay can begin.
fn latest(alloc: Global, stays: &[Stay], order: &[usize]) -> Result<Vec<u64>, AllocError> {
    let mut latest = Vec::with_capacity(alloc, order.len())?;
    for _ in 0..order.len() {
        latest.push(0)?;
    }
    let mut least = u64::MAX;
    for after in 0..order.len() {
        let index = order.len() - 1 - after;
        let number = order[index];
        if number < stays.len() {
            least = least
                .min(stays[number].enters.by)
                .min(stays[number].leaves.by);
        }
        if index < latest.len() {
            latest[index] = least;
        }
    }
    Ok(latest)
}

/// The stays of a queue that is met at its front, in order, each beginning as late and ending as early as it can, if
/// there is such an order.
fn in_line(alloc: Global, stays: &[Stay]) -> Result<Option<Vec<Placed>>, AllocError> {
    let Some(order) = order(alloc, stays)? else {
        return Ok(None);
    };
    let latest = latest(alloc, stays, &order)?;
    let mut placed = Vec::with_capacity(alloc, order.len())?;
    let mut most = 0;
    for index in 0..order.len() {
        let number = order[index];
        if number < stays.len() && index < latest.len() {
            let stay = stays[number];
            most = most.max(stay.enters.from);
            if stay.other.is_some() {
                most = most.max(stay.leaves.from);
                placed.push(Placed {
                    stay,
                    enters: latest[index].min(most),
                    leaves: most,
                })?;
            } else {
                placed.push(Placed {
                    stay,
                    enters: latest[index],
                    leaves: u64::MAX,
                })?;
            }
        }
    }
    Ok(Some(placed))
}

/// The stays of a queue that is met at its back, each as short as it can be.
fn on_a_stack(alloc: Global, stays: &[Stay]) -> Result<Vec<Placed>, AllocError> {
    let mut placed = Vec::with_capacity(alloc, stays.len())?;
    for stay in stays {
        let leaves = match stay.other {
            None => u64::MAX,
            Some(_) => stay.leaves.from.max(stay.enters.from),
        };
        placed.push(Placed {
            stay: *stay,
            enters: stay.enters.by.min(leaves),
            leaves,
        })?;
    }
    Ok(placed)
}

/// When the stays of a wait queue begin and end, if an order is found. Fails only if an allocation fails.
pub(crate) fn place(
    alloc: Global,
    met_at: End,
    stays: &[Stay],
) -> Result<Option<Vec<Placed>>, AllocError> {
    match met_at {
        End::Front => in_line(alloc, stays),
        End::Back => Ok(Some(on_a_stack(alloc, stays)?)),
    }
}
