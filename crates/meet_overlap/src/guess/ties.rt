//! Records that are planned for one time: those of one seat stand in the order of its calls.

use crate::calls::Call;
use crate::guess::plan::Turn;
use std::alloc::{AllocError, Global};
use std::collections::BinaryHeap;

/// A turn of a seat's call, by its item's number among those of one time.
#[derive(Clone, Copy, PartialEq, Eq, PartialOrd, Ord)]
struct Own {
    seat: u64,
    number: usize,
    item: usize,
}

/// One item has to come before another.
#[derive(Clone, Copy, PartialEq, Eq, PartialOrd, Ord)]
struct Before {
    first: usize,
    second: usize,
}

/// The items of one time: where the turns of each begin, and which of them has to come before which.
#[derive(Drop)]
struct Items {
    begins: Vec<usize>,
    before: Vec<Before>,
}

/// The index after the turns that are planned for the same time as the one at this index.
fn end_of_time(turns: &[Turn], from: usize) -> usize {
    let mut until = from;
    for index in from..turns.len() {
        if turns[index].at != turns[from].at {
            return index;
        }
        until = index.saturating_add(1);
    }
    until
}

impl Items {
    /// The items of these turns, which are planned for one time.
    fn of(alloc: Global, calls: &[Call], turns: &[Turn]) -> Result<Items, AllocError> {
        let mut begins = Vec::new(alloc);
        let mut own = Vec::new(alloc);
        for index in 0..turns.len() {
            let turn = &turns[index];
            if index == 0 || !turns[index - 1].is_with(turn) {
                begins.push(index)?;
            }
            if turn.number < calls.len() {
                own.push(Own {
                    seat: calls[turn.number].seat.number(),
                    number: turn.number,
                    item: begins.len(),
                })?;
            }
        }
        own.sort_unstable();
        let mut before = Vec::new(alloc);
        let mut last: Option<Own> = None;
        for next in &own {
            if let Some(last) = last {
                if last.seat == next.seat && last.item != next.item {
                    before.push(Before {
                        first: last.item,
                        second: next.item,
                    })?;
                }
            }
            last = Some(*next);
        }
        before.sort_unstable();
        Ok(Items { begins, before })
    }

    /// Whether the items stand in order as they are.
    fn are_in_order(&self) -> bool {
        self.before.iter().all(|it| it.first < it.second)
    }

    /// How many items have to come before each, by the items' numbers from 1.
    fn awaited(&self, alloc: Global) -> Result<Vec<usize>, AllocError> {
        let mut awaited = Vec::with_capacity(alloc, self.begins.len().saturating_add(1))?;
        for _ in 0..self.begins.len().saturating_add(1) {
            awaited.push(0usize)?;
        }
        for it in &self.before {
            if it.second < awaited.len() {
                awaited[it.second] = awaited[it.second].saturating_add(1);
            }
        }
        Ok(awaited)
    }

    /// The items' numbers, from 1, in an order that keeps those of each seat in order; those that can't be put so are
    /// left out. Of several that may come next the first does.
    fn sorted(&self, alloc: Global) -> Result<Vec<usize>, AllocError> {
        let mut awaited = self.awaited(alloc)?;
        // The heap gives the greatest, so numbers are counted from the last one back.
        let mut ready = BinaryHeap::new(alloc);
        for item in 1..awaited.len() {
            if awaited[item] == 0 {
                ready.push(usize::MAX - item)?;
            }
        }
        let mut sorted = Vec::new(alloc);
        for _ in 0..self.begins.len() {
            let Some(next) = ready.pop() else {
                return Ok(sorted);
            };
            let item = usize::MAX - next;
            sorted.push(item)?;
            let from = self.before.partition_point(|it| it.first < item);
            for index in from..self.before.len() {
                let it = self.before[index];
                if it.first != item {
                    break;
                }
                if it.second < awaited.len() {
                    awaited[it.second] = awaited[it.second].saturating_sub(1);
                    if awaited[it.second] == 0 {
                        ready.push(usize::MAX - it.second)?;
                    }
                }
            }
        }
        Ok(sorted)
    }

    /// Appends the calls of one item's turns.
    fn push(&self, turns: &[Turn], item: usize, order: &mut Vec<usize>) -> Result<(), AllocError> {
        if item == 0 || self.begins.len() < item {
            return Ok(());
        }
        let until = if item < self.begins.len() {
            self.begins[item]
        } else {
            turns.len()
        };
        for index in self.begins[item - 1]..until {
            if index < turns.len() {
                order.push(turns[index].number)?;
            }
        }
        Ok(())
    }
}

/// Appends the calls of turns that are planned for one time.
fn push_time(
    alloc: Global,
    calls: &[Call],
    turns: &[Turn],
    order: &mut Vec<usize>,
) -> Result<(), AllocError> {
    if !turns.is_empty() && !turns[0].is_with(&turns[turns.len() - 1]) {
        let items = Items::of(alloc, calls, turns)?;
        if !items.are_in_order() {
            let sorted = items.sorted(alloc)?;
            for item in &sorted {
                items.push(turns, *item, order)?;
            }
            return Ok(());
        }
    }
    for turn in turns {
        order.push(turn.number)?;
    }
    Ok(())
}

/// The calls of these turns, which stand by their times, in the order in which they make their records. Fails only if
/// an allocation fails.
pub(crate) fn in_order(
    alloc: Global,
    calls: &[Call],
    turns: &[Turn],
) -> Result<Vec<usize>, AllocError> {
    let mut order = Vec::with_capacity(alloc, turns.len())?;
    let mut from = 0;
    for _ in 0..turns.len() {
        if from < turns.len() {
            let until = end_of_time(turns, from);
            if from < until && until <= turns.len() {
                push_time(alloc, calls, &turns[from..until], &mut order)?;
            }
            from = until;
        }
    }
    Ok(order)
}
