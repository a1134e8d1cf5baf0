//! The sweep: whether the calls of a buffer have points, if the items go through it in one order.
//!
//! At each event the counts are kept of calls that may have been made by then: the least ones, from which all others are
//! reached. A put that ends asks that its item and those in front of it are put, and that all but the last ones that
//! there is room for are taken; a take that ends, that they are put and taken. While a call waits for an empty or a full
//! queue, the nearest counts at which it is so are kept too.

use crate::guess::buffer::acts::Acts;
use crate::guess::buffer::events::{Event, Events, Look};
use crate::guess::buffer::order::Order;
use std::alloc::{AllocError, Global};

/// How many calls are made: puts and takes in the order of the items, and calls that find the queue empty and full in the
/// order of their begins.
#[derive(Clone, Copy)]
pub(super) struct Made {
    pub(super) puts: usize,
    pub(super) takes: usize,
    empties: usize,
    fulls: usize,
    /// From which ones it was reached, by their index.
    before: usize,
}

impl Made {
    /// Whether these lead wherever the others lead.
    fn leads_to(&self, other: &Made) -> bool {
        self.puts <= other.puts
            && self.takes <= other.takes
            && other.empties <= self.empties
            && other.fulls <= self.fulls
    }
}

/// Nothing is made.
const NOTHING: Made = Made {
    puts: 0,
    takes: 0,
    empties: 0,
    fulls: 0,
    before: usize::MAX,
};

/// What holds before an event.
#[derive(Clone, Copy)]
pub(super) struct Step {
    /// The counts that are kept: how many, and the index of the first one.
    first: usize,
    count: usize,
    /// How many puts and takes of the order may be made: all of these have begun.
    pub(super) puts: usize,
    pub(super) takes: usize,
    /// How many calls have begun that find the queue empty, and full.
    empties: usize,
    fulls: usize,
}

impl Step {
    /// How many counts are kept.
    pub(super) fn count(&self) -> usize {
        self.count
    }
}

/// What holds before no event.
const NOWHERE: Step = Step {
    first: 0,
    count: 0,
    puts: 0,
    takes: 0,
    empties: 0,
    fulls: 0,
};

/// What holds before each event, from one event on.
#[derive(Drop)]
pub(super) struct Log {
    from: usize,
    steps: Vec<Step>,
}

impl Log {
    /// Of no event.
    pub(super) fn none(alloc: Global) -> Log {
        Log {
            from: usize::MAX,
            steps: Vec::new(alloc),
        }
    }

    /// Begins anew, at an event before which this holds.
    pub(super) fn begin(&mut self, from: usize, step: Step) -> Result<(), AllocError> {
        self.from = from;
        self.steps.clear();
        self.steps.push(step)?;
        Ok(())
    }

    /// The last event before which it is known what holds.
    pub(super) fn last(&self) -> usize {
        self.from.saturating_add(self.steps.len().saturating_sub(1))
    }

    /// Whether it is known what holds before an event.
    pub(super) fn has(&self, event: usize) -> bool {
        self.from <= event && event - self.from < self.steps.len()
    }

    /// What holds before an event.
    pub(super) fn step(&self, event: usize) -> Step {
        if self.from <= event && event - self.from < self.steps.len() {
            self.steps[event - self.from]
        } else {
            NOWHERE
        }
    }

    /// Takes over what another log has from its first event on.
    pub(super) fn adopt(&mut self, other: &Log) -> Result<(), AllocError> {
        self.steps.truncate(other.from.saturating_sub(self.from));
        self.steps.extend_from_slice(other.steps.as_slice())
    }

    /// The last event until this one before which no more puts than these might be made.
    pub(super) fn last_with(&self, puts: usize, until: usize) -> usize {
        let mut low = 0;
        let mut high = until;
        for _ in 0..usize::BITS {
            if high <= low {
                return low;
            }
            let middle = high - (high - low) / 2;
            if self.step(middle).puts <= puts {
                low = middle;
            } else {
                high = middle - 1;
            }
        }
        low
    }
}

/// What was kept of counts.
#[derive(Clone, Copy)]
struct Kept {
    /// All of them are left, as they are.
    same: bool,
    /// Some are kept for the next event.
    any: bool,
}

/// The counts of all logs.
#[derive(Drop)]
pub(super) struct Sweep {
    bound: usize,
    made: Vec<Made>,
    /// The counts that an event leaves.
    next: Vec<Made>,
}

impl Sweep {
    /// Before the first event, for a queue that keeps no more items than this; and what holds there.
    pub(super) fn of(alloc: Global, bound: usize) -> Result<(Sweep, Step), AllocError> {
        let mut sweep = Sweep {
            bound,
            made: Vec::new(alloc),
            next: Vec::new(alloc),
        };
        sweep.made.push(NOTHING)?;
        let step = Step {
            first: 0,
            count: 1,
            puts: 0,
            takes: 0,
            empties: 0,
            fulls: 0,
        };
        Ok((sweep, step))
    }

    /// How many items the queue keeps at most.
    pub(super) fn bound(&self) -> usize {
        self.bound
    }

    /// How many counts there are.
    pub(super) fn len(&self) -> usize {
        self.made.len()
    }

    /// Forgets the counts from this one on.
    pub(super) fn forget(&mut self, from: usize) {
        self.made.truncate(from);
    }

    /// The counts of this index.
    fn made_at(&self, index: usize) -> Made {
        if index < self.made.len() {
            self.made[index]
        } else {
            NOTHING
        }
    }

    /// The counts that are kept before an event, by their index among these.
    pub(super) fn made_of(&self, step: &Step, index: usize) -> Made {
        self.made_at(step.first.saturating_add(index))
    }

    /// The counts at which a call is made that waits for an empty queue, and the nearest ones at which one is that waits
    /// for a full one, after these.
    fn look(&mut self, step: &Step, index: usize) -> Result<(), AllocError> {
        let made = self.made_at(index);
        if made.empties < step.empties && made.puts <= step.takes {
            self.made.push(Made {
                takes: made.puts,
                empties: step.empties,
                before: index,
                ..made
            })?;
        }
        let full = made.takes.saturating_add(self.bound);
        if made.fulls < step.fulls && full <= step.puts {
            self.made.push(Made {
                puts: full,
                fulls: step.fulls,
                before: index,
                ..made
            })?;
        }
        Ok(())
    }

    /// The counts after these at which what an event asks for is made; none if they don't lead there.
    fn asked(&self, order: &Order, step: &Step, event: Event, index: usize) -> Option<Made> {
        let made = self.made_at(index);
        let (puts, takes) = match event {
            Event::PutEnds(item) => {
                let puts = order.place(item).saturating_add(1);
                (puts, puts.saturating_sub(self.bound))
            }
            Event::TakeEnds(item) => {
                let takes = order.place(item).saturating_add(1);
                (takes, takes)
            }
            Event::EmptyEnds(number) => {
                return if number <= made.empties {
                    Some(made)
                } else {
                    None
                };
            }
            Event::FullEnds(number) => {
                return if number <= made.fulls {
                    Some(made)
                } else {
                    None
                };
            }
            _ => return Some(made),
        };
        let is_made = match event {
            Event::TakeEnds(_) => takes <= made.takes,
            _ => puts <= made.puts,
        };
        if is_made {
            return Some(made);
        }
        let puts = puts.max(made.puts);
        let takes = takes.max(made.takes);
        if puts <= step.puts && takes <= step.takes {
            Some(Made {
                puts,
                takes,
                before: index,
                ..made
            })
        } else {
            None
        }
    }

    /// Keeps counts for the next event, and drops those that they lead to; but not if others lead to them. Whether it does.
    fn keep(&mut self, made: Made) -> Result<bool, AllocError> {
        for other in &self.next {
            if other.leads_to(&made) {
                return Ok(false);
            }
        }
        let mut kept = 0;
        for index in 0..self.next.len() {
            if kept <= index && index < self.next.len() {
                let other = self.next[index];
                if !made.leads_to(&other) {
                    self.next[kept] = other;
                    kept += 1;
                }
            }
        }
        self.next.truncate(kept);
        self.next.push(made)?;
        Ok(true)
    }

    /// Adds the counts after those of a step at which calls are made that wait for an empty or a full queue.
    fn look_all(&mut self, step: &Step) -> Result<(), AllocError> {
        let known = self.made.len();
        for index in step.first..step.first.saturating_add(step.count) {
            self.look(step, index)?;
        }
        for index in known..self.made.len() {
            self.look(step, index)?;
        }
        Ok(())
    }

    /// Keeps for the next event what the end of a call leaves of the counts of these indexes.
    fn keep_asked(
        &mut self,
        order: &Order,
        step: &Step,
        event: Event,
        first: usize,
        last: usize,
    ) -> Result<Kept, AllocError> {
        let mut kept = Kept {
            same: true,
            any: false,
        };
        for index in first..last {
            match self.asked(order, step, event, index) {
                None => kept.same = false,
                Some(made) => {
                    kept.same = kept.same && made.before != index;
                    if self.keep(made)? {
                        kept.any = true;
                    }
                }
            }
        }
        Ok(kept)
    }

    /// Whether some that are kept for the next event were reached from those of this index or a later one.
    fn rests_on(&self, index: usize) -> bool {
        self.next.iter().any(|made| index <= made.before && made.before < self.made.len())
    }

    /// What holds after the end of a call; none if no counts are left.
    fn end(
        &mut self,
        order: &Order,
        step: &Step,
        event: Event,
    ) -> Result<Option<Step>, AllocError> {
        let known = self.made.len();
        self.look_all(step)?;
        self.next.clear();
        let last = step.first.saturating_add(step.count);
        let here = self.keep_asked(order, step, event, step.first, last)?;
        let all = self.made.len();
        let looks = self.keep_asked(order, step, event, known, all)?;
        if !self.rests_on(known) {
            self.made.truncate(known);
        }
        if self.next.is_empty() {
            return Ok(None);
        }
        if here.same && !looks.any {
            return Ok(Some(*step));
        }
        let first = self.made.len();
        self.made.extend_from_slice(self.next.as_slice())?;
        Ok(Some(Step {
            first,
            count: self.next.len(),
            ..*step
        }))
    }

    /// What holds after the begin of a call: more calls may be made.
    fn begin(&self, events: &Events, order: &Order, step: &Step, event: usize) -> Step {
        let mut after = *step;
        match events.event(event) {
            Event::EmptyBegins => after.empties = after.empties.saturating_add(1),
            Event::FullBegins => after.fulls = after.fulls.saturating_add(1),
            _ => {
                for place in step.puts..order.len() {
                    if event < order.span(events, place).put_from {
                        break;
                    }
                    after.puts = place.saturating_add(1);
                }
                for place in step.takes..order.len() {
                    if event < order.span(events, place).take_from {
                        break;
                    }
                    after.takes = place.saturating_add(1);
                }
            }
        }
        after
    }

    /// Goes on from the last event of a log. Returns the event at which no counts are left, or the one at which it is to
    /// stop. Fails only if an allocation fails.
    pub(super) fn run(
        &mut self,
        events: &Events,
        order: &Order,
        log: &mut Log,
        stop: usize,
    ) -> Result<usize, AllocError> {
        for index in log.last()..stop {
            let step = log.step(index);
            let event = events.event(index);
            let after = match event {
                Event::Begins | Event::EmptyBegins | Event::FullBegins => {
                    self.begin(events, order, &step, index)
                }
                _ => match self.end(order, &step, event)? {
                    Some(after) => after,
                    None => return Ok(index),
                },
            };
            log.steps.push(after)?;
        }
        Ok(stop)
    }

    /// The counts that lead to the first ones which are left before an event, in order.
    fn chain(&self, alloc: Global, step: &Step) -> Result<Vec<Made>, AllocError> {
        let mut chain = Vec::new(alloc);
        let mut index = step.first;
        for _ in 0..self.made.len() {
            if index >= self.made.len() {
                break;
            }
            chain.push(self.made[index])?;
            index = self.made[index].before;
        }
        chain.reverse();
        Ok(chain)
    }
}

/// The calls that find the queue empty or full, from one to another.
fn push_looks(
    points: &mut Vec<usize>,
    looks: &[Look],
    from: usize,
    until: usize,
) -> Result<(), AllocError> {
    for index in from..until {
        if index < looks.len() {
            points.push(looks[index].call)?;
        }
    }
    Ok(())
}

/// The calls in the order of their points, as a sweep that came through all events found them. Fails only if an allocation
/// fails.
pub(super) fn points(
    alloc: Global,
    acts: &Acts,
    events: &Events,
    order: &Order,
    sweep: &Sweep,
    log: &Log,
) -> Result<Vec<usize>, AllocError> {
    let mut points = Vec::with_capacity(alloc, events.row.len())?;
    let mut at = NOTHING;
    for made in &sweep.chain(alloc, &log.step(events.row.len()))? {
        for _ in 0..order.len().saturating_mul(2) {
            let has_room = at.puts.saturating_sub(at.takes) < sweep.bound;
            if at.puts < made.puts && has_room {
                if let Some(item) = acts.item(order.item(at.puts)) {
                    points.push(item.put)?;
                }
                at.puts = at.puts.saturating_add(1);
            } else if at.takes < made.takes {
                if let Some(item) = acts.item(order.item(at.takes)) {
                    if let Some(take) = item.take {
                        points.push(take)?;
                    }
                }
                at.takes = at.takes.saturating_add(1);
            } else {
                break;
            }
        }
        push_looks(&mut points, &events.empties, at.empties, made.empties)?;
        push_looks(&mut points, &events.fulls, at.fulls, made.fulls)?;
        at.empties = at.empties.max(made.empties);
        at.fulls = at.fulls.max(made.fulls);
    }
    Ok(points)
}
