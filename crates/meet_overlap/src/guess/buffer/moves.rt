//! Which moves of items may help where a sweep died.
//!
//! Counts can't go on because an item blocks them whose call hasn't begun; or they went on too far because an item pushed
//! them whose call ended. So items that have begun move in front of one that blocks, and items that may be made later
//! move behind one that pushed. If that doesn't help, all neighbours change places, and then all items that are near.

use crate::guess::buffer::events::{Event, Events, Span};
use crate::guess::buffer::order::Order;
use crate::guess::buffer::sweep::{Log, Step, Sweep};
use std::alloc::{AllocError, Global};

/// An item moves from one place to another one. Moves stand by how likely they help.
#[derive(Clone, Copy, PartialEq, Eq, PartialOrd, Ord)]
pub(super) struct Move {
    rank: usize,
    pub(super) from: usize,
    pub(super) to: usize,
}

/// Which moves are looked at: each stage has more.
#[derive(Clone, Copy, PartialEq, Eq)]
pub(super) enum Stage {
    Likely,
    Neighbours,
    Near,
}

/// One of the two calls of an item.
#[derive(Clone, Copy)]
enum Side {
    Put,
    Take,
}

/// From which event on the call of this side may be made.
fn from_of(span: &Span, side: Side) -> usize {
    match side {
        Side::Put => span.put_from,
        Side::Take => span.take_from,
    }
}

/// By which event the call of this side has to be made.
fn by_of(span: &Span, side: Side) -> usize {
    match side {
        Side::Put => span.put_by,
        Side::Take => span.take_by,
    }
}

/// How many items move before or behind one at most: our choice, as are the other numbers here.
const MOST_FOUND: usize = 16;

/// How far the item that blocks or pushed moves itself.
const NEAR: usize = 8;

/// Moves that are collected.
#[derive(Drop)]
struct Moves<'a> {
    events: &'a Events,
    order: &'a Order,
    list: Vec<Move>,
}

/// How far before one that pushed items are looked at.
const FAR_BACK: usize = 150;

impl Moves<'_> {
    fn push(&mut self, rank: usize, from: usize, to: usize) -> Result<(), AllocError> {
        let count = self.order.len();
        if from < count && to < count && from != to {
            self.list.push(Move { rank, from, to })?;
        }
        Ok(())
    }

    /// Items behind a place whose calls have begun by an event move there; or the item that is there moves behind near
    /// ones.
    fn unblock(
        &mut self,
        place: usize,
        side: Side,
        event: usize,
        reach: usize,
    ) -> Result<(), AllocError> {
        let mut found = 0;
        let behind = place.saturating_add(1);
        let count = self.order.len();
        for other in behind..place.saturating_add(reach).min(count) {
            let span = self.order.span(self.events, other);
            if found < MOST_FOUND && from_of(&span, side) <= event {
                self.push(found, other, place)?;
                found += 1;
            }
        }
        for other in behind..behind.saturating_add(NEAR).min(count) {
            self.push(other.saturating_sub(place), place, other)?;
        }
        Ok(())
    }

    /// Items in front of a place whose calls needn't be made by an event move there; or the item that is there and near
    /// ones change places.
    fn unpush(&mut self, place: usize, side: Side, event: usize) -> Result<(), AllocError> {
        let mut found = 0;
        for back in 1..FAR_BACK.min(place.saturating_add(1)) {
            let other = place.saturating_sub(back);
            let span = self.order.span(self.events, other);
            if found < MOST_FOUND && event <= by_of(&span, side) {
                self.push(found, other, place)?;
                found += 1;
            }
        }
        for back in 1..NEAR.min(place).saturating_add(1) {
            self.push(back, place, place.saturating_sub(back))?;
            self.push(back, place.saturating_sub(back), place)?;
        }
        Ok(())
    }
}

/// How far behind one that blocks items are looked at that may be put, or taken, before it.
const FAR_PUTS: usize = 100;

const FAR_TAKES: usize = 20;

/// How many events are gone back over to see where a call might have found the queue full or empty.
const FAR_EVENTS: usize = 400;

/// Where a sweep died: what is known of the order of the items that it went by.
#[derive(Clone, Copy)]
pub(super) struct Death<'a> {
    pub(super) bound: usize,
    pub(super) events: &'a Events,
    pub(super) order: &'a Order,
    pub(super) sweep: &'a Sweep,
    /// What holds before the events of this order, from one on; before that what the other log says.
    pub(super) log: &'a Log,
    pub(super) whole: &'a Log,
    /// The event at which it died.
    pub(super) event: usize,
}

/// Puts and takes that were made, and how many might have been.
#[derive(Clone, Copy, PartialEq, Eq)]
struct Place {
    puts: usize,
    takes: usize,
    puts_begun: usize,
    takes_begun: usize,
}

impl Death<'_> {
    fn step(&self, event: usize) -> Step {
        if self.log.has(event) {
            self.log.step(event)
        } else {
            self.whole.step(event)
        }
    }

    /// Moves for a put or a take that ends and can't be made.
    fn around_item(
        &self,
        moves: &mut Moves<'_>,
        item: usize,
        side: Side,
    ) -> Result<(), AllocError> {
        let step = self.step(self.event);
        let (puts, takes) = (step.puts, step.takes);
        let place = self.order.place(item);
        let far = puts.saturating_sub(takes).saturating_add(FAR_TAKES);
        moves.unblock(puts, Side::Put, self.event, FAR_PUTS)?;
        moves.unblock(takes, Side::Take, self.event, far)?;
        moves.unpush(place, side, self.event)?;
        match side {
            Side::Take => Ok(()),
            Side::Put => {
                let taken = place.saturating_add(1).saturating_sub(self.bound);
                if takes < taken {
                    moves.push(1, takes, taken)?;
                    moves.push(1, place, takes.saturating_add(self.bound).saturating_sub(1))?;
                }
                Ok(())
            }
        }
    }

    /// Moves for a call that had to find the queue full or empty at these counts.
    fn around_counts(
        &self,
        moves: &mut Moves<'_>,
        at: &Place,
        event: usize,
        full: bool,
    ) -> Result<(), AllocError> {
        if full && at.puts_begun < at.takes.saturating_add(self.bound) {
            moves.unblock(at.puts_begun, Side::Put, event, FAR_PUTS)?;
            if 0 < at.takes {
                moves.unpush(at.takes - 1, Side::Take, event)?;
            }
        }
        if !full && at.takes_begun < at.puts {
            let far = (at.puts - at.takes_begun).saturating_add(FAR_TAKES);
            moves.unblock(at.takes_begun, Side::Take, event, far)?;
            moves.unpush(at.puts - 1, Side::Put, event)?;
            moves.push(1, at.takes_begun, at.puts - 1)?;
        }
        Ok(())
    }

    /// Moves for a call that ends and can't have found the queue full or empty since it began.
    fn around_look(
        &self,
        alloc: Global,
        moves: &mut Moves<'_>,
        from: usize,
        full: bool,
    ) -> Result<(), AllocError> {
        let mut seen: Vec<Place> = Vec::new(alloc);
        let events = self.event.saturating_sub(from).min(FAR_EVENTS);
        for back in 0..events.saturating_add(1) {
            let event = self.event.saturating_sub(back);
            let step = self.step(event);
            for index in 0..step.count() {
                let made = self.sweep.made_of(&step, index);
                let at = Place {
                    puts: made.puts,
                    takes: made.takes,
                    puts_begun: step.puts,
                    takes_begun: step.takes,
                };
                if !seen.contains(&at) {
                    self.around_counts(moves, &at, event, full)?;
                    seen.push(at)?;
                }
            }
        }
        Ok(())
    }

    /// The places between which neighbours and near items may move.
    fn window(&self) -> (usize, usize) {
        let step = self.step(self.event);
        let mut least = usize::MAX;
        for index in 0..step.count() {
            least = least.min(self.sweep.made_of(&step, index).takes);
        }
        let last = step.puts.saturating_add(2).min(self.order.len());
        (least.saturating_sub(NEAR).min(last), last)
    }

    /// All neighbours change places.
    fn neighbours(&self, moves: &mut Moves<'_>) -> Result<(), AllocError> {
        let (first, last) = self.window();
        for place in first..last.saturating_sub(1) {
            moves.push(1, place, place.saturating_add(1))?;
        }
        Ok(())
    }

    /// All items move to near places, but not to the next ones.
    fn near(&self, moves: &mut Moves<'_>) -> Result<(), AllocError> {
        let (first, last) = self.window();
        for place in first..last {
            for far in 2..NEAR.saturating_sub(1) {
                let other = place.saturating_add(far);
                if other < last {
                    moves.push(far, place, other)?;
                    moves.push(far, other, place)?;
                }
            }
        }
        Ok(())
    }

    fn likely(&self, alloc: Global, moves: &mut Moves<'_>) -> Result<(), AllocError> {
        match self.events.event(self.event) {
            Event::PutEnds(item) => self.around_item(moves, item, Side::Put),
            Event::TakeEnds(item) => self.around_item(moves, item, Side::Take),
            Event::EmptyEnds(number) => {
                self.around_look(alloc, moves, self.events.empty_from(number), false)
            }
            Event::FullEnds(number) => {
                self.around_look(alloc, moves, self.events.full_from(number), true)
            }
            _ => Ok(()),
        }
    }

    /// The moves of a stage that may help, likely ones first. Fails only if an allocation fails.
    pub(super) fn moves(&self, alloc: Global, stage: Stage) -> Result<Vec<Move>, AllocError> {
        let mut moves = Moves {
            events: self.events,
            order: self.order,
            list: Vec::new(alloc),
        };
        match stage {
            Stage::Likely => self.likely(alloc, &mut moves)?,
            Stage::Neighbours => self.neighbours(&mut moves)?,
            Stage::Near => self.near(&mut moves)?,
        }
        moves.list.sort_unstable();
        moves.list.dedup();
        Ok(moves.list)
    }
}
