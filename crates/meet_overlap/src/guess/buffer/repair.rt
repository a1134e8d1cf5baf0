//! The repair of an order of items: where the sweep dies, a search moves few items nearby until it goes on.
//!
//! The search is best first. Of the orders that were tried the one is looked at next whose sweep came furthest, unless the
//! last moves that led to it brought nothing.

use crate::guess::buffer::events::Events;
use crate::guess::buffer::moves::{Death, Move, Stage};
use crate::guess::buffer::order::Order;
use crate::guess::buffer::sweep::{Log, Sweep};
use std::alloc::{AllocError, Global};
use std::collections::{BTreeSet, BinaryHeap};
use std::mem::replace;

/// An order that was tried: these items stand from this place on.
#[derive(Drop)]
struct Tried {
    place: usize,
    part: Vec<usize>,
    /// The event at which its sweep died.
    event: usize,
    /// The furthest event of the orders that led to it, and how many moves were made since.
    best: usize,
    idle: usize,
    /// Which moves are looked at next.
    stage: Stage,
}

/// Which one is looked at next. The heap gives the greatest.
#[derive(Clone, Copy, PartialEq, Eq, PartialOrd, Ord, Drop)]
struct Rank {
    worth: usize,
    /// The index counted from the last back: of those that are worth the same the first one is looked at.
    left: usize,
}

/// As how many events a move counts that brought nothing, and a further stage of moves: our choice, as are the other
/// numbers here.
const IDLE: usize = 20;

const STAGE: usize = 100;

/// The orders that were tried.
#[derive(Drop)]
struct Tries {
    list: Vec<Tried>,
    next: BinaryHeap<Rank>,
    hashes: BTreeSet<u64>,
}

impl Tries {
    fn push(&mut self, tried: Tried) -> Result<(), AllocError> {
        let stages = match tried.stage {
            Stage::Likely => 0,
            Stage::Neighbours => STAGE,
            Stage::Near => 2 * STAGE,
        };
        let cost = tried.idle.saturating_mul(IDLE).saturating_add(stages);
        // No cost of one repair comes near this.
        let worth = tried
            .best
            .saturating_add(MOST_TRIED * IDLE)
            .saturating_sub(cost);
        self.next.push(Rank {
            worth,
            left: usize::MAX - self.list.len(),
        })?;
        self.list.push(tried)?;
        Ok(())
    }

    fn pop(&mut self, alloc: Global) -> Option<Tried> {
        let rank = self.next.pop()?;
        let index = usize::MAX - rank.left;
        if index < self.list.len() {
            let none = Tried {
                place: 0,
                part: Vec::new(alloc),
                event: 0,
                best: 0,
                idle: 0,
                stage: Stage::Likely,
            };
            Some(replace(&mut self.list[index], none))
        } else {
            None
        }
    }

    /// Whether no order of this hash was tried. It is from now on.
    fn is_new(&mut self, hash: u64) -> Result<bool, AllocError> {
        if self.hashes.contains(&hash) {
            return Ok(false);
        }
        match self.hashes.insert(hash) {
            Ok(_) => Ok(true),
            Err(_) => Err(AllocError),
        }
    }
}

/// How many orders one repair looks at.
const MOST_TRIED: usize = 100_000;

/// How many events the sweeps of one repair may go over.
const MOST_SWEPT: usize = 30_000_000;

/// How often the sweeps of all repairs may go over all events, beyond those of one repair.
const TIMES_ALL: usize = 100;

/// What a sweep costs before its first event, in events.
const TRIAL: usize = 10;

/// How many events further a sweep has to come after a repair.
const AHEAD: usize = 150;

/// The search for an order of the items for which a sweep comes through all events.
#[derive(Drop)]
pub(super) struct Search<'a> {
    alloc: Global,
    events: &'a Events,
    pub(super) order: Order,
    pub(super) sweep: Sweep,
    /// What holds before each event until the one at which the sweep died.
    pub(super) log: Log,
    /// The log of an order that was tried, and that of one with a move more.
    here: Log,
    trial: Log,
    /// How many events sweeps of tries went over.
    spent: usize,
}

impl Search<'_> {
    /// Before the first event, with the first order. Fails only if an allocation fails.
    pub(super) fn of<'a>(
        alloc: Global,
        bound: usize,
        events: &'a Events,
        order: Order,
    ) -> Result<Search<'a>, AllocError> {
        let (sweep, step) = Sweep::of(alloc, bound)?;
        let mut log = Log::none(alloc);
        log.begin(0, step)?;
        Ok(Search {
            alloc,
            events,
            order,
            sweep,
            log,
            here: Log::none(alloc),
            trial: Log::none(alloc),
            spent: 0,
        })
    }

    /// The last event until this one before which it makes no difference how the order goes on from this place.
    fn same_until(&self, place: usize, event: usize) -> usize {
        let reached = if place == 0 {
            0
        } else {
            self.log.last_with(place - 1, event)
        };
        let begins = self.order.span(self.events, place).put_from;
        self.log.last_with(place, event).min(reached.max(begins))
    }

    /// Goes over the events with the order as it is from this place on, into a log of its own.
    fn sweep_from(&mut self, died: usize, place: usize, stop: usize) -> Result<usize, AllocError> {
        let from = self.same_until(place, died);
        let step = self.log.step(from);
        self.trial.begin(from, step)?;
        let reached = self
            .sweep
            .run(self.events, &self.order, &mut self.trial, stop)?;
        let spent = reached.saturating_sub(from).saturating_add(TRIAL);
        self.spent = self.spent.saturating_add(spent);
        Ok(reached)
    }

    /// Tries a move more than an order has. Whether its sweep comes to this event; then the order and the log stay so.
    fn helps(
        &mut self,
        tries: &mut Tries,
        tried: &Tried,
        moved: Move,
        died: usize,
        stop: usize,
    ) -> Result<bool, AllocError> {
        if !self.order.may_move(self.events, moved.from, moved.to) {
            return Ok(false);
        }
        let mut first = moved.from.min(moved.to);
        let mut last = moved.from.max(moved.to).saturating_add(1);
        if !tried.part.is_empty() {
            first = first.min(tried.place);
            last = last.max(tried.place.saturating_add(tried.part.len()));
        }
        self.order.shift(moved.from, moved.to);
        if tries.is_new(self.order.hash(first, last))? {
            let known = self.sweep.len();
            let reached = self.sweep_from(died, first, stop)?;
            if stop <= reached {
                self.log.adopt(&self.trial)?;
                return Ok(true);
            }
            self.sweep.forget(known);
            tries.push(Tried {
                place: first,
                part: self.order.part(self.alloc, first, last)?,
                event: reached,
                best: reached.max(tried.best),
                idle: if tried.best < reached {
                    0
                } else {
                    tried.idle.saturating_add(1)
                },
                stage: Stage::Likely,
            })?;
        }
        self.order.shift(moved.to, moved.from);
        Ok(false)
    }

    /// The moves that an order which was tried leaves to be tried. Its log is at hand.
    fn moves_of(&mut self, tried: &Tried, died: usize) -> Result<Vec<Move>, AllocError> {
        if tried.part.is_empty() {
            self.here = Log::none(self.alloc);
        } else {
            let _reached = self.sweep_from(died, tried.place, tried.event)?;
            std::mem::swap(&mut self.here, &mut self.trial);
        }
        let death = Death {
            bound: self.sweep.bound(),
            events: self.events,
            order: &self.order,
            sweep: &self.sweep,
            log: &self.here,
            whole: &self.log,
            event: tried.event,
        };
        death.moves(self.alloc, tried.stage)
    }

    /// Tries the moves that an order leaves to be tried. Whether one helps; else the order is as it was.
    fn expand(
        &mut self,
        tries: &mut Tries,
        tried: Tried,
        died: usize,
        stop: usize,
    ) -> Result<bool, AllocError> {
        let end = tried.place.saturating_add(tried.part.len());
        let own = self.order.part(self.alloc, tried.place, end)?;
        self.order.set(tried.place, tried.part.as_slice());
        let moves = self.moves_of(&tried, died)?;
        for moved in &moves {
            if self.helps(tries, &tried, *moved, died, stop)? {
                return Ok(true);
            }
        }
        self.order.set(tried.place, own.as_slice());
        let stage = match tried.stage {
            Stage::Likely => Stage::Neighbours,
            Stage::Neighbours => Stage::Near,
            Stage::Near => return Ok(false),
        };
        tries.push(Tried { stage, ..tried })?;
        Ok(false)
    }

    /// Moves items until the sweep goes on from the event at which it died. Whether it does.
    fn repair(&mut self, died: usize) -> Result<bool, AllocError> {
        let stop = died.saturating_add(AHEAD).min(self.events.row.len());
        let all = self.events.row.len().saturating_mul(TIMES_ALL);
        let limit = self
            .spent
            .saturating_add(MOST_SWEPT)
            .min(all.saturating_add(MOST_SWEPT));
        let mut tries = Tries {
            list: Vec::new(self.alloc),
            next: BinaryHeap::new(self.alloc),
            hashes: BTreeSet::new(self.alloc),
        };
        tries.push(Tried {
            place: 0,
            part: Vec::new(self.alloc),
            event: died,
            best: died,
            idle: 0,
            stage: Stage::Likely,
        })?;
        for _ in 0..MOST_TRIED {
            if limit <= self.spent {
                return Ok(false);
            }
            let Some(tried) = tries.pop(self.alloc) else {
                return Ok(false);
            };
            if self.expand(&mut tries, tried, died, stop)? {
                return Ok(true);
            }
        }
        Ok(false)
    }

    /// Whether an order was found for which the sweep comes through all events: it stays, with its log. Fails only if an
    /// allocation fails.
    pub(super) fn finds_points(&mut self) -> Result<bool, AllocError> {
        let all = self.events.row.len();
        for _ in 0..all.saturating_add(1) {
            let reached = self
                .sweep
                .run(self.events, &self.order, &mut self.log, all)?;
            if all <= reached {
                return Ok(true);
            }
            if !self.repair(reached)? {
                return Ok(false);
            }
        }
        Ok(false)
    }
}
