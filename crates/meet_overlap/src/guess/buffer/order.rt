//! The order in which the items go through a buffer.

use crate::guess::buffer::events::{Events, Span};
use crate::seen::mixed;
use std::alloc::{AllocError, Global};
use std::collections::BinaryHeap;

/// Items in the order in which they are put and taken.
#[derive(Drop)]
pub(super) struct Order {
    items: Vec<usize>,
    /// For each item where it stands.
    places: Vec<usize>,
}

impl Order {
    /// How many items there are.
    pub(super) fn len(&self) -> usize {
        self.items.len()
    }

    /// The item at this place, or none of all.
    pub(super) fn item(&self, place: usize) -> usize {
        if place < self.items.len() {
            self.items[place]
        } else {
            usize::MAX
        }
    }

    /// Where an item stands.
    pub(super) fn place(&self, item: usize) -> usize {
        if item < self.places.len() {
            self.places[item]
        } else {
            usize::MAX
        }
    }

    /// When the item at this place can be put and taken.
    pub(super) fn span(&self, events: &Events, place: usize) -> Span {
        events.span(self.item(place))
    }

    /// Puts an item at a place.
    fn put(&mut self, place: usize, item: usize) {
        if place < self.items.len() {
            self.items[place] = item;
            if item < self.places.len() {
                self.places[item] = place;
            }
        }
    }

    /// These items stand from this place on.
    pub(super) fn set(&mut self, from: usize, part: &[usize]) {
        for index in 0..part.len() {
            self.put(from.saturating_add(index), part[index]);
        }
    }

    /// The items from one place until before another one.
    pub(super) fn part(
        &self,
        alloc: Global,
        from: usize,
        until: usize,
    ) -> Result<Vec<usize>, AllocError> {
        let mut part = Vec::new(alloc);
        for place in from..until {
            part.push(self.item(place))?;
        }
        Ok(part)
    }

    /// The hash of the items from one place until before another one.
    pub(super) fn hash(&self, from: usize, until: usize) -> u64 {
        let mut hash = mixed(0, from as u64);
        for place in from..until {
            hash = mixed(hash, self.item(place) as u64);
        }
        hash
    }

    /// Whether the item at one place may move to another one: no item between has to be on its other side.
    pub(super) fn may_move(&self, events: &Events, from: usize, to: usize) -> bool {
        let moved = self.span(events, from);
        for place in to..from {
            if self.span(events, place).is_before(&moved) {
                return false;
            }
        }
        for place in from..to {
            if moved.is_before(&self.span(events, place.saturating_add(1))) {
                return false;
            }
        }
        true
    }

    /// Moves the item at one place to another one: those between make room.
    pub(super) fn shift(&mut self, from: usize, to: usize) {
        let moved = self.item(from);
        for back in 0..from.saturating_sub(to) {
            let place = from.saturating_sub(back);
            let item = self.item(place.saturating_sub(1));
            self.put(place, item);
        }
        for place in from..to {
            let item = self.item(place.saturating_add(1));
            self.put(place, item);
        }
        self.put(to, moved);
    }
}

/// Which of the items that may come next comes first.
#[derive(Clone, Copy)]
pub(super) enum Key {
    /// The one that has to be put first and may be taken first.
    PutsAndTakes,
    /// The one that has to be put first.
    Puts,
}

/// A time of an item's span.
#[derive(Clone, Copy)]
enum Edge {
    PutFrom,
    PutBy,
    TakeFrom,
    TakeBy,
}

/// An item that may come next. The heap gives the greatest, and wanted is the one whose times are the first: so all is
/// counted from the last back.
#[derive(Clone, Copy, PartialEq, Eq, PartialOrd, Ord, Drop)]
struct Next {
    left: usize,
    item: usize,
}

fn next_of(events: &Events, key: Key, item: usize) -> Next {
    let span = events.span(item);
    let last = events.row.len();
    let put_by = span.put_by.min(last).saturating_mul(2);
    let sum = match key {
        Key::PutsAndTakes => put_by.saturating_add(span.take_from.min(last)),
        Key::Puts => put_by,
    };
    Next {
        left: usize::MAX - sum,
        item: usize::MAX - item,
    }
}

fn edge_of(span: &Span, edge: Edge) -> usize {
    match edge {
        Edge::PutFrom => span.put_from,
        Edge::PutBy => span.put_by,
        Edge::TakeFrom => span.take_from,
        Edge::TakeBy => span.take_by,
    }
}

/// The items in the order of one time of their spans. No two of them share an event.
fn items_by(alloc: Global, events: &Events, edge: Edge) -> Result<Vec<usize>, AllocError> {
    let mut there = Vec::with_capacity(alloc, events.row.len())?;
    for _ in 0..events.row.len() {
        there.push(usize::MAX)?;
    }
    let mut items = Vec::with_capacity(alloc, events.spans.len())?;
    for item in 0..events.spans.len() {
        let at = edge_of(&events.span(item), edge);
        if at < there.len() {
            there[at] = item;
        }
    }
    for item in &there {
        if *item != usize::MAX {
            items.push(*item)?;
        }
    }
    for item in 0..events.spans.len() {
        if events.row.len() <= edge_of(&events.span(item), edge) {
            items.push(item)?;
        }
    }
    Ok(items)
}

/// The items in the order of one of their times, and how many of them are done.
#[derive(Drop)]
struct Queue {
    items: Vec<usize>,
    done: usize,
}

impl Queue {
    fn by(alloc: Global, events: &Events, edge: Edge) -> Result<Queue, AllocError> {
        Ok(Queue {
            items: items_by(alloc, events, edge)?,
            done: 0,
        })
    }

    /// The first one that isn't done.
    fn first(&self) -> usize {
        if self.done < self.items.len() {
            self.items[self.done]
        } else {
            usize::MAX
        }
    }

    /// The first one that isn't placed: those in front of it are done.
    fn first_left(&mut self, placed: &[bool]) -> usize {
        for _ in self.done..self.items.len() {
            let item = self.first();
            if item < placed.len() && placed[item] {
                self.done = self.done.saturating_add(1);
            } else {
                return item;
            }
        }
        usize::MAX
    }
}

/// The items that may come next.
#[derive(Drop)]
struct Front {
    key: Key,
    put_from: Queue,
    put_by: Queue,
    take_from: Queue,
    take_by: Queue,
    /// For each item, of which sides nothing has to come before it any more: of both if there are two.
    sides: Vec<u8>,
    placed: Vec<bool>,
    next: BinaryHeap<Next>,
}

impl Front {
    fn of(alloc: Global, events: &Events, key: Key) -> Result<Front, AllocError> {
        let count = events.spans.len();
        let mut front = Front {
            key,
            put_from: Queue::by(alloc, events, Edge::PutFrom)?,
            put_by: Queue::by(alloc, events, Edge::PutBy)?,
            take_from: Queue::by(alloc, events, Edge::TakeFrom)?,
            take_by: Queue::by(alloc, events, Edge::TakeBy)?,
            sides: Vec::with_capacity(alloc, count)?,
            placed: Vec::with_capacity(alloc, count)?,
            next: BinaryHeap::new(alloc),
        };
        for _ in 0..count {
            front.sides.push(0)?;
            front.placed.push(false)?;
        }
        Ok(front)
    }

    /// Nothing has to come before an item on one side more.
    fn allow(&mut self, events: &Events, item: usize) -> Result<(), AllocError> {
        if item < self.sides.len() {
            self.sides[item] = self.sides[item].saturating_add(1);
            if self.sides[item] == 2 {
                self.next.push(next_of(events, self.key, item))?;
            }
        }
        Ok(())
    }

    /// Notes which items may come next.
    fn allow_all(&mut self, events: &Events) -> Result<(), AllocError> {
        let put_by = events.span(self.put_by.first_left(&self.placed)).put_by;
        for _ in self.put_from.done..self.put_from.items.len() {
            let item = self.put_from.first();
            if put_by < events.span(item).put_from {
                break;
            }
            self.allow(events, item)?;
            self.put_from.done = self.put_from.done.saturating_add(1);
        }
        let take_by = events.span(self.take_by.first_left(&self.placed)).take_by;
        for _ in self.take_from.done..self.take_from.items.len() {
            let item = self.take_from.first();
            if take_by < events.span(item).take_from {
                break;
            }
            self.allow(events, item)?;
            self.take_from.done = self.take_from.done.saturating_add(1);
        }
        Ok(())
    }

    /// The one that comes next, if there is one.
    fn pop(&mut self, events: &Events) -> Result<Option<usize>, AllocError> {
        self.allow_all(events)?;
        match self.next.pop() {
            None => Ok(None),
            Some(next) => {
                let item = usize::MAX - next.item;
                if item < self.placed.len() {
                    self.placed[item] = true;
                }
                Ok(Some(item))
            }
        }
    }
}

/// An order of the items that the spans of their puts and those of their takes permit: of those that may come next the
/// first by this key; none if there is no such order. Fails only if an allocation fails.
pub(super) fn first_order(
    alloc: Global,
    events: &Events,
    key: Key,
) -> Result<Option<Order>, AllocError> {
    let count = events.spans.len();
    let mut front = Front::of(alloc, events, key)?;
    let mut order = Order {
        items: Vec::with_capacity(alloc, count)?,
        places: Vec::with_capacity(alloc, count)?,
    };
    for _ in 0..count {
        order.places.push(0)?;
    }
    for place in 0..count {
        let Some(item) = front.pop(events)? else {
            return Ok(None);
        };
        order.items.push(item)?;
        order.put(place, item);
    }
    Ok(Some(order))
}
