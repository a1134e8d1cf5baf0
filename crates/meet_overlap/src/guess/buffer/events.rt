//! The begins and the ends of a buffer's calls in one row. At one time begins come first, but the call of a seat ends
//! before its next one begins.

use crate::calls::Call;
use crate::guess::buffer::acts::{Act, Acts};
use std::alloc::{AllocError, Global};

/// An event of the row.
#[derive(Clone, Copy)]
pub(super) enum Event {
    /// A call begins that puts or takes an item.
    Begins,
    /// The call ends that puts the item of this index.
    PutEnds(usize),
    /// The call ends that takes it.
    TakeEnds(usize),
    /// A call begins that finds the queue empty.
    EmptyBegins,
    /// A call begins that finds it full.
    FullBegins,
    /// The call of this number among those that find the queue empty ends, from 1.
    EmptyEnds(usize),
    /// The call of this number among those that find it full ends, from 1.
    FullEnds(usize),
}

/// When an item can be put and taken: the events from which on and by which. Those that never are come after all others.
#[derive(Clone, Copy)]
pub(super) struct Span {
    pub(super) put_from: usize,
    pub(super) put_by: usize,
    pub(super) take_from: usize,
    pub(super) take_by: usize,
}

/// The span of no item.
const NEVER: Span = Span {
    put_from: usize::MAX,
    put_by: usize::MAX,
    take_from: usize::MAX,
    take_by: usize::MAX,
};

impl Span {
    /// Whether an item of this span has to be put, or taken, before one of the other span can be.
    pub(super) fn is_before(&self, other: &Span) -> bool {
        self.put_by < other.put_from || self.take_by < other.take_from
    }
}

/// A call that finds the queue empty or full, and the event at which it begins.
#[derive(Clone, Copy)]
pub(super) struct Look {
    pub(super) call: usize,
    pub(super) from: usize,
}

/// The row, the spans of the items, and the calls that find the queue empty or full, by their begins.
#[derive(Drop)]
pub(super) struct Events {
    pub(super) row: Vec<Event>,
    pub(super) spans: Vec<Span>,
    pub(super) empties: Vec<Look>,
    pub(super) fulls: Vec<Look>,
}

/// The event at which the call of this number, from 1, begins.
fn from_of(looks: &[Look], number: usize) -> usize {
    if 1 <= number && number <= looks.len() {
        looks[number - 1].from
    } else {
        usize::MAX
    }
}

impl Events {
    /// When the item of this index can be put and taken.
    pub(super) fn span(&self, item: usize) -> Span {
        if item < self.spans.len() {
            self.spans[item]
        } else {
            NEVER
        }
    }

    /// The event at which the call of this number, from 1, begins that finds the queue empty.
    pub(super) fn empty_from(&self, number: usize) -> usize {
        from_of(self.empties.as_slice(), number)
    }

    /// The event at which the call of this number, from 1, begins that finds the queue full.
    pub(super) fn full_from(&self, number: usize) -> usize {
        from_of(self.fulls.as_slice(), number)
    }

    /// The event of this index.
    pub(super) fn event(&self, index: usize) -> Event {
        if index < self.row.len() {
            self.row[index]
        } else {
            Event::Begins
        }
    }
}

/// The end or the begin of a call, as it stands in the row.
#[derive(Clone, Copy, PartialEq, Eq, PartialOrd, Ord)]
struct Tick {
    at: u64,
    rank: usize,
    number: usize,
    ends: bool,
}

/// The begins and ends of calls, each with its rank among those of its time.
#[derive(Drop)]
struct Ranks {
    begins: Vec<usize>,
    ends: Vec<usize>,
    /// For each seat the number of its latest call, from 1.
    latest: Vec<usize>,
}

/// Notes the call as the latest of its seat. Returns the one before it, from 1; or 0.
fn put_latest(latest: &mut Vec<usize>, seat: usize, number: usize) -> Result<usize, AllocError> {
    for _ in latest.len()..seat.saturating_add(1) {
        latest.push(0)?;
    }
    if seat < latest.len() {
        let before = latest[seat];
        latest[seat] = number.saturating_add(1);
        return Ok(before);
    }
    Ok(0)
}

/// Whether a call ended at this time.
fn ends_at(call: &Call, at: u64) -> bool {
    match call.returned {
        None => false,
        Some(returned) => returned.at == at,
    }
}

impl Ranks {
    /// The rank of the end of the call that came before at this time, which comes before others of it; 0 if there is none.
    fn close(&mut self, calls: &[Call], before: usize, at: u64) -> usize {
        if before == 0 || before > calls.len() || before > self.ends.len() {
            return 0;
        }
        let before = before - 1;
        if !ends_at(&calls[before], at) {
            return 0;
        }
        if self.ends[before] == usize::MAX {
            self.ends[before] = 1;
        }
        self.ends[before]
    }

    /// Adds the ranks of a call.
    fn push(&mut self, calls: &[Call], number: usize) -> Result<(), AllocError> {
        if number >= calls.len() {
            return Ok(());
        }
        let call = &calls[number];
        let before = put_latest(&mut self.latest, call.seat.number() as usize, number)?;
        let rank = self.close(calls, before, call.begin);
        self.begins.push(rank.saturating_add(1))?;
        self.ends.push(if rank != 0 && ends_at(call, call.begin) {
            rank.saturating_add(2)
        } else {
            usize::MAX
        })?;
        Ok(())
    }
}

/// The begins and ends of the calls that do something, in order.
fn ticks_of(alloc: Global, calls: &[Call], acts: &Acts) -> Result<Vec<Tick>, AllocError> {
    let mut ranks = Ranks {
        begins: Vec::with_capacity(alloc, calls.len())?,
        ends: Vec::with_capacity(alloc, calls.len())?,
        latest: Vec::new(alloc),
    };
    for number in 0..calls.len() {
        ranks.push(calls, number)?;
    }
    let mut ticks = Vec::with_capacity(alloc, calls.len())?;
    for number in 0..calls.len() {
        if let Act::Nothing = acts.of(number) {
            continue;
        }
        let call = &calls[number];
        if number < ranks.begins.len() {
            ticks.push(Tick {
                at: call.begin,
                rank: ranks.begins[number],
                number,
                ends: false,
            })?;
        }
        if let Some(returned) = call.returned {
            if number < ranks.ends.len() {
                ticks.push(Tick {
                    at: returned.at,
                    rank: ranks.ends[number],
                    number,
                    ends: true,
                })?;
            }
        }
    }
    ticks.sort_unstable();
    Ok(ticks)
}

/// An item is put from this event on, and isn't taken before.
fn put_begins(spans: &mut Vec<Span>, item: usize, at: usize) {
    if item < spans.len() {
        spans[item].put_from = at;
        if spans[item].take_from < at {
            spans[item].take_from = at;
        }
    }
}

/// An item is taken from this event on.
fn take_begins(spans: &mut Vec<Span>, item: usize, at: usize) {
    if item < spans.len() {
        let from = spans[item].put_from;
        spans[item].take_from = if from == usize::MAX || from < at {
            at
        } else {
            from
        };
    }
}

/// An item is put by this event.
fn put_ends(spans: &mut Vec<Span>, item: usize, at: usize) {
    if item < spans.len() && at < spans[item].put_by {
        spans[item].put_by = at;
    }
}

/// An item is taken by this event, and put by then.
fn take_ends(spans: &mut Vec<Span>, item: usize, at: usize) {
    if item < spans.len() {
        spans[item].take_by = at;
        if at < spans[item].put_by {
            spans[item].put_by = at;
        }
    }
}

/// The row while it is made.
#[derive(Drop)]
struct Draft {
    events: Events,
    /// For each call that finds the queue empty or full, its number among these, from 1.
    numbers: Vec<usize>,
}

impl Draft {
    /// The call finds the queue empty or full, as the number in its list says.
    fn note(&mut self, call: usize, number: usize) {
        if call < self.numbers.len() {
            self.numbers[call] = number;
        }
    }

    /// The event at which a call begins.
    fn begin(&mut self, act: Act, call: usize) -> Result<Event, AllocError> {
        let from = self.events.row.len();
        match act {
            Act::Nothing => Ok(Event::Begins),
            Act::Puts(item) => {
                put_begins(&mut self.events.spans, item, from);
                Ok(Event::Begins)
            }
            Act::Takes(item) => {
                take_begins(&mut self.events.spans, item, from);
                Ok(Event::Begins)
            }
            Act::FindsEmpty => {
                self.events.empties.push(Look { call, from })?;
                let number = self.events.empties.len();
                self.note(call, number);
                Ok(Event::EmptyBegins)
            }
            Act::FindsFull => {
                self.events.fulls.push(Look { call, from })?;
                let number = self.events.fulls.len();
                self.note(call, number);
                Ok(Event::FullBegins)
            }
        }
    }

    /// The event at which a call ends.
    fn end(&mut self, act: Act, call: usize) -> Event {
        let by = self.events.row.len();
        let number = if call < self.numbers.len() {
            self.numbers[call]
        } else {
            0
        };
        match act {
            Act::Nothing => Event::Begins,
            Act::Puts(item) => {
                put_ends(&mut self.events.spans, item, by);
                Event::PutEnds(item)
            }
            Act::Takes(item) => {
                take_ends(&mut self.events.spans, item, by);
                Event::TakeEnds(item)
            }
            Act::FindsEmpty => Event::EmptyEnds(number),
            Act::FindsFull => Event::FullEnds(number),
        }
    }
}

/// The events of these calls. Fails only if an allocation fails.
pub(super) fn events_of(alloc: Global, calls: &[Call], acts: &Acts) -> Result<Events, AllocError> {
    let ticks = ticks_of(alloc, calls, acts)?;
    let mut draft = Draft {
        events: Events {
            row: Vec::with_capacity(alloc, ticks.len())?,
            spans: Vec::with_capacity(alloc, acts.items.len())?,
            empties: Vec::new(alloc),
            fulls: Vec::new(alloc),
        },
        numbers: Vec::with_capacity(alloc, calls.len())?,
    };
    for _ in 0..acts.items.len() {
        draft.events.spans.push(NEVER)?;
    }
    for _ in 0..calls.len() {
        draft.numbers.push(0)?;
    }
    for tick in &ticks {
        let act = acts.of(tick.number);
        let event = if tick.ends {
            draft.end(act, tick.number)
        } else {
            draft.begin(act, tick.number)?
        };
        draft.events.row.push(event)?;
    }
    Ok(draft.events)
}
