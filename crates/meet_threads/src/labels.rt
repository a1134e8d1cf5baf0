//! Items of any type, each with an item id (a mark), a number by which records name it.

ghost use Rattle.std.specs.Prelude.{◌≡◌, ◌+◌, ◌%◌, ◌^◌};
ghost use Rattle.meet_threads.specs.LabelMarks.{label_mark, IsOf};

use meet_tickets::{MOST_SEATS, Marked, SeatNo};

/// How many labels a seat gives before their marks begin again.
const MOST_LABELS: u64 = 281_474_976_710_656; // 2^48

/// A value with an item id (a mark), by which the records of a queue name it. So a `String`, a `Vec` or a struct of
/// your own is an item of a queue without an impl of `Marked`. A handle labels the items of its thread
/// (`QueueHandle::label`).
///
/// # Example
/// From `crates/examples/src/strings.rt`:
///
///     type Consumed = Result<Labelled<String>, NotReceived>;
///
/// Java: an item is any object, and nothing names it.
#[derive(Clone, Copy, PartialEq, Eq, Debug, Drop)]
pub struct Labelled<T> {
    /// The number. The labels of one queue's handles have numbers that differ; two items may also have the same.
    pub mark: u64,
    /// The value itself.
    pub value: T,
}

impl<T> Marked for Labelled<T> {
    ghost mark_of = { λ item. item.mark };

    fn mark(&self) -> u64 {
        self.mark
    }
}

/// How many labels a seat has given.
#[derive(Clone, Copy, Debug, Drop)]
pub struct Labels {
    given: u64,
}

impl Labels {
    /// None was given.
    pub fn none() -> Labels
        ensures { result.given ≡ 0 }
    {
        Labels { given: 0 }
    }

    /// Labels a value of this seat.
    pub fn label<T>(&mut self, seat: SeatNo, value: T) -> Labelled<T>
        ensures value { result.value ≡ value }
        ensures mark { result.mark ≡ label_mark seat self.old.given }
        ensures own { IsOf seat result.mark }
        ensures given { self.new.given ≡ (self.old.given + 1) % 2 ^ 64 }
    {
        let mark = seat.number() + MOST_SEATS * (self.given % MOST_LABELS);
        self.given = self.given.wrapping_add(1);
        Labelled { mark, value }
    }
}
