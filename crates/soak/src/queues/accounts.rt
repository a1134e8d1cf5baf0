//! What a thread gave to calls, and what came to it.

ghost use Rattle.std.specs.Prelude.{◌≡◌, ◌++◌, IsSome, IfNone};
ghost use Rattle.std.specs.Option.{option_or};
ghost use Rattle.soak.specs.Seen.{answer_of, open_after, over_after};

use crate::queues::seen::Log;
use meet_overlap::Call;
use meet_shop::Told;
use std::alloc::Global;

/// The items that a thread gave, those that it took or got back, its calls as a judge sees them, how many checkpoints it
/// made, and what went wrong first.
#[derive(Drop)]
pub struct Account {
    pub given: Vec<u64>,
    pub came: Vec<u64>,
    pub log: Log,
    pub checkpoints: u64,
    pub fault: Option<&'static str>,
}

/// The item that comes with this answer: one that was taken, or the own one of who gave this.
fn come_with(told: Told, given: Option<u64>) -> Option<u64> {
    match told {
        Told::Got(_, item) => Some(item),
        Told::Failed(back) => back,
        Told::Stopped(back) => back,
        Told::WasCut(back) => back,
        Told::TimedOut(back) => back,
        Told::Back(back) => back,
        Told::Refused(_, back) => back,
        Told::Unasked => given,
        _ => None,
    }
}

impl Account {
    /// Nothing was given, and nothing came.
    pub fn new(alloc: Global) -> Account {
        Account {
            given: Vec::new(alloc),
            came: Vec::new(alloc),
            log: Log::new(alloc),
            checkpoints: 0,
            fault: None,
        }
    }

    /// Notes what went wrong, unless something did before.
    fn blame(&mut self, fault: &'static str)
        ensures { IsSome self.new.fault }
    {
        if self.fault.is_none() {
            self.fault = Some(fault);
        }
    }

    /// Notes items that were given.
    fn give(&mut self, items: &[u64]) {
        if self.given.extend_from_slice(items).is_err() {
            self.blame("memory");
        }
    }

    /// Notes items that came.
    fn take(&mut self, items: &[u64]) {
        if self.came.extend_from_slice(items).is_err() {
            self.blame("memory");
        }
    }

    /// An act that ended at this stamp was told this. It began this call, or none.
    pub fn note_seen(&mut self, begun: Option<Call>, end: u64, told: Told)
        ensures open { IfNone self.new.fault (self.new.log.open
            ≡ open_after (option_or self.old.log.open begun) (answer_of told)) }
        ensures over { IfNone self.new.fault (self.new.log.over.items
            ≡ self.old.log.over.items ++ over_after (option_or self.old.log.open begun) end (answer_of told)) }
    {
        if self.log.note(begun, end, told).is_err() {
            self.blame("memory");
        }
    }

    /// A checkpoint was made.
    pub fn note_checkpoint(&mut self) {
        self.checkpoints = self.checkpoints.saturating_add(1);
    }

    /// Who gave this item, or none, was told this. No call of a round is refused.
    pub fn note(&mut self, given: Option<u64>, told: Told) {
        if let Some(item) = given {
            self.give(&[item]);
        }
        if let Some(item) = come_with(told, given) {
            self.take(&[item]);
        }
        if let Told::Refused(why, _) = told {
            self.blame(why.name());
        }
    }

    /// A drain took these items, or was refused.
    pub fn note_drain(&mut self, items: Option<Vec<u64>>) {
        match items {
            Some(items) => self.take(items.as_slice()),
            None => self.blame("a drain was refused"),
        }
    }

    /// Adds another account.
    pub fn add(&mut self, other: Account) {
        self.give(other.given.as_slice());
        self.take(other.came.as_slice());
        if self.log.add(other.log).is_err() {
            self.blame("memory");
        }
        self.checkpoints = self.checkpoints.saturating_add(other.checkpoints);
        if let Some(fault) = other.fault {
            self.blame(fault);
        }
    }
}
