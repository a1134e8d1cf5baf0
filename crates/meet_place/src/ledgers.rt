//! The two ledgers (ghost counters) of a place: of its records, and of those that were compacted. They go together in
//! all that follows. Beside them is the counter of its records, and what a seat knows of it.

ghost use Rattle.std.specs.Prelude.{◌≡◌, ◌+◌, ◌<◌, ◌≤◌, ℕ, max};
ghost use Rattle.meet_place.specs.Ledgers.{AreOf};

use meet_moments::{self as moments, Counter};
use std::marker::{Brand, Model, PhantomData};
use std::sync::ledger;
use std::sync::ledger::{Blank, Ledger, Share};

/// Distinguishes the two ledgers of one place from those of others, and states what that place was made with. As a
/// ledger it is that of the place's records, with a part for each seat; beside it is that of the records that were
/// compacted.
pub trait Ledgers: Ledger {
    /// The name of the ledger of the compacted records.
    ghost folds: { ℕ };

    /// The name of the counter of the records.
    ghost moments: { ℕ };

    /// The capacity of the place's log, in records.
    ghost cap: { ℕ };
}

impl Ledgers for Brand {
    ghost folds = { 0 };

    ghost moments = { 0 };

    ghost cap = { 0 };
}

/// The ledger of the compacted records. No value of it is made.
pub struct Folds<N> {
    of: PhantomData<N>,
}

impl<N: Ledgers> Ledger for Folds<N> {
    ghost name = { N.folds };

    ghost parts = { N.parts };
}

/// A counter at 0, for which no type stands yet. A contract sees its name.
#[derive(Drop)]
pub struct NewCounter {
    counter: Counter,
}

impl Model for NewCounter {
    ghost use Rattle.std.specs.Prelude.{◌≡◌, ℕ};

    ghost Value = { ℕ };

    ghost view = { λ f. f.counter.name };

    ghost invariant = { λ f. f.counter.now ≡ 0 };
}

impl NewCounter {
    /// Creates a counter at 0.
    fn new() -> Self {
        NewCounter {
            counter: Counter::new(),
        }
    }
}

/// Two new ledgers, which no type stands for yet, with a part for each seat, and a new counter.
#[derive(Drop)]
pub struct Blanks {
    /// The ledger of the records.
    pub records: Blank,
    /// The ledger of the compacted records.
    pub folds: Blank,
    /// The counter of the records.
    pub moments: NewCounter,
}

impl Blanks {
    /// Creates two ledgers for `seats` seats.
    ///
    /// # Example
    /// From `crates/examples/src/jobs.rt`:
    ///
    ///     blanks: Blanks::new(3), // a part for each caller and each worker
    pub fn new(seats: u64) -> Self
        ensures { (result.records.parts ≡ seats) × (result.folds.parts ≡ seats) }
    {
        Blanks {
            records: Blank::new(seats),
            folds: Blank::new(seats),
            moments: NewCounter::new(),
        }
    }

    /// The totals of both, and a share that has all parts.
    pub(crate) fn open<N: Ledgers>(self) -> (Totals<N>, Stake<N>)
        requires { AreOf N.name N.folds N.moments N.parts self }
        ensures totals { (result.0.total ≡ 0) × (result.0.folds ≡ 0) }
        ensures share { (result.1.parts ≡ N.parts) × (result.1.amount ≡ 0) × (result.1.folds ≡ 0) }
    {
        let Blanks {
            records,
            folds,
            moments,
        } = self;
        let (total, share) = records.open::<N>();
        let (gone, part) = folds.open::<Folds<N>>();
        let NewCounter { counter } = moments;
        let totals = Totals {
            records: total,
            gone,
            counter,
        };
        let stake = Stake {
            records: share,
            gone: part,
        };
        (totals, stake)
    }
}

/// Parts of both ledgers, as many of the one as of the other, with what they count.
#[derive(Drop)]
pub struct Stake<N: Ledgers> {
    records: Share<N>,
    gone: Share<Folds<N>>,
}

impl<N: Ledgers> Model for Stake<N> {
    ghost use Rattle.std.specs.Prelude.{◌≡◌};
    ghost use Rattle.meet_place.specs.Ledgers.{Staked};

    ghost Value = { Staked };

    ghost view = { λ s. record { parts = s.records.parts; amount = s.records.amount; folds = s.gone.amount } };

    ghost invariant = { λ s. s.gone.parts ≡ s.records.parts };
}

impl<N: Ledgers> Stake<N> {
    /// Takes another share in.
    pub(crate) fn merge(&mut self, other: Stake<N>)
        ensures parts { self.new.parts ≡ self.old.parts + other.parts }
        ensures amount { self.new.amount ≡ self.old.amount + other.amount }
        ensures folds { self.new.folds ≡ self.old.folds + other.folds }
        ensures apart { self.new.parts ≤ N.parts }
    {
        let Stake { records, gone } = other;
        self.records.merge(records);
        self.gone.merge(gone);
    }

    /// Splits so much off.
    pub(crate) fn split_off(&mut self, parts: u64, amount: u64, folds: u64) -> Stake<N>
        requires has_parts { parts ≤ self.old.parts }
        requires has_amount { amount ≤ self.old.amount }
        requires has_folds { folds ≤ self.old.folds }
        requires left_backed { parts ≡ self.old.parts → (amount ≡ self.old.amount) × (folds ≡ self.old.folds) }
        requires given_backed { 0 < parts }
        ensures share { (result.parts ≡ parts) × (result.amount ≡ amount) × (result.folds ≡ folds) }
        ensures parts_left { self.new.parts + parts ≡ self.old.parts }
        ensures amount_left { self.new.amount + amount ≡ self.old.amount }
        ensures folds_left { self.new.folds + folds ≡ self.old.folds }
    {
        Stake {
            records: self.records.split_off(parts, amount),
            gone: self.gone.split_off(parts, folds),
        }
    }
}

/// A moment of a place: the number of the records that had been written by then. It takes no bytes, and what it states
/// stays true, so it can be copied and sent to other threads. It is of the one place whose ledgers are `N`. A contract
/// sees the number.
#[derive(Drop)]
pub struct Moment<N: Ledgers> {
    at: moments::Moment,
    of: PhantomData<N>,
}

impl<N: Ledgers> Model for Moment<N> {
    ghost use Rattle.std.specs.Prelude.{◌≡◌, ℕ};

    ghost Value = { ℕ };

    ghost view = { λ m. m.at.at };

    ghost invariant = { λ m. m.at.name ≡ N.moments };
}

impl<N: Ledgers> Moment<N> {
    /// Returns a copy. It doesn't allocate, and can be sent to another thread.
    pub fn again(&self) -> Self
        ensures { result ≡ self.now }
    {
        Moment {
            at: self.at.again(),
            of: PhantomData,
        }
    }

    /// Raises this moment to the other one, if that is later.
    pub fn learn(&mut self, other: &Moment<N>)
        ensures { self.new ≡ max self.old other.now }
    {
        self.at.learn(&other.at);
    }
}

/// How many records all shares count together, and how many of these were compacted.
#[derive(Drop)]
pub struct Totals<N: Ledgers> {
    records: ledger::Book<N>,
    gone: ledger::Book<Folds<N>>,
    counter: Counter,
}

impl<N: Ledgers> Model for Totals<N> {
    ghost use Rattle.std.specs.Prelude.{◌≡◌};
    ghost use Rattle.meet_place.specs.Ledgers.{Totalled};

    ghost Value = { Totalled };

    ghost view = { λ t. record { total = t.records.total; folds = t.gone.total } };

    ghost invariant = { λ t. (t.counter.name ≡ N.moments) × (t.counter.now ≡ t.records.total) };
}

impl<N: Ledgers> Totals<N> {
    /// Returns the moment behind all records.
    pub(crate) fn moment(&mut self) -> Moment<N>
        ensures moment { result ≡ self.old.total }
        ensures same { self.new ≡ self.old }
    {
        Moment {
            at: self.counter.moment(),
            of: PhantomData,
        }
    }

    /// Changes nothing, and states that no moment is ahead of the records.
    pub(crate) fn audit_moment(&mut self, moment: &Moment<N>)
        ensures totals { self.new ≡ self.old }
        ensures bound { moment.now ≤ self.old.total }
    {
        let mut copy = moment.again();
        self.counter.advance(&mut copy.at, 0);
    }

    /// Counts `amount` more records, and adds them to a share. The moment wasn't ahead of the records before, and is
    /// behind these then.
    pub(crate) fn add(&mut self, share: &mut Stake<N>, moment: &mut Moment<N>, amount: u64)
        requires { 0 < share.old.parts }
        ensures totals { self.new ≡ record self.old { total = self.old.total + amount } }
        ensures share { share.new ≡ record share.old { amount = share.old.amount + amount } }
        ensures before { moment.old ≤ self.old.total }
        ensures moment { moment.new ≡ self.old.total + amount }
    {
        self.records.add(&mut share.records, amount);
        self.counter.advance(&mut moment.at, amount);
    }

    /// Counts so many more that were folded away, and adds them to a share.
    pub(crate) fn fold(&mut self, share: &mut Stake<N>, amount: u64)
        requires { 0 < share.old.parts }
        ensures totals { self.new ≡ record self.old { folds = self.old.folds + amount } }
        ensures share { share.new ≡ record share.old { folds = share.old.folds + amount } }
        ensures bound { share.new.folds ≤ self.new.folds }
    {
        self.gone.add(&mut share.gone, amount);
        self.gone.audit(&mut share.gone);
    }

    /// Changes nothing, and tells how the share stands to the totals.
    pub(crate) fn audit(&mut self, share: &mut Stake<N>)
        ensures totals { self.new ≡ self.old }
        ensures share { share.new ≡ share.old }
        ensures bound { (share.old.amount ≤ self.old.total) × (share.old.folds ≤ self.old.folds) }
        ensures whole { share.old.parts ≡ N.parts
            → (share.old.amount ≡ self.old.total) × (share.old.folds ≡ self.old.folds) }
    {
        self.records.audit(&mut share.records);
        self.gone.audit(&mut share.gone);
    }
}
