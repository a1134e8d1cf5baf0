//! How many records have which deed.

ghost use Rattle.std.specs.Prelude.{◌≡◌, ◌+◌, ◌<◌, ◌^◌, []};
ghost use Rattle.meet_sum.specs.Deeds.{deeds_in, deeds_counted, with_deed};

use meet_tickets::{Deed, Record};

/// How many records have which deed. Each field is named as the deed is in a trace.
#[derive(Clone, Copy, PartialEq, Eq, Debug)]
pub struct DeedCounts {
    /// Requests of producers that wait.
    pub give_waits: u64,
    /// Requests of producers that met a consumer.
    pub give_meets: u64,
    /// Requests of producers that found no consumer, and didn't wait.
    pub give_fails: u64,
    /// Requests of producers whose item was buffered.
    pub give_kept: u64,
    /// Requests of consumers that wait.
    pub take_waits: u64,
    /// Requests of consumers that met a producer.
    pub take_meets: u64,
    /// Requests of consumers that found no producer, and didn't wait.
    pub take_fails: u64,
    /// Requests that were refused at their entry, since their seat had a pending interrupt.
    pub entry_interrupted: u64,
    /// Completions of producers that were matched.
    pub done: u64,
    /// Completions of consumers that were matched.
    pub got: u64,
    /// Completions of requests that were cancelled, expired or interrupted.
    pub withdrawn: u64,
    /// Interrupts of a seat.
    pub interrupt: u64,
}

/// The numbers of no records.
fn no_deeds() -> DeedCounts
    ensures { result ≡ deeds_in [] }
{
    DeedCounts {
        give_waits: 0,
        give_meets: 0,
        give_fails: 0,
        give_kept: 0,
        take_waits: 0,
        take_meets: 0,
        take_fails: 0,
        entry_interrupted: 0,
        done: 0,
        got: 0,
        withdrawn: 0,
        interrupt: 0,
    }
}

/// Counts one deed more.
fn add(counts: &mut DeedCounts, deed: &Deed)
    requires { deeds_counted counts.old + 1 < 2 ^ 64 }
    ensures { counts.new ≡ with_deed counts.old deed.now }
{
    match deed {
        Deed::GiveWaits(_) => counts.give_waits += 1,
        Deed::GiveMeets(_, _) => counts.give_meets += 1,
        Deed::GiveFails(_) => counts.give_fails += 1,
        Deed::GiveKept(_) => counts.give_kept += 1,
        Deed::TakeWaits => counts.take_waits += 1,
        Deed::TakeMeets(_, _) => counts.take_meets += 1,
        Deed::TakeFails => counts.take_fails += 1,
        Deed::EntryInterrupted(_) => counts.entry_interrupted += 1,
        Deed::Done => counts.done += 1,
        Deed::Got(_, _) => counts.got += 1,
        Deed::Withdrawn(_) => counts.withdrawn += 1,
        Deed::Interrupt(_) => counts.interrupt += 1,
    }
}

/// Counts the records with each deed. It doesn't allocate, and reads each record once.
pub fn count_deeds(records: &[Record<Deed>]) -> DeedCounts
    ensures { result ≡ deeds_in records.now }
{
    let mut counts = no_deeds();
    for entry in records {
        add(&mut counts, &entry.deed);
    }
    counts
}
