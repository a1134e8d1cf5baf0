//! The checker of a pool's records: are they legal? It takes them one by one, or all at once.

ghost use Rattle.std.specs.Prelude.{◌≡◌, ◌≢◌, [], Some, None, Err, IfSome, IfOk, IfErr, OnOk};
ghost use Rattle.meet_tickets.specs.Refusals.{IsWhy};
ghost use Rattle.pool_core.specs.Calls.{settings_refusal};
ghost use Rattle.pool_core.specs.Histories.{no_base, IsLegalOn};
ghost use Rattle.pool_history.specs.declared.checker.PoolFault.TheVariants.{Memory};
ghost use Rattle.pool_history.specs.Checking.{IsPoolFault};
ghost use Rattle.pool_history.specs.Pushing.{HasSeen, HasRoom, IsUnchanged, TakesIn, AreCountersOf, counters_on};

use meet_tickets::{Record, Refusal};
use pool::CheckedPool;
use pool_core::{Counters, PoolDeed, Settings};
use std::alloc::Global;
use std::marker::Model;

mod pool;

/// Why a record can't come next: the first reason that applies.
#[derive(Clone, Copy, PartialEq, Eq, Debug)]
pub enum PoolWhy {
    /// It is a caller's step, and the seat is none of the callers'; or a worker's step, and the seat is none of the
    /// workers'.
    NoSuchSeat,
    /// It is a worker's step that doesn't come from what the worker does, or isn't of its open ticket there.
    NotOpen,
    /// It has a new ticket that isn't above all earlier ones.
    TicketOrder,
    /// The specification requires another deed, worker, job or number.
    WrongReply,
}

/// The error of a checker.
#[derive(Clone, Copy, PartialEq, Eq, Debug)]
pub enum PoolFault {
    /// The record of number `place`, from 1 and with those of the base, is the first that can't stand, for the reason
    /// `why`.
    Illegal { place: u64, why: PoolWhy },
    /// An allocation failed.
    Memory,
}

/// Takes a pool's records one by one, and returns of each whether those so far are a legal history. It keeps none of
/// them: its memory is that of the state to which they lead.
#[derive(Drop)]
pub struct PoolChecker {
    pool: CheckedPool,
    count: u64,
    fault: Option<PoolFault>,
}

impl Model for PoolChecker {
    ghost use Rattle.std.specs.Prelude.{◌≢◌, Some};
    ghost use Rattle.pool_history.specs.declared.checker.PoolFault.TheVariants.{Memory};
    ghost use Rattle.pool_history.specs.Pushing.{Progress};

    ghost Value = { Progress };

    ghost view = { λ c. record { pool = c.pool; count = c.count; fault = c.fault } };

    ghost invariant = { λ c. c.fault ≢ Some Memory };
}

impl PoolChecker {
    /// Creates a checker of a pool of these settings that has seen no record.
    ///
    /// # Errors
    /// - BadSizes or PolicyNeedsBuffer, exactly if `settings_refusal` states it.
    /// - Memory, if an allocation fails.
    pub fn new(alloc: Global, settings: Settings) -> Result<Self, Refusal>
        ensures settings { IfOk result (λ checker. checker.pool.settings ≡ settings) }
        ensures fits { IfOk result (λ _. settings_refusal settings ≡ None) }
        ensures seen { IfOk result (λ checker. HasSeen no_base checker []) }
        ensures sound { IfOk result (λ checker. checker.fault ≡ None) }
        ensures why { IfErr result (IsWhy (settings_refusal settings)) }
    {
        match CheckedPool::new(alloc, settings) {
            Ok(pool) => Ok(PoolChecker {
                pool,
                count: 0,
                fault: None,
            }),
            Err(why) => Err(why),
        }
    }

    /// Takes the next record in. If it returns Ok, the records so far are legal.
    ///
    /// # Errors
    /// - Illegal, if this is the first record that can't stand, with the first reason that applies. Each later push
    ///   returns the same error.
    /// - Memory, if an allocation fails or 2^64 - 1 records were pushed: the checker is as it was.
    pub fn push(&mut self, entry: Record<PoolDeed<u64>>) -> Result<(), PoolFault>
        ensures settings { self.new.pool.settings ≡ self.old.pool.settings }
        ensures seen { result ≢ Err Memory → TakesIn self.old entry self.new }
        ensures sound { OnOk result (self.new.fault ≡ None) }
        ensures fault { IfErr result (λ fault. fault ≢ Memory → self.new.fault ≡ Some fault) }
        ensures again { IfSome self.old.fault (λ fault. result ≡ Err fault) }
        ensures unchanged { result ≡ Err Memory → IsUnchanged self.old self.new }
        ensures enough { HasRoom self.old → result ≢ Err Memory }
    {
        if let Some(fault) = self.fault {
            return Err(fault);
        }
        if self.count == u64::MAX || self.pool.reserve().is_err() {
            return Err(PoolFault::Memory);
        }
        self.count += 1;
        match self.pool.next(entry) {
            Ok(()) => Ok(()),
            Err(why) => {
                let fault = PoolFault::Illegal {
                    place: self.count,
                    why,
                };
                self.fault = Some(fault);
                Err(fault)
            }
        }
    }

    /// Returns what the pool counts after the records that were pushed. It doesn't allocate.
    ///
    /// # Errors
    /// - Illegal, if a record that can't stand was found.
    pub fn counters(&self) -> Result<Counters, PoolFault>
        ensures counters { IfOk result (AreCountersOf self.now) }
        ensures sound { OnOk result (self.now.fault ≡ None) }
        ensures fault { IfErr result (λ fault. self.now.fault ≡ Some fault) }
    {
        match self.fault {
            None => Ok(self.pool.counters()),
            Some(fault) => Err(fault),
        }
    }
}

/// Checks whether these records are a legal history of a new pool of these settings, and returns what it counts.
///
/// # Errors
/// - BadSizes or PolicyNeedsBuffer, as the outer error, exactly if `settings_refusal` states it.
/// - Memory, as the outer error or as the inner one, if an allocation fails.
/// - Illegal, as the inner error, if they aren't legal: with the last record of the shortest prefix that isn't legal,
///   and the first reason that applies.
///
/// # Example
/// From `crates/pool_drive/src/whole.rt`:
///
///     match check_pool(alloc, settings, records)? {
pub fn check_pool(
    alloc: Global,
    settings: Settings,
    records: &[Record<PoolDeed<u64>>],
) -> Result<Result<Counters, PoolFault>, Refusal>
    ensures fits { IfOk result (λ _. settings_refusal settings ≡ None) }
    ensures legal { IfOk result (λ found. OnOk found (IsLegalOn settings no_base records.now)) }
    ensures counters { IfOk result (λ found. IfOk found (λ counters. counters
        ≡ counters_on settings no_base records.now)) }
    ensures fault { IfOk result (λ found. IfErr found (IsPoolFault settings no_base records.now)) }
    ensures why { IfErr result (IsWhy (settings_refusal settings)) }
{
    let mut checker = PoolChecker::new(alloc, settings)?;
    for entry in records {
        match checker.push(*entry) {
            Ok(()) => {}
            Err(fault) => return Ok(Err(fault)),
        }
    }
    Ok(checker.counters())
}
