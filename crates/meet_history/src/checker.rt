//! The checker of logs: are these records legal? It takes them one by one, or all at once.

ghost use Rattle.std.specs.Prelude.{◌≡◌, ◌≢◌, [], Some, None, Err, IfSome, IfOk, IfErr, OnOk};
ghost use Rattle.meet_tickets.specs.Bases.{IsWellFormed, IsLegalOn};
ghost use Rattle.meet_history.specs.declared.checker.CheckFault.TheVariants.{Memory};
ghost use Rattle.meet_history.specs.Checking.{IsCheckFault, number_of_why};
ghost use Rattle.meet_history.specs.Pushing.{HasSeen, HasRoomFor, IsUnchanged, TakesIn, IsStandingOf};
ghost use Rattle.meet_history.specs.Standings.{standing_on};

use meet_tickets::{Base, Deed, Kind, Record};
use place::CheckedPlace;
use std::alloc::Global;
use std::marker::Model;

mod ends;
mod place;
mod same;

/// Why a record can't come next: the first reason that applies.
#[derive(Clone, Copy, PartialEq, Eq, Debug)]
pub enum Why {
    /// It is a request of a seat that has a pending request (an open ticket).
    SeatOpen,
    /// It is a request whose ticket isn't above all earlier ones.
    TicketOrder,
    /// It is the completion of a ticket that isn't the seat's open one.
    NotOpen,
    /// The specification requires another deed, partner or mark.
    WrongReply,
}

impl Why {
    /// Returns the reason's number, 1 to 4, in the order of the reasons.
    pub fn number(self) -> u64
        ensures { result ≡ number_of_why self }
    {
        match self {
            Why::SeatOpen => 1,
            Why::TicketOrder => 2,
            Why::NotOpen => 3,
            Why::WrongReply => 4,
        }
    }
}

/// The error of a checker.
#[derive(Clone, Copy, PartialEq, Eq, Debug)]
pub enum CheckFault {
    /// The record of number `place`, from 1 and with those of the base, is the first that can't stand, for the reason
    /// `why`.
    Illegal { place: u64, why: Why },
    /// An allocation failed.
    Memory,
}

/// The status of a place's requests and items at the end of its records.
#[derive(Clone, Copy, PartialEq, Eq, Debug)]
pub struct Standing {
    /// Pending requests (open tickets) that wait in the wait queue.
    pub waiting: u64,
    /// Pending requests that were matched or interrupted, and not collected.
    pub uncollected: u64,
    /// Items that are buffered.
    pub kept: u64,
}

/// Takes a place's records one by one, and returns of each whether those so far are a legal history. It keeps none of
/// them: its memory is that of the state to which they lead.
#[derive(Drop)]
pub struct Checker {
    place: CheckedPlace,
    count: u64,
    fault: Option<CheckFault>,
}

impl Model for Checker {
    ghost use Rattle.std.specs.Prelude.{◌≢◌, Some};
    ghost use Rattle.meet_history.specs.declared.checker.CheckFault.TheVariants.{Memory};
    ghost use Rattle.meet_history.specs.Pushing.{Progress};

    ghost Value = { Progress };

    ghost view = { λ c. record { place = c.place; count = c.count; fault = c.fault } };

    ghost invariant = { λ c. c.fault ≢ Some Memory };
}

impl Checker {
    /// Creates a checker of a place of this kind that begins with this base, and has seen no record since. The base has
    /// to be well formed.
    ///
    /// # Errors
    /// - Memory, if an allocation fails.
    ///
    /// # Example
    /// From `crates/meet_history_tests/src/calls.rt`:
    ///
    ///     Checker::new(alloc, kind_of(order), &Base::empty(alloc)).expect(rt, "memory")
    pub fn new(alloc: Global, kind: Kind, base: &Base) -> Result<Self, CheckFault>
        requires { IsWellFormed kind base.now }
        ensures kind { IfOk result (λ checker. checker.place.kind ≡ kind) }
        ensures seen { IfOk result (λ checker. HasSeen base.now checker []) }
        ensures sound { IfOk result (λ checker. checker.fault ≡ None) }
        ensures memory { IfErr result (λ fault. fault ≡ Memory) }
    {
        match CheckedPlace::on(alloc, kind, base) {
            Ok(place) => Ok(Checker {
                place,
                count: base.gone,
                fault: None,
            }),
            Err(_) => Err(CheckFault::Memory),
        }
    }

    /// Takes the next record in. If it returns Ok, the records so far are legal.
    ///
    /// # Errors
    /// - Illegal, if this is the first record that can't stand, with the first reason that applies. Each later push
    ///   returns the same error.
    /// - Memory, if an allocation fails or 2^64 - 1 records were pushed: the checker is as it was.
    ///
    /// # Example
    /// From `crates/meet_history_tests/src/calls.rt`:
    ///
    ///     checker.push(entry)
    pub fn push(&mut self, entry: Record<Deed>) -> Result<(), CheckFault>
        ensures kind { self.new.place.kind ≡ self.old.place.kind }
        ensures seen { result ≢ Err Memory → TakesIn self.old entry self.new }
        ensures sound { OnOk result (self.new.fault ≡ None) }
        ensures fault { IfErr result (λ fault. fault ≢ Memory → self.new.fault ≡ Some fault) }
        ensures again { IfSome self.old.fault (λ fault. result ≡ Err fault) }
        ensures unchanged { result ≡ Err Memory → IsUnchanged self.old self.new }
        ensures enough { HasRoomFor self.old entry → result ≢ Err Memory }
    {
        if let Some(fault) = self.fault {
            return Err(fault);
        }
        if self.count == u64::MAX || self.place.reserve(&entry).is_err() {
            return Err(CheckFault::Memory);
        }
        self.count += 1;
        match self.place.next(entry) {
            Ok(()) => Ok(()),
            Err(why) => {
                let fault = CheckFault::Illegal {
                    place: self.count,
                    why,
                };
                self.fault = Some(fault);
                Err(fault)
            }
        }
    }

    /// Returns the status of the place's requests and items after the records that were pushed. It doesn't allocate.
    ///
    /// # Errors
    /// - Illegal, if such a record was found.
    pub fn standing(&self) -> Result<Standing, CheckFault>
        ensures standing { IfOk result (IsStandingOf self.now) }
        ensures sound { OnOk result (self.now.fault ≡ None) }
        ensures fault { IfErr result (λ fault. self.now.fault ≡ Some fault) }
    {
        match self.fault {
            None => Ok(self.place.standing()),
            Some(fault) => Err(fault),
        }
    }
}

/// Checks whether these records are a legal history of a place of this kind after this base, and returns the status of
/// its requests and items. The base has to be well formed.
///
/// # Errors
/// - Illegal, if they aren't: with the last record of the shortest prefix that isn't legal, and the first reason that
///   applies.
/// - Memory, if an allocation fails.
///
/// # Example
/// From `crates/meet_wakes_tests/src/chance.rt`:
///
///     let standing = match check(
///         alloc,
///         Kind { order, bound: None },
///         &Base::empty(alloc),
///         records,
///     ) {
///         Ok(standing) => standing,
///         Err(_) => return Err("the records aren't legal".into()),
///     };
pub fn check(
    alloc: Global,
    kind: Kind,
    base: &Base,
    records: &[Record<Deed>],
) -> Result<Standing, CheckFault>
    requires { IsWellFormed kind base.now }
    ensures legal { IfOk result (λ _. IsLegalOn kind base.now records.now) }
    ensures standing { IfOk result (λ standing. standing ≡ standing_on base.now records.now) }
    ensures fault { IfErr result (λ fault. IsCheckFault kind base.now records.now fault) }
{
    let mut checker = Checker::new(alloc, kind, base)?;
    for entry in records {
        match checker.push(*entry) {
            Ok(()) => {}
            Err(fault) => return Err(fault),
        }
    }
    checker.standing()
}
