//! The snapshot (the base) of what a checker has seen: where a history ends, and the next one begins.

ghost use Rattle.std.specs.Prelude.{◌≡◌, ◌≢◌, Some, None, Err, IfSome, IfOk, IfErr, OnOk};
ghost use Rattle.meet_tickets.specs.Bases.{IsBaseOf};
ghost use Rattle.meet_history.specs.declared.checker.CheckFault.TheVariants.{Memory};
ghost use Rattle.meet_history.specs.Checking.{moment_at};
ghost use Rattle.meet_history.specs.Pushing.{TellsEnd};

use crate::checker::same::is_same;
use crate::checker::{CheckFault, Checker};
use meet_tickets::Base;
use std::alloc::Global;

impl Checker {
    /// Returns the base for the base that the checker began with and all records that were pushed: a history that goes
    /// on from here begins with it.
    ///
    /// # Errors
    /// - Illegal, if such a record was found.
    /// - Memory, if an allocation fails; then it can be called again.
    pub fn base(&self, alloc: Global) -> Result<Base, CheckFault>
        ensures base { IfOk result (IsBaseOf (moment_at self.now.place) self.now.count) }
        ensures sound { OnOk result (self.now.fault ≡ None) }
        ensures fault { IfErr result (λ fault. fault ≢ Memory → self.now.fault ≡ Some fault) }
        ensures again { IfSome self.now.fault (λ fault. result ≡ Err fault) }
    {
        if let Some(fault) = self.fault {
            return Err(fault);
        }
        match self.place.base(alloc, self.count) {
            Ok(base) => Ok(base),
            Err(_) => Err(CheckFault::Memory),
        }
    }

    /// Returns true if this base is the one for the base that the checker began with and all records that were pushed:
    /// only this one is.
    ///
    /// # Errors
    /// - Illegal, if such a record was found.
    /// - Memory, if an allocation fails; then it can be called again.
    pub fn ends_at(&self, alloc: Global, base: &Base) -> Result<bool, CheckFault>
        ensures ends { IfOk result (TellsEnd self.now base.now) }
        ensures sound { OnOk result (self.now.fault ≡ None) }
        ensures fault { IfErr result (λ fault. fault ≢ Memory → self.now.fault ≡ Some fault) }
        ensures again { IfSome self.now.fault (λ fault. result ≡ Err fault) }
    {
        let own = self.base(alloc)?;
        Ok(is_same(&own, base))
    }
}
