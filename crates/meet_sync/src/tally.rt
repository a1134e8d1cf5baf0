//! What a final log (a chronicle) states of its requests, and of the items that were given.

ghost use Rattle.std.specs.Prelude.{◌≡◌, ℕ, ◌++◌, None, List, IfOk, IfErr};
ghost use Rattle.meet_tickets.specs.Fates.{opening, fate_on};
ghost use Rattle.meet_tickets.specs.declared.places.Kind.{Kind};
ghost use Rattle.meet_tickets.specs.declared.records.Deed.{Deed};
ghost use Rattle.meet_tickets.specs.Refusals.{IsWhy};
ghost use Rattle.meet_book.specs.Received.{Received};
ghost use Rattle.meet_laws.specs.Erasing.{erase, IsErased};
ghost use Rattle.meet_laws.specs.Tally.{met_on, tally_in};
ghost use Rattle.meet_sync.specs.Chronicles.{IsChronicle, erase_refusal};

use crate::closing::Chronicle;
use meet_laws::{Tally, erase, fate, reckon};
use meet_tickets::{Deed, Fate, Record, Refusal, Ticket};
use std::alloc::Global;

impl<T> Chronicle<T> {
    /// Returns the outcome (the fate) of a request. It doesn't allocate, and reads each record once.
    pub fn fate(&self, ticket: Ticket) -> Fate
        ensures { result ≡ fate_on self.now.base self.now.records.items ticket }
    {
        fate(&self.base, self.records.as_slice(), ticket)
    }

    /// Returns how many items were given, and where they are. It doesn't allocate, and reads each record a few times.
    pub fn laws(&self) -> Tally
        ensures delivered { result.delivered ≡ met_on self.now.base self.now.records.items }
        ensures tally { (kind : Kind) → (mark : T → ℕ) → (lists : List (List (Received Deed)))
            → IsChronicle mark kind self.now.base self.now.records.items lists self.now.left.items
            → result ≡ tally_in (opening self.now.base ++ self.now.records.items) }
    {
        reckon(&self.base, self.records.as_slice(), self.left.as_slice())
    }

    /// Returns the records without the requests that were withdrawn, the interrupts, and the requests that were refused
    /// at their entry (a projection of the log).
    ///
    /// # Errors
    /// - HasBase, exactly if records were compacted.
    /// - Memory, if an allocation fails.
    pub fn erased(&self, alloc: Global) -> Result<Vec<Record<Deed>>, Refusal>
        ensures erased { IfOk result (λ left. left.items ≡ erase self.now.records.items) }
        ensures legal { (kind : Kind) → (mark : T → ℕ) → (lists : List (List (Received Deed)))
            → IsChronicle mark kind self.now.base self.now.records.items lists self.now.left.items
            → self.now.base.gone ≡ 0 → IsErased kind self.now.records.items }
        ensures admitted { IfOk result (λ _. erase_refusal self.now.base.gone ≡ None) }
        ensures why { IfErr result (IsWhy (erase_refusal self.now.base.gone)) }
    {
        if self.base.gone > 0 {
            return Err(Refusal::HasBase);
        }
        erase(alloc, self.records.as_slice())
    }
}
