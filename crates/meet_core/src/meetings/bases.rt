//! The snapshot (the base) of a queue, with which it goes on without its history.

ghost use Rattle.std.specs.Prelude.{◌≡◌, IfOk, IfErr};
ghost use Rattle.meet_tickets.specs.Bases.{IsBaseOf};
ghost use Rattle.meet_tickets.specs.declared.refusals.Refusal.TheVariants.{Memory};
ghost use Rattle.meet_core.specs.Seen.{moment_of_queue};

use crate::meetings::Meetings;
use crate::seats::open_tickets;
use meet_line::{Line, marked_line};
use meet_tickets::{Base, Marked, Refusal};
use std::alloc::Global;

impl<T: Marked, L: Line<T>> Meetings<T, L> {
    /// Returns the base of this queue, after `gone` records were compacted.
    ///
    /// # Errors
    /// - Memory, if an allocation fails.
    pub fn base(&self, alloc: Global, gone: u64) -> Result<Base, Refusal>
        ensures base { IfOk result (IsBaseOf (moment_of_queue T.mark_of self.now) gone) }
        ensures memory { IfErr result (λ why. why ≡ Memory) }
    {
        let line = marked_line(alloc, &self.line)?;
        let opened = open_tickets(alloc, &self.seats)?;
        Ok(Base {
            gone,
            last: self.last,
            line,
            pairs: opened.pairs,
            cut: opened.cut,
            flags: opened.flags,
        })
    }
}
