//! What a seat tries, as far as a record states it.

ghost use Rattle.meet_tickets.specs.declared.records.Deed.TheVariants.{EntryInterrupted};
ghost use Rattle.std.specs.Prelude.{◌≡◌};
ghost use Rattle.meet_explain.specs.Answers.{Answers, attempt_of};

use meet_tickets::{Deed, SeatNo, Side};

/// What a seat tries.
#[derive(Clone, Copy, PartialEq, Eq, Debug)]
pub enum Attempt {
    /// It gives an item with this mark, and waits for a consumer or doesn't.
    Give(u64),
    /// It takes an item, and waits for a producer or doesn't.
    Take,
    /// It completes its open ticket, by a follow-up, a cancel or because its time ran out.
    End,
    /// It interrupts this seat.
    Interrupt(SeatNo),
}

/// What a seat of this side tried that was interrupted at its entry.
fn at_entry(side: Side) -> Attempt
    ensures answers { Answers result (EntryInterrupted side) }
    ensures is { result ≡ attempt_of (EntryInterrupted side) }
{
    match side {
        Side::Giver => Attempt::Give(0),
        Side::Taker => Attempt::Take,
    }
}

impl Attempt {
    /// Returns what a seat tried whose record has this deed. The record of a producer that was interrupted at its entry
    /// states no mark: there it is 0.
    pub fn of(deed: Deed) -> Attempt
        ensures answers { Answers result deed }
        ensures is { result ≡ attempt_of deed }
    {
        match deed {
            Deed::GiveWaits(mark) => Attempt::Give(mark),
            Deed::GiveMeets(mark, _) => Attempt::Give(mark),
            Deed::GiveFails(mark) => Attempt::Give(mark),
            Deed::GiveKept(mark) => Attempt::Give(mark),
            Deed::TakeWaits => Attempt::Take,
            Deed::TakeMeets(_, _) => Attempt::Take,
            Deed::TakeFails => Attempt::Take,
            Deed::EntryInterrupted(side) => at_entry(side),
            Deed::Done => Attempt::End,
            Deed::Got(_, _) => Attempt::End,
            Deed::Withdrawn(_) => Attempt::End,
            Deed::Interrupt(target) => Attempt::Interrupt(target),
        }
    }
}
