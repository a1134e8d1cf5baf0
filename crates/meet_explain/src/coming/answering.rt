//! Each answer to what a seat tries, and no other.

ghost use Rattle.std.specs.Prelude.{◌≡◌, ℕ, ◌++◌, ◌∷◌, [], Option, IfOk, IfSome, OnOk, if◌then◌else◌};
ghost use Rattle.meet_tickets.specs.Bases.{moment_of_base};
ghost use Rattle.meet_tickets.specs.Meeting.{Finds};
ghost use Rattle.meet_tickets.specs.declared.lines.Hold.TheVariants.{Served};
ghost use Rattle.meet_explain.specs.Answers.{AreAnswers, AreChosen, MayCome};
ghost use Rattle.meet_explain.specs.declared.coming.attempts.Attempt.TheVariants.{Give, Take, End, Interrupt};

use crate::coming::attempts::Attempt;
use crate::coming::holding::{hold, whom};
use crate::coming::may::may_come;
use meet_tickets::{Base, Cause, Deed, Hold, Kind, SeatNo, Side, Ticket};
use std::alloc::{AllocError, Global};

/// No ticket.
fn none() -> Ticket {
    Ticket::new(0).unwrap()
}

/// The ticket, and the mark of a producer's item, that a request of this side would meet; zeros if it would meet none.
fn partner_of(kind: Kind, base: &Base, side: Side) -> (Ticket, u64)
    ensures { (ticket : ℕ) (item : Option ℕ) → Finds kind base.now.line side ticket item
        → (result.0 ≡ ticket) × IfSome item (λ mark. result.1 ≡ mark) }
{
    match whom(kind, base, side) {
        Some((ticket, item)) => (ticket, item.unwrap_or(0)),
        None => (none(), 0),
    }
}

/// The producer that a seat's open ticket met, and the mark of the item; zeros if it met none.
fn giver_of(base: &Base, seat: SeatNo) -> (Ticket, u64)
    ensures { (t giver mark : ℕ) → (moment_of_base base.now).seats.holds seat ≡ Served t giver mark
        → (result.0 ≡ giver) × (result.1 ≡ mark) }
{
    match hold(base, seat) {
        Hold::Served(_, giver, mark) => (giver, mark),
        _ => (none(), 0),
    }
}

/// Appends a deed to a list, if it may come. Fails only if an allocation fails.
fn joins(list: &mut Vec<Deed>, deed: Deed, may: bool) -> Result<(), AllocError>
    ensures { OnOk result (list.new.items ≡ (if may then list.old.items ++ deed ∷ [] else list.old.items)) }
{
    if may {
        list.push(deed)?;
    }
    Ok(())
}

/// The deeds among these that may come next. Fails only if an allocation fails.
fn chosen(
    alloc: Global,
    kind: Kind,
    base: &Base,
    seat: SeatNo,
    ticket: Ticket,
    deeds: &[Deed],
) -> Result<Vec<Deed>, AllocError>
    ensures { IfOk result (λ list. AreChosen (MayCome kind base.now seat ticket) deeds.now list.items) }
{
    let mut list = Vec::new(alloc);
    for deed in deeds {
        let may = may_come(kind, base, seat, ticket, *deed);
        joins(&mut list, *deed, may)?;
    }
    Ok(list)
}

/// The answers of a producer.
fn of_giver(
    alloc: Global,
    kind: Kind,
    base: &Base,
    seat: SeatNo,
    ticket: Ticket,
    mark: u64,
) -> Result<Vec<Deed>, AllocError>
    ensures { IfOk result (λ list. AreAnswers kind base.now seat ticket (Give mark) list.items) }
{
    let (taker, _) = partner_of(kind, base, Side::Giver);
    let deeds = [
        Deed::GiveWaits(mark),
        Deed::GiveFails(mark),
        Deed::GiveKept(mark),
        Deed::EntryInterrupted(Side::Giver),
        Deed::GiveMeets(mark, taker),
    ];
    let list = chosen(alloc, kind, base, seat, ticket, &deeds)?;
    Ok(list)
}

/// The answers of a consumer.
fn of_taker(
    alloc: Global,
    kind: Kind,
    base: &Base,
    seat: SeatNo,
    ticket: Ticket,
) -> Result<Vec<Deed>, AllocError>
    ensures { IfOk result (λ list. AreAnswers kind base.now seat ticket Take list.items) }
{
    let (giver, mark) = partner_of(kind, base, Side::Taker);
    let deeds = [
        Deed::TakeWaits,
        Deed::TakeFails,
        Deed::EntryInterrupted(Side::Taker),
        Deed::TakeMeets(mark, giver),
    ];
    let list = chosen(alloc, kind, base, seat, ticket, &deeds)?;
    Ok(list)
}

/// The completions of a seat's open ticket.
fn of_ending(
    alloc: Global,
    kind: Kind,
    base: &Base,
    seat: SeatNo,
    ticket: Ticket,
) -> Result<Vec<Deed>, AllocError>
    ensures { IfOk result (λ list. AreAnswers kind base.now seat ticket End list.items) }
{
    let (giver, mark) = giver_of(base, seat);
    let deeds = [
        Deed::Done,
        Deed::Withdrawn(Cause::Cancelled),
        Deed::Withdrawn(Cause::Expired),
        Deed::Withdrawn(Cause::Interrupted),
        Deed::Got(mark, giver),
    ];
    let list = chosen(alloc, kind, base, seat, ticket, &deeds)?;
    Ok(list)
}

/// The one record of an interrupt, if it may come.
fn of_interrupt(
    alloc: Global,
    kind: Kind,
    base: &Base,
    seat: SeatNo,
    ticket: Ticket,
    target: SeatNo,
) -> Result<Vec<Deed>, AllocError>
    ensures { IfOk result (λ list. AreAnswers kind base.now seat ticket (Interrupt target) list.items) }
{
    let list = chosen(alloc, kind, base, seat, ticket, &[Deed::Interrupt(target)])?;
    Ok(list)
}

/// Returns each answer to what a seat tries that may come next after a base, as a record with this ticket; and no other
/// deed.
///
/// # Errors
/// - `AllocError`, if an allocation fails.
pub fn answers(
    alloc: Global,
    kind: Kind,
    base: &Base,
    seat: SeatNo,
    ticket: Ticket,
    attempt: Attempt,
) -> Result<Vec<Deed>, AllocError>
    ensures { IfOk result (λ list. AreAnswers kind base.now seat ticket attempt list.items) }
{
    match attempt {
        Attempt::Give(mark) => of_giver(alloc, kind, base, seat, ticket, mark),
        Attempt::Take => of_taker(alloc, kind, base, seat, ticket),
        Attempt::End => of_ending(alloc, kind, base, seat, ticket),
        Attempt::Interrupt(target) => of_interrupt(alloc, kind, base, seat, ticket, target),
    }
}
