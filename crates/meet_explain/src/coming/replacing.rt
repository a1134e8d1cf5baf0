//! What may come in the place of a record that can't.

ghost use Rattle.std.specs.Prelude.{◌≡◌, ℕ, ◌<◌, ◌≤◌, ◌⊎◌, true, IfOk, IfSome};
ghost use Rattle.meet_tickets.specs.Bases.{moment_of_base};
ghost use Rattle.meet_tickets.specs.BySeat.{cut_ticket, is_open, is_request, open_ticket};
ghost use Rattle.meet_tickets.specs.Limits.{last_ticket};
ghost use Rattle.meet_tickets.specs.declared.places.Kind.{Kind};
ghost use Rattle.meet_explain.specs.Answers.{Answers, IsBest, IsInstead, IsNew, NewFor, attempt_instead};
ghost use Rattle.meet_explain.specs.declared.coming.attempts.Attempt.TheVariants.{End};

use crate::coming::answering::answers;
use crate::coming::attempts::Attempt;
use crate::coming::holding::{cut_by, hold};
use meet_tickets::{Base, Deed, Kind, Record, SeatNo, Ticket};
use std::alloc::{AllocError, Global};

/// What may come in the place of a record: with this ticket, each of these deeds.
#[derive(Debug, Drop)]
pub struct Instead {
    /// The ticket.
    pub ticket: Ticket,
    /// The deeds.
    pub deeds: Vec<Deed>,
}

/// A ticket that is new after a base: this one if it is new, and also if there is none.
fn new_ticket(base: &Base, ticket: Ticket) -> Ticket
    ensures new { (t : ℕ) → t ≤ last_ticket → base.now.last < t → base.now.last < result }
    ensures is { IsNew base.now.last ticket result }
{
    if base.last.number() < ticket.number() {
        return ticket;
    }
    match base.last.number().checked_add(1) {
        Some(next) => Ticket::new(next).unwrap_or(ticket),
        None => ticket,
    }
}

/// The ticket that an interrupt of a seat ends after a base, or 0.
fn cut_ticket(base: &Base, target: SeatNo, ticket: Ticket) -> Ticket
    ensures { cut_ticket (moment_of_base base.now).seats target ≤ last_ticket
        → result ≡ cut_ticket (moment_of_base base.now).seats target }
{
    Ticket::new(cut_by(base, target)).unwrap_or(ticket)
}

/// The ticket that a seat has open after a base; this one if it has none.
fn open_ticket(base: &Base, seat: SeatNo, ticket: Ticket) -> Ticket
    ensures { IfSome (open_ticket ((moment_of_base base.now).seats.holds seat)) (λ own. result ≡ own) }
{
    hold(base, seat).open_ticket().unwrap_or(ticket)
}

/// The ticket with which a seat may answer what it tries: its open one; the one that an interrupt ends, or 0; or a new
/// one.
fn ticket_for(base: &Base, seat: SeatNo, attempt: &Attempt, ticket: Ticket) -> Ticket
    ensures best { (k : Kind) → IsBest k base.now seat attempt.now result }
    ensures new { NewFor attempt.now base.now.last ticket result }
{
    match attempt {
        Attempt::Give(_) => new_ticket(base, ticket),
        Attempt::Take => new_ticket(base, ticket),
        Attempt::End => open_ticket(base, seat, ticket),
        Attempt::Interrupt(target) => cut_ticket(base, *target, ticket),
    }
}

/// What a seat may try in the place of this deed: a seat whose ticket is open may make no request, and may complete it.
fn attempt_for(deed: &Deed, is_open: bool) -> Attempt
    ensures tried { Answers result deed.now ⊎ ((result ≡ End) × (is_open ≡ true)) }
    ensures ends { is_open ≡ true → is_request deed.now ≡ true → result ≡ End }
    ensures is { result ≡ attempt_instead deed.now is_open }
{
    if is_open && deed.is_request() {
        return Attempt::End;
    }
    Attempt::of(*deed)
}

/// Returns what may come in the place of a record that can't, after a base: each answer to what its seat tried, with
/// the ticket that it may have. If the seat makes a request while its ticket is open, it is each completion of that
/// ticket. If a seat that has none open completes a ticket, there is no deed.
///
/// # Errors
/// - `AllocError`, if an allocation fails.
///
/// # Example
/// From `crates/meet_explain/src/explaining.rt`:
///
///     let instead = comes_instead(alloc, kind, base, *entry)?;
pub fn comes_instead(
    alloc: Global,
    kind: Kind,
    base: &Base,
    entry: Record<Deed>,
) -> Result<Instead, AllocError>
    ensures { IfOk result (λ instead. IsInstead kind base.now entry instead) }
{
    let Record { seat, ticket, deed } = entry;
    let attempt = attempt_for(&deed, hold(base, seat).is_open());
    let ticket = ticket_for(base, seat, &attempt, ticket);
    let deeds = answers(alloc, kind, base, seat, ticket, attempt)?;
    Ok(Instead { ticket, deeds })
}
