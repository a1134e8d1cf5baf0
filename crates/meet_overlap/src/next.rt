//! A call's next record, where the place is known.

ghost use Rattle.std.specs.Prelude.{◌≡◌, ◌<◌, IfSome};
ghost use Rattle.meet_tickets.specs.BySeat.{open_ticket};
ghost use Rattle.meet_overlap.specs.Places.{scene};
ghost use Rattle.meet_overlap.specs.Search.{may_keep, giving, taking, giving_alone, taking_alone, request_of, expiry};
ghost use Rattle.meet_overlap.specs.Search.{giver_ending, taker_ending, ending_of, is_held, deed_of, request_ticket};
ghost use Rattle.meet_overlap.specs.Search.{ticket_of};

use crate::calls::{Answer, Call, Patience, Stage, Verb};
use crate::line::Line;
use crate::making::entry_held;
use crate::place::{Place, flag, hold, partner};
use meet_tickets::{Cause, Deed, Entry, Hold, Kind, Side, Ticket};

/// Whether an item may be kept.
fn keeps(kind: Kind, line: &[Entry<u64>]) -> bool
    ensures { result ≡ may_keep kind line.now }
{
    kind.may_keep(line)
}

/// A giver of this mark meets this entry, if that is a taker.
fn gives(mark: u64, met: &Entry<u64>) -> Option<Deed>
    ensures { result ≡ giving mark met.now }
{
    match met.item {
        Some(_) => None,
        None => Some(Deed::GiveMeets(mark, met.ticket)),
    }
}

/// A taker meets this entry, if that is a giver.
fn takes(met: &Entry<u64>) -> Option<Deed>
    ensures { result ≡ taking met.now }
{
    match met.item {
        Some(mark) => Some(Deed::TakeMeets(mark, met.ticket)),
        None => None,
    }
}

/// What a giver does that finds nobody.
fn gives_alone(kind: Kind, line: &[Entry<u64>], flag: bool, verb: Verb) -> Option<Deed>
    ensures { result ≡ giving_alone kind line.now flag verb }
{
    match verb {
        Verb::Keep(mark) => {
            if keeps(kind, line) {
                Some(Deed::GiveKept(mark))
            } else {
                Some(Deed::GiveFails(mark))
            }
        }
        Verb::Give(Patience::Now, mark) => Some(Deed::GiveFails(mark)),
        Verb::Give(Patience::Forever, mark) => Some(if flag {
            Deed::EntryInterrupted(Side::Giver)
        } else {
            Deed::GiveWaits(mark)
        }),
        Verb::Give(Patience::Timed, mark) => Some(if flag {
            Deed::EntryInterrupted(Side::Giver)
        } else {
            Deed::GiveWaits(mark)
        }),
        Verb::Take(_) => None,
        Verb::Interrupt(_) => None,
    }
}

/// What a taker does that finds nobody.
fn takes_alone(flag: bool, patience: Patience) -> Option<Deed>
    ensures { result ≡ taking_alone flag patience }
{
    match patience {
        Patience::Now => Some(Deed::TakeFails),
        Patience::Forever => Some(if flag {
            Deed::EntryInterrupted(Side::Taker)
        } else {
            Deed::TakeWaits
        }),
        Patience::Timed => Some(if flag {
            Deed::EntryInterrupted(Side::Taker)
        } else {
            Deed::TakeWaits
        }),
    }
}

/// A call's first deed.
fn request(kind: Kind, place: &Place, call: &Call) -> Option<Deed>
    ensures { result ≡ request_of kind (scene place.now).seats call.now.seat call.now.verb }
{
    if let Verb::Interrupt(target) = call.verb {
        return Some(Deed::Interrupt(target));
    }
    let held = hold(&place.holds, call.seat);
    if held.is_open() {
        return None;
    }
    let flag = flag(&place.flags, call.seat);
    match call.verb {
        Verb::Keep(mark) => match partner(kind, place.line.as_slice(), Side::Giver) {
            Some(met) => gives(mark, &met),
            None => gives_alone(kind, place.line.as_slice(), flag, call.verb),
        },
        Verb::Give(_, mark) => match partner(kind, place.line.as_slice(), Side::Giver) {
            Some(met) => gives(mark, &met),
            None => gives_alone(kind, place.line.as_slice(), flag, call.verb),
        },
        Verb::Take(patience) => match partner(kind, place.line.as_slice(), Side::Taker) {
            Some(met) => takes(&met),
            None => takes_alone(flag, patience),
        },
        Verb::Interrupt(target) => Some(Deed::Interrupt(target)),
    }
}

/// A waiting ticket's time runs out, where it stands in the line.
fn runs_out(line: &Line, patience: Patience, ticket: Ticket) -> Option<Deed>
    ensures { result ≡ expiry line.now patience ticket }
{
    match patience {
        Patience::Now => None,
        Patience::Forever => None,
        Patience::Timed => {
            if line.entry(ticket).is_some() {
                Some(Deed::Withdrawn(Cause::Expired))
            } else {
                None
            }
        }
    }
}

/// How a giver's ticket ends.
fn giver_ends(line: &Line, patience: Patience, held: &Hold<u64>) -> Option<Deed>
    ensures { result ≡ giver_ending line.now patience held.now }
{
    match held {
        Hold::Free => None,
        Hold::Waiting(ticket) => runs_out(line, patience, *ticket),
        Hold::Handed(_, _, _) => Some(Deed::Done),
        Hold::Served(_, _, _) => None,
        Hold::Cut(_, _) => Some(Deed::Withdrawn(Cause::Interrupted)),
    }
}

/// How a taker's ticket ends.
fn taker_ends(line: &Line, patience: Patience, held: &Hold<u64>) -> Option<Deed>
    ensures { result ≡ taker_ending line.now patience held.now }
{
    match held {
        Hold::Free => None,
        Hold::Waiting(ticket) => runs_out(line, patience, *ticket),
        Hold::Handed(_, _, _) => None,
        Hold::Served(_, with, item) => Some(Deed::Got(*item, *with)),
        Hold::Cut(_, _) => Some(Deed::Withdrawn(Cause::Interrupted)),
    }
}

/// How the ticket that a seat holds ends.
pub(crate) fn ends(line: &Line, verb: Verb, held: &Hold<u64>) -> Option<Deed>
    ensures { result ≡ ending_of line.now verb held.now }
{
    match verb {
        Verb::Keep(_) => None,
        Verb::Give(patience, _) => giver_ends(line, patience, held),
        Verb::Take(patience) => taker_ends(line, patience, held),
        Verb::Interrupt(_) => None,
    }
}

/// Whether this ticket is the one that a seat holds.
fn holds(ticket: Ticket, held: &Hold<u64>) -> bool
    ensures { result ≡ is_held ticket held.now }
{
    match held.open_ticket() {
        Some(open) => open == ticket,
        None => false,
    }
}

/// The next deed of a call that is so far.
pub(crate) fn deed(kind: Kind, place: &Place, call: &Call, stage: &Stage) -> Option<Deed>
    ensures { result ≡ deed_of kind (scene place.now).seats call.now stage.now }
{
    match stage {
        Stage::Ahead => request(kind, place, call),
        Stage::Open(ticket) => {
            let held = hold(&place.holds, call.seat);
            if holds(*ticket, &held) {
                ends(&place.line, call.verb, &held)
            } else {
                None
            }
        }
        Stage::Over => None,
    }
}

/// The ticket of a request, if there is one left.
fn first_ticket(place: &Place, verb: Verb) -> Option<Ticket>
    ensures { IfSome result (λ ticket. ticket ≡ request_ticket (scene place.now) verb) }
{
    if let Verb::Interrupt(target) = verb {
        return match entry_held(place, target) {
            Some(cut) => Some(cut.ticket),
            None => Ticket::new(0),
        };
    }
    if place.last == u64::MAX {
        return None;
    }
    Ticket::new(place.last + 1)
}

/// The ticket of the next record of a call that is so far, if there is one left.
pub(crate) fn ticket(place: &Place, verb: Verb, stage: &Stage) -> Option<Ticket>
    ensures { IfSome result (λ ticket. ticket ≡ ticket_of (scene place.now) verb stage.now) }
{
    match stage {
        Stage::Ahead => first_ticket(place, verb),
        Stage::Open(ticket) => Some(*ticket),
        Stage::Over => Ticket::new(0),
    }
}
