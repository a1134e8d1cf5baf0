//! What records state of one ticket, record by record.

ghost use Rattle.std.specs.Prelude.{◌≡◌, ℕ, ◌+◌, ◌==◌, ◌&&◌, None, is_some, List, [], ◌∷◌, ◌++◌, length};
ghost use Rattle.meet_tickets.specs.declared.records.Deed.{Deed};
ghost use Rattle.meet_tickets.specs.declared.records.Record.{Record};
ghost use Rattle.meet_tickets.specs.Fates.{tells_of_meeting};
ghost use Rattle.meet_sum.specs.Stories.{asks_for, takes_out, at_once, asked_by, story_in};

use meet_tickets::{Cause, Deed, Record, SeatNo, Ticket};

/// The immediate result of a request.
#[derive(Clone, Copy, PartialEq, Eq, Debug)]
pub enum AtOnce {
    /// It waits in the wait queue, and its ticket is open.
    Waits,
    /// Its item is buffered, and its producer goes on.
    IsKept,
    /// It met a counterpart that stood there.
    Meets,
    /// It found no counterpart, and didn't wait.
    Fails,
    /// It was refused at its entry.
    Refused,
}

/// A ticket's request.
#[derive(Clone, Copy, PartialEq, Eq, Debug)]
pub struct Asked {
    /// The seat that made it.
    pub seat: SeatNo,
    /// Its ticket.
    pub ticket: Ticket,
    /// Its immediate result.
    pub how: AtOnce,
}

/// What records state of one ticket.
#[derive(Clone, Copy, PartialEq, Eq, Debug)]
pub struct Story {
    /// Its request.
    pub asked: Option<Asked>,
    /// The number of the request's record.
    pub came: Option<u64>,
    /// Whether another request names it.
    pub met: bool,
    /// Whether it is completed as matched.
    pub learned: bool,
    /// Why it was withdrawn.
    pub back: Option<Cause>,
    /// Whether it was interrupted in the wait queue.
    pub cut: bool,
    /// The number of the record that took it out of the wait queue.
    pub went: Option<u64>,
}

/// What no record states.
pub(crate) fn untold(asked: Option<Asked>) -> Story
    requires { asked ≡ None }
    ensures { (ticket : ℕ) → result ≡ story_in [] ticket }
{
    Story {
        asked,
        came: None,
        met: false,
        learned: false,
        back: None,
        cut: false,
        went: None,
    }
}

/// The immediate result of a request.
fn at_once(deed: &Deed) -> AtOnce
    ensures { result ≡ at_once deed.now }
{
    match deed {
        Deed::GiveWaits(_) => AtOnce::Waits,
        Deed::GiveMeets(_, _) => AtOnce::Meets,
        Deed::GiveFails(_) => AtOnce::Fails,
        Deed::GiveKept(_) => AtOnce::IsKept,
        Deed::TakeWaits => AtOnce::Waits,
        Deed::TakeMeets(_, _) => AtOnce::Meets,
        Deed::TakeFails => AtOnce::Fails,
        _ => AtOnce::Refused,
    }
}

/// What a request's record states of it.
fn asked_by(entry: &Record<Deed>) -> Asked
    ensures { result ≡ asked_by entry.now }
{
    Asked {
        seat: entry.seat,
        ticket: entry.ticket,
        how: at_once(&entry.deed),
    }
}

/// Whether a record is the request of this ticket.
fn asks_for(entry: &Record<Deed>, ticket: Ticket) -> bool
    ensures { result ≡ asks_for ticket entry.now }
{
    entry.deed.is_request() && entry.ticket == ticket
}

/// Whether a record completes this ticket as matched.
fn tells(entry: &Record<Deed>, ticket: Ticket) -> bool
    ensures { result ≡ (tells_of_meeting entry.now.deed && (entry.now.ticket == ticket)) }
{
    entry.deed.tells_of_meeting() && entry.ticket == ticket
}

/// Whether a record takes this ticket out of the wait queue.
fn takes_out(entry: &Record<Deed>, ticket: Ticket) -> bool
    ensures { result ≡ takes_out ticket entry.now }
{
    entry.meets(ticket) || entry.takes_back(ticket).is_some() || entry.cuts(ticket)
}

/// The story of a ticket after the record of this number too.
pub(crate) fn hear(story: Story, ticket: Ticket, entry: &Record<Deed>, number: u64) -> Story
    ensures { (history : List (Record Deed)) → story ≡ story_in history ticket → number ≡ 1 + length history
        → result ≡ story_in (history ++ entry.now ∷ []) ticket }
{
    let asks = asks_for(entry, ticket);
    let meets = entry.meets(ticket);
    let leaves = takes_out(entry, ticket);
    Story {
        asked: story.asked.or(asks.then_some(asked_by(entry))),
        came: story.came.or(asks.then_some(number)),
        met: story.met | meets,
        learned: story.learned | tells(entry, ticket),
        back: story.back.or(entry.takes_back(ticket)),
        cut: story.cut | entry.cuts(ticket),
        went: story.went.or(leaves.then_some(number)),
    }
}
