//! What records state of many tickets: a story for each.

ghost use Rattle.std.specs.Prelude.{◌≡◌, ◌≢◌, ℕ, ◌+◌, ◌<◌, ◌^◌, List, [], ◌∷◌, ◌++◌, length, map, IfOk, OnOk, IsTrue};
ghost use Rattle.std.specs.Prelude.{MatchOption};
ghost use Rattle.std.specs.Prelude.{slice_index, vec_len};
ghost use Rattle.std.specs.List.Sorted.{IsStrictlyIncreasing};
ghost use Rattle.meet_tickets.specs.declared.records.Deed.{Deed};
ghost use Rattle.meet_tickets.specs.declared.records.Record.{Record};
ghost use Rattle.meet_tickets.specs.BySeat.{put_at};
ghost use Rattle.meet_sum.specs.declared.stories.Story.{Story};
ghost use Rattle.meet_sum.specs.Stories.{story_in};

use crate::stories::{Asked, Story, hear, untold};
use meet_tickets::{Deed, Record, Ticket};
use std::alloc::{AllocError, Global};

/// Appends a story that states nothing.
fn push_untold(stories: &mut Vec<Story>) -> Result<(), AllocError>
    ensures { OnOk result ((ticket : ℕ) → stories.new.items ≡ stories.old.items ++ story_in [] ticket ∷ []) }
{
    let nothing: Option<Asked> = None;
    stories.push(untold(nothing))?;
    Ok(())
}

/// The stories of these tickets, of which nothing is stated.
pub(crate) fn untold_all(alloc: Global, tickets: &[u64]) -> Result<Vec<Story>, AllocError>
    ensures { IfOk result (λ stories. stories.items ≡ map (story_in []) tickets.now) }
{
    let mut stories = Vec::with_capacity(alloc, tickets.len())?;
    for _ticket in tickets {
        push_untold(&mut stories)?;
    }
    Ok(stories)
}

/// Where a ticket stands, if those from it on follow one another without a gap.
fn likely_place(tickets: &[u64], ticket: u64) -> usize {
    match tickets.last() {
        None => 0,
        Some(last) => tickets
            .len()
            .saturating_sub(1)
            .saturating_sub(last.saturating_sub(ticket) as usize),
    }
}

/// Whether a ticket stands at this place.
fn is_at(tickets: &[u64], place: usize, ticket: u64) -> bool
    ensures { IsTrue result → (place < length tickets.now) × (slice_index tickets.now place ≡ ticket) }
{
    place < tickets.len() && tickets[place] == ticket
}

/// Where a ticket stands among these, if it does.
fn place_of(tickets: &[u64], ticket: u64) -> Option<usize>
    requires { IsStrictlyIncreasing tickets.now }
    ensures { MatchOption result
        ((k : ℕ) → k < length tickets.now → slice_index tickets.now k ≢ ticket)
        (λ place. (place < length tickets.now) × (slice_index tickets.now place ≡ ticket)) }
{
    let likely = likely_place(tickets, ticket);
    if is_at(tickets, likely, ticket) {
        return Some(likely);
    }
    match tickets.binary_search(&ticket) {
        Ok(place) => Some(place),
        Err(_) => None,
    }
}

/// Has one ticket hear the record of this number, if it is among these.
fn tell(
    tickets: &[u64],
    stories: &mut Vec<Story>,
    ticket: Ticket,
    entry: &Record<Deed>,
    number: u64,
)
    requires rising { IsStrictlyIncreasing tickets.now }
    requires every { vec_len stories.old ≡ length tickets.now }
    ensures every { vec_len stories.new ≡ length tickets.now }
    ensures told { (f : ℕ → Story) (history : List (Record Deed)) → stories.old.items ≡ map f tickets.now
        → f ticket ≡ story_in history ticket → number ≡ 1 + length history
        → stories.new.items ≡ map (put_at f ticket (story_in (history ++ entry.now ∷ []) ticket)) tickets.now }
{
    match place_of(tickets, ticket.number()) {
        None => {}
        Some(place) => {
            let story = stories[place];
            stories[place] = hear(story, ticket, entry, number);
        }
    }
}

/// Has all tickets hear the record of this number: it concerns its own ticket, and the one that it names.
fn tell_all(tickets: &[u64], stories: &mut Vec<Story>, entry: &Record<Deed>, number: u64)
    requires rising { IsStrictlyIncreasing tickets.now }
    requires every { vec_len stories.old ≡ length tickets.now }
    ensures every { vec_len stories.new ≡ length tickets.now }
    ensures told { (history : List (Record Deed)) → stories.old.items ≡ map (story_in history) tickets.now
        → number ≡ 1 + length history
        → stories.new.items ≡ map (story_in (history ++ entry.now ∷ [])) tickets.now }
{
    tell(tickets, stories, entry.ticket, entry, number);
    match entry.deed.partner() {
        None => {}
        Some(partner) => {
            if partner == entry.ticket {
                return;
            }
            tell(tickets, stories, partner, entry, number);
        }
    }
}

/// Has all tickets hear these records, after `before` others.
pub(crate) fn hear_all(
    tickets: &[u64],
    stories: &mut Vec<Story>,
    records: &[Record<Deed>],
    before: u64,
)
    requires rising { IsStrictlyIncreasing tickets.now }
    requires every { vec_len stories.old ≡ length tickets.now }
    requires few { before + length records.now < 2 ^ 64 }
    ensures every { vec_len stories.new ≡ length tickets.now }
    ensures told { (history : List (Record Deed)) → stories.old.items ≡ map (story_in history) tickets.now
        → before ≡ length history
        → stories.new.items ≡ map (story_in (history ++ records.now)) tickets.now }
{
    let mut number = before;
    for entry in records {
        number += 1;
        tell_all(tickets, stories, entry, number);
    }
}
