//! The grammar of a trace's lines: its first line names the place, each further one a record.

ghost use Rattle.std.specs.Prelude.{◌≡◌, IfSome};
ghost use Rattle.meet_run.specs.Tracing.TraceSpelling.{FitsRecord, FitsHead};
ghost use Rattle.meet_run.specs.Tracing.TraceGrammar.{ticket_of, side_of, cause_of, bare_deed_of, marked_deed_of};
ghost use Rattle.meet_run.specs.Tracing.TraceGrammar.{worded_deed_of, paired_deed_of, deed_with, deed_of, deed_behind};
ghost use Rattle.meet_run.specs.Tracing.TraceGrammar.{record_behind, record_in, record_of, kind_at_end, kind_in};
ghost use Rattle.meet_run.specs.Tracing.TraceGrammar.{head_in};
ghost use Rattle.meet_run.specs.Tracing.TraceGrammar.{head_of};

use crate::text::grammar::{may_have_bound, read_option, read_order, read_seat};
use crate::text::reading::LONGEST_LINE;
use crate::text::words::{behind_prefix, read_number, split_word};
use meet_tickets::{Cause, Deed, Kind, MOST_KEPT, Order, Record, SeatNo, Side, Ticket};

/// Returns the ticket of a word.
#[tactic(auto, unfolding(crate::specs::Tracing::TraceGrammar::ticket_of, crate::specs::Tracing::TraceGrammar::ticket_in))]
pub fn read_ticket(word: &[u8]) -> Option<Ticket>
    ensures { result ≡ ticket_of word.now }
{
    let number = read_number(word)?;
    Ticket::new(number)
}

/// A side by its word.
#[tactic(auto, unfolding(crate::specs::Tracing::TraceGrammar::side_of))]
pub(crate) fn read_side(word: &[u8]) -> Option<Side>
    ensures { result ≡ side_of word.now }
{
    if word == b"give".as_slice() {
        Some(Side::Giver)
    } else if word == b"take".as_slice() {
        Some(Side::Taker)
    } else {
        None
    }
}

/// Why a ticket was withdrawn, by its word.
#[tactic(auto, unfolding(crate::specs::Tracing::TraceGrammar::cause_of))]
fn read_cause(word: &[u8]) -> Option<Cause>
    ensures { result ≡ cause_of word.now }
{
    if word == b"cancelled".as_slice() {
        Some(Cause::Cancelled)
    } else if word == b"expired".as_slice() {
        Some(Cause::Expired)
    } else if word == b"interrupted".as_slice() {
        Some(Cause::Interrupted)
    } else {
        None
    }
}

/// The deed of a word that stands alone.
#[tactic(auto, unfolding(crate::specs::Tracing::TraceGrammar::bare_deed_of))]
fn bare_deed(word: &[u8]) -> Option<Deed>
    ensures { result ≡ bare_deed_of word.now }
{
    if word == b"take-waits".as_slice() {
        Some(Deed::TakeWaits)
    } else if word == b"take-fails".as_slice() {
        Some(Deed::TakeFails)
    } else if word == b"done".as_slice() {
        Some(Deed::Done)
    } else {
        None
    }
}

/// The deed of a word with a mark behind it.
#[tactic(auto, unfolding(crate::specs::Tracing::TraceGrammar::marked_deed_of))]
fn marked_deed(word: &[u8], mark: u64) -> Option<Deed>
    ensures { result ≡ marked_deed_of word.now mark }
{
    if word == b"give-waits".as_slice() {
        Some(Deed::GiveWaits(mark))
    } else if word == b"give-fails".as_slice() {
        Some(Deed::GiveFails(mark))
    } else if word == b"give-kept".as_slice() {
        Some(Deed::GiveKept(mark))
    } else {
        None
    }
}

/// The deed of a word with one word behind it: a side, a cause, a seat or a mark.
#[tactic(auto, unfolding(crate::specs::Tracing::TraceGrammar::worded_deed_of))]
fn read_worded_deed(word: &[u8], value: &[u8]) -> Option<Deed>
    ensures { result ≡ worded_deed_of word.now value.now }
{
    if word == b"entry-interrupted".as_slice() {
        let side = read_side(value)?;
        Some(Deed::EntryInterrupted(side))
    } else if word == b"withdrawn".as_slice() {
        let cause = read_cause(value)?;
        Some(Deed::Withdrawn(cause))
    } else if word == b"interrupt".as_slice() {
        let target = read_seat(value)?;
        Some(Deed::Interrupt(target))
    } else {
        let mark = read_number(value)?;
        marked_deed(word, mark)
    }
}

/// The deed of a word with a mark and a partner's ticket behind it.
#[tactic(auto, unfolding(crate::specs::Tracing::TraceGrammar::paired_deed_of))]
fn paired_deed(word: &[u8], mark: u64, partner: Ticket) -> Option<Deed>
    ensures { result ≡ paired_deed_of word.now mark partner }
{
    if word == b"give-meets".as_slice() {
        Some(Deed::GiveMeets(mark, partner))
    } else if word == b"take-meets".as_slice() {
        Some(Deed::TakeMeets(mark, partner))
    } else if word == b"got".as_slice() {
        Some(Deed::Got(mark, partner))
    } else {
        None
    }
}

/// The deed of a word, the word behind it, and the rest of the line: nothing, or a space and a ticket.
#[tactic(auto, unfolding(crate::specs::Tracing::TraceGrammar::deed_with))]
fn read_deed_with(word: &[u8], value: &[u8], rest: &[u8]) -> Option<Deed>
    ensures { result ≡ deed_with word.now value.now rest.now }
{
    match rest {
        [] => read_worded_deed(word, value),
        [_, text @ ..] => {
            let mark = read_number(value)?;
            let partner = read_ticket(text)?;
            paired_deed(word, mark, partner)
        }
    }
}

/// The deed of a word and the rest of its line.
#[tactic(auto, unfolding(crate::specs::Tracing::TraceGrammar::deed_of))]
fn read_deed(word: &[u8], rest: &[u8]) -> Option<Deed>
    ensures { result ≡ deed_of word.now rest.now }
{
    match rest {
        [] => bare_deed(word),
        [_, text @ ..] => {
            let (value, rest) = split_word(text);
            read_deed_with(word, value, rest)
        }
    }
}

/// The deed behind a ticket.
#[tactic(auto, unfolding(crate::specs::Tracing::TraceGrammar::deed_behind))]
fn read_deed_behind(rest: &[u8]) -> Option<Deed>
    ensures { result ≡ deed_behind rest.now }
{
    match rest {
        [] => None,
        [_, text @ ..] => {
            let (word, rest) = split_word(text);
            read_deed(word, rest)
        }
    }
}

/// The record of a seat, by what stands behind the seat.
#[tactic(auto, unfolding(crate::specs::Tracing::TraceGrammar::record_behind))]
fn read_record_behind(seat: SeatNo, rest: &[u8]) -> Option<Record<Deed>>
    ensures { result ≡ record_behind seat rest.now }
{
    match rest {
        [] => None,
        [_, text @ ..] => {
            let (word, rest) = split_word(text);
            let ticket = read_ticket(word)?;
            let deed = read_deed_behind(rest)?;
            Some(Record { seat, ticket, deed })
        }
    }
}

/// The record of a line, however long.
#[tactic(auto, unfolding(crate::specs::Tracing::TraceGrammar::record_in))]
fn read_any_record(line: &[u8]) -> Option<Record<Deed>>
    ensures { result ≡ record_in line.now }
{
    let (word, rest) = split_word(line);
    let seat = read_seat(word)?;
    read_record_behind(seat, rest)
}

/// Returns the record of a line of a trace, or None if the line is at fault.
#[tactic(auto, unfolding(crate::specs::Tracing::TraceGrammar::record_of))]
pub fn read_record(line: &[u8]) -> Option<Record<Deed>>
    ensures read { result ≡ record_of line.now }
    ensures fits { IfSome result FitsRecord }
{
    if line.len() > LONGEST_LINE {
        return None;
    }
    read_any_record(line)
}

/// The kind of a place, where nothing is left of the line, and the place may have that bound.
#[tactic(auto, unfolding(crate::specs::Tracing::TraceGrammar::kind_at_end))]
fn finish_kind(order: Order, bound: Option<u64>, rest: &[u8]) -> Option<Kind>
    ensures { result ≡ kind_at_end order bound rest.now }
{
    if !rest.is_empty() || !may_have_bound(order, bound) {
        return None;
    }
    Some(Kind { order, bound })
}

/// Returns a kind of place: its word, and its bound if it is spelled out.
#[tactic(auto, unfolding(crate::specs::Tracing::TraceGrammar::kind_in))]
pub fn read_kind(text: &[u8]) -> Option<Kind>
    ensures { result ≡ kind_in text.now }
{
    let (word, rest) = split_word(text);
    let order = read_order(word)?;
    let (bound, rest) = read_option(b" bound ", MOST_KEPT, rest)?;
    finish_kind(order, bound, rest)
}

/// The kind of place that a trace's first line names, however long.
#[tactic(auto, unfolding(crate::specs::Tracing::TraceGrammar::head_in))]
fn read_long_head(line: &[u8]) -> Option<Kind>
    ensures { result ≡ head_in line.now }
{
    let text = behind_prefix(b"trace 1 ", line)?;
    read_kind(text)
}

/// The kind of place of a trace's first line, or none where the line is at fault.
#[tactic(auto, unfolding(crate::specs::Tracing::TraceGrammar::head_of))]
pub(crate) fn read_head(line: &[u8]) -> Option<Kind>
    ensures read { result ≡ head_of line.now }
    ensures fits { IfSome result FitsHead }
{
    if line.len() > LONGEST_LINE {
        return None;
    }
    read_long_head(line)
}
