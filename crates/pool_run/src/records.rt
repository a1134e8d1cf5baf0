//! The grammar of a pool's trace after its first line: each line is a record.

ghost use Rattle.std.specs.Prelude.{◌≡◌, ◌+◌, IfSome};
ghost use Rattle.pool_run.specs.Records.{bare_deed_of, numbered_deed_of, paired_deed_of, tripled_deed_of};
ghost use Rattle.pool_run.specs.Records.{deed_behind_one, deed_with, deed_of, deed_behind, record_behind, record_in};
ghost use Rattle.pool_run.specs.Records.{pool_record_of, pool_record_at};
ghost use Rattle.pool_run.specs.RecordSpelling.{FitsPoolRecord};

use meet_run::text::grammar::read_seat;
use meet_run::text::reading::LONGEST_LINE;
use meet_run::text::words::{read_number, split_word};
use meet_run::trace::grammar::read_ticket;
use meet_tickets::{MOST_RECORDS, Record, SeatNo, Ticket};
use pool_core::PoolDeed;

/// The deed of a word that stands alone.
#[tactic(auto, unfolding(crate::specs::Records::bare_deed_of))]
fn bare_deed(word: &[u8]) -> Option<PoolDeed<u64>>
    ensures { result ≡ bare_deed_of word.now }
{
    if word == b"waits".as_slice() {
        Some(PoolDeed::Waits)
    } else if word == b"exits".as_slice() {
        Some(PoolDeed::Exits)
    } else if word == b"idle-exit".as_slice() {
        Some(PoolDeed::IdleExit)
    } else if word == b"leaves".as_slice() {
        Some(PoolDeed::Leaves)
    } else if word == b"start-failed".as_slice() {
        Some(PoolDeed::StartFailed)
    } else if word == b"shut-down".as_slice() {
        Some(PoolDeed::ShutDown)
    } else {
        None
    }
}

/// The deed of a word with one number after it: a job, what a job returned, or how many jobs are returned.
#[tactic(auto, unfolding(crate::specs::Records::numbered_deed_of))]
fn numbered_deed(word: &[u8], number: u64) -> Option<PoolDeed<u64>>
    ensures { result ≡ numbered_deed_of word.now number }
{
    if word == b"kept".as_slice() {
        Some(PoolDeed::Kept(number))
    } else if word == b"aborted".as_slice() {
        Some(PoolDeed::Aborted(number))
    } else if word == b"caller-runs".as_slice() {
        Some(PoolDeed::CallerRuns(number))
    } else if word == b"dropped".as_slice() {
        Some(PoolDeed::Dropped(number))
    } else if word == b"finished".as_slice() {
        Some(PoolDeed::Finished(number))
    } else if word == b"shut-down-now".as_slice() {
        Some(PoolDeed::ShutDownNow(number))
    } else {
        None
    }
}

/// The deed of a word with two numbers after it: a worker or a ticket, and a job.
#[tactic(auto, unfolding(crate::specs::Records::paired_deed_of, meet_run::specs::Tracing::TraceGrammar::ticket_in))]
fn paired_deed(word: &[u8], number: u64, job: u64) -> Option<PoolDeed<u64>>
    ensures { result ≡ paired_deed_of word.now number job }
{
    if word == b"handed".as_slice() {
        Some(PoolDeed::Handed(number, job))
    } else if word == b"started".as_slice() {
        Some(PoolDeed::Started(number, job))
    } else if word == b"kept-start".as_slice() {
        Some(PoolDeed::KeptStart(number, job))
    } else if word == b"runs".as_slice() {
        let ticket = Ticket::new(number)?;
        Some(PoolDeed::Runs(ticket, job))
    } else {
        None
    }
}

/// The deed of a word with a ticket and two jobs after it.
#[tactic(auto, unfolding(crate::specs::Records::tripled_deed_of))]
fn tripled_deed(word: &[u8], ticket: Ticket, oldest: u64, job: u64) -> Option<PoolDeed<u64>>
    ensures { result ≡ tripled_deed_of word.now ticket oldest job }
{
    if word == b"dropped-oldest".as_slice() {
        Some(PoolDeed::DroppedOldest(ticket, oldest, job))
    } else {
        None
    }
}

/// The deed of a word and its first number, the next word, and the rest of the line: nothing, or a space and a number.
#[tactic(auto, unfolding(crate::specs::Records::deed_behind_one, meet_run::specs::Tracing::TraceGrammar::ticket_in))]
fn read_deed_behind_one(
    word: &[u8],
    first: u64,
    second: &[u8],
    rest: &[u8],
) -> Option<PoolDeed<u64>>
    ensures { result ≡ deed_behind_one word.now first second.now rest.now }
{
    match rest {
        [] => {
            let job = read_number(second)?;
            paired_deed(word, first, job)
        }
        [_, text @ ..] => {
            let ticket = Ticket::new(first)?;
            let oldest = read_number(second)?;
            let job = read_number(text)?;
            tripled_deed(word, ticket, oldest, job)
        }
    }
}

/// The deed of a word and a number, by the rest of the line.
#[tactic(auto, unfolding(crate::specs::Records::deed_with))]
fn read_deed_with(word: &[u8], first: u64, rest: &[u8]) -> Option<PoolDeed<u64>>
    ensures { result ≡ deed_with word.now first rest.now }
{
    match rest {
        [] => numbered_deed(word, first),
        [_, text @ ..] => {
            let (second, rest) = split_word(text);
            read_deed_behind_one(word, first, second, rest)
        }
    }
}

/// The deed of a word and the rest of its line.
#[tactic(auto, unfolding(crate::specs::Records::deed_of))]
fn read_deed(word: &[u8], rest: &[u8]) -> Option<PoolDeed<u64>>
    ensures { result ≡ deed_of word.now rest.now }
{
    match rest {
        [] => bare_deed(word),
        [_, text @ ..] => {
            let (first, rest) = split_word(text);
            let first = read_number(first)?;
            read_deed_with(word, first, rest)
        }
    }
}

/// The deed after a ticket.
#[tactic(auto, unfolding(crate::specs::Records::deed_behind))]
fn read_deed_behind(rest: &[u8]) -> Option<PoolDeed<u64>>
    ensures { result ≡ deed_behind rest.now }
{
    match rest {
        [] => None,
        [_, text @ ..] => {
            let (word, rest) = split_word(text);
            read_deed(word, rest)
        }
    }
}

/// The record of a seat, by the words after the seat.
#[tactic(auto, unfolding(crate::specs::Records::record_behind))]
fn read_record_of(seat: SeatNo, rest: &[u8]) -> Option<Record<PoolDeed<u64>>>
    ensures { result ≡ record_behind seat rest.now }
{
    match rest {
        [] => None,
        [_, text @ ..] => {
            let (word, rest) = split_word(text);
            let ticket = read_ticket(word)?;
            let deed = read_deed_behind(rest)?;
            Some(Record { seat, ticket, deed })
        }
    }
}

/// The record of a line, however long.
#[tactic(auto, unfolding(crate::specs::Records::record_in))]
fn read_long_record(line: &[u8]) -> Option<Record<PoolDeed<u64>>>
    ensures { result ≡ record_in line.now }
{
    let (word, rest) = split_word(line);
    let seat = read_seat(word)?;
    read_record_of(seat, rest)
}

/// Returns the record of a line of a pool's trace, or None if the line is at fault.
#[tactic(auto, unfolding(crate::specs::Records::pool_record_of))]
pub fn read_record(line: &[u8]) -> Option<Record<PoolDeed<u64>>>
    ensures read { result ≡ pool_record_of line.now }
    ensures fits { IfSome result FitsPoolRecord }
{
    if line.len() > LONGEST_LINE {
        return None;
    }
    read_long_record(line)
}

/// Returns the record of a line after `read` others, a trace's first line and one for each record; or None if the line
/// is at fault, or one too many.
pub fn read_record_behind(read: u64, line: &[u8]) -> Option<Record<PoolDeed<u64>>>
    ensures { result ≡ pool_record_at (read + 1) line.now }
{
    if read > MOST_RECORDS {
        None
    } else {
        read_record(line)
    }
}
