//! The grammar of a base's lines in a trace.

ghost use Rattle.std.specs.Prelude.{◌≡◌};
ghost use Rattle.meet_run.specs.Tracing.BaseGrammar.{waits_of, giver_entry, entry_of_line, pair_of_line, pair_behind};
ghost use Rattle.meet_run.specs.Tracing.BaseGrammar.{cut_of_line};
ghost use Rattle.meet_run.specs.Tracing.BaseGrammar.{ticketed_piece, piece_with_ticket, piece_with_seat, piece_behind};
ghost use Rattle.meet_run.specs.Tracing.BaseGrammar.{piece_of};
ghost use Rattle.meet_run.specs.Tracing.BaseGrammar.{numbers_in, numbers_of, based_head_of};

use crate::text::grammar::read_seat;
use crate::text::reading::LONGEST_LINE;
use crate::text::words::{behind_prefix, read_number, split_word};
use crate::trace::grammar::{read_kind, read_side, read_ticket};
use meet_history::Piece;
use meet_tickets::{Entry, Kind, OpenCut, OpenPair, SeatNo, Ticket};

/// Whether an entry waits, by its word.
#[tactic(auto, unfolding(crate::specs::Tracing::BaseGrammar::waits_of))]
fn read_waits(word: &[u8]) -> Option<bool>
    ensures { result ≡ waits_of word.now }
{
    if word == b"waits".as_slice() {
        Some(true)
    } else if word == b"kept".as_slice() {
        Some(false)
    } else {
        None
    }
}

/// A giver's entry, by its mark and the rest.
#[tactic(auto, unfolding(crate::specs::Tracing::BaseGrammar::giver_entry))]
fn read_giver(seat: SeatNo, ticket: Ticket, mark: &[u8], rest: &[u8]) -> Option<Entry<u64>>
    ensures { result ≡ giver_entry seat ticket mark.now rest.now }
{
    match rest {
        [] => None,
        [_, word @ ..] => {
            let mark = read_number(mark)?;
            let waits = read_waits(word)?;
            Some(Entry {
                ticket,
                seat,
                item: Some(mark),
                waits,
            })
        }
    }
}

/// An entry of the line, by its side's word and the rest.
#[tactic(auto, unfolding(crate::specs::Tracing::BaseGrammar::entry_of_line))]
fn read_entry(seat: SeatNo, ticket: Ticket, word: &[u8], rest: &[u8]) -> Option<Entry<u64>>
    ensures { result ≡ entry_of_line seat ticket word.now rest.now }
{
    match rest {
        [] => {
            if word == b"take".as_slice() {
                Some(Entry {
                    ticket,
                    seat,
                    item: None,
                    waits: true,
                })
            } else {
                None
            }
        }
        [_, text @ ..] => {
            if word == b"give".as_slice() {
                let (mark, rest) = split_word(text);
                read_giver(seat, ticket, mark, rest)
            } else {
                None
            }
        }
    }
}

/// One that was met, by its side's word, its partner's word and the rest.
#[tactic(auto, unfolding(crate::specs::Tracing::BaseGrammar::pair_of_line))]
fn read_pair(
    seat: SeatNo,
    ticket: Ticket,
    word: &[u8],
    partner: &[u8],
    rest: &[u8],
) -> Option<OpenPair>
    ensures { result ≡ pair_of_line seat ticket word.now partner.now rest.now }
{
    match rest {
        [] => None,
        [_, mark @ ..] => {
            let side = read_side(word)?;
            let partner = read_ticket(partner)?;
            let mark = read_number(mark)?;
            Some(OpenPair {
                ticket,
                seat,
                side,
                partner,
                mark,
            })
        }
    }
}

/// One that was met, by its side's word and the rest.
#[tactic(auto, unfolding(crate::specs::Tracing::BaseGrammar::pair_behind))]
fn read_pair_behind(seat: SeatNo, ticket: Ticket, word: &[u8], rest: &[u8]) -> Option<OpenPair>
    ensures { result ≡ pair_behind seat ticket word.now rest.now }
{
    match rest {
        [] => None,
        [_, text @ ..] => {
            let (partner, rest) = split_word(text);
            read_pair(seat, ticket, word, partner, rest)
        }
    }
}

/// One that was cut, by its side's word and the rest.
#[tactic(auto, unfolding(crate::specs::Tracing::BaseGrammar::cut_of_line))]
fn read_cut(seat: SeatNo, ticket: Ticket, word: &[u8], rest: &[u8]) -> Option<OpenCut>
    ensures { result ≡ cut_of_line seat ticket word.now rest.now }
{
    match rest {
        [] => {
            if word == b"take".as_slice() {
                Some(OpenCut {
                    ticket,
                    seat,
                    item: None,
                })
            } else {
                None
            }
        }
        [_, mark @ ..] => {
            if word == b"give".as_slice() {
                let mark = read_number(mark)?;
                Some(OpenCut {
                    ticket,
                    seat,
                    item: Some(mark),
                })
            } else {
                None
            }
        }
    }
}

/// A piece with a seat and a ticket, by the line's first word, its side's word and the rest.
#[tactic(auto, unfolding(crate::specs::Tracing::BaseGrammar::ticketed_piece))]
fn read_ticketed(
    first: &[u8],
    seat: SeatNo,
    ticket: Ticket,
    word: &[u8],
    rest: &[u8],
) -> Option<Piece>
    ensures { result ≡ ticketed_piece first.now seat ticket word.now rest.now }
{
    if first == b"line".as_slice() {
        let entry = read_entry(seat, ticket, word, rest)?;
        Some(Piece::Stands(entry))
    } else if first == b"pair".as_slice() {
        let pair = read_pair_behind(seat, ticket, word, rest)?;
        Some(Piece::Met(pair))
    } else if first == b"cut".as_slice() {
        let cut = read_cut(seat, ticket, word, rest)?;
        Some(Piece::Cut(cut))
    } else {
        None
    }
}

/// A piece with a seat, by what stands behind the ticket.
#[tactic(auto, unfolding(crate::specs::Tracing::BaseGrammar::piece_with_ticket))]
fn read_with_ticket(first: &[u8], seat: SeatNo, ticket: &[u8], rest: &[u8]) -> Option<Piece>
    ensures { result ≡ piece_with_ticket first.now seat ticket.now rest.now }
{
    match rest {
        [] => None,
        [_, text @ ..] => {
            let ticket = read_ticket(ticket)?;
            let (word, rest) = split_word(text);
            read_ticketed(first, seat, ticket, word, rest)
        }
    }
}

/// A piece with a seat, by what stands behind the seat: nothing for a flag.
#[tactic(auto, unfolding(crate::specs::Tracing::BaseGrammar::piece_with_seat))]
fn read_with_seat(first: &[u8], seat: &[u8], rest: &[u8]) -> Option<Piece>
    ensures { result ≡ piece_with_seat first.now seat.now rest.now }
{
    match rest {
        [] => {
            if first == b"flag".as_slice() {
                let seat = read_seat(seat)?;
                Some(Piece::Flagged(seat))
            } else {
                None
            }
        }
        [_, text @ ..] => {
            let seat = read_seat(seat)?;
            let (ticket, rest) = split_word(text);
            read_with_ticket(first, seat, ticket, rest)
        }
    }
}

/// The piece behind a line's first word.
#[tactic(auto, unfolding(crate::specs::Tracing::BaseGrammar::piece_behind))]
fn read_piece_behind(first: &[u8], rest: &[u8]) -> Option<Piece>
    ensures { result ≡ piece_behind first.now rest.now }
{
    match rest {
        [] => None,
        [_, text @ ..] => {
            let (seat, rest) = split_word(text);
            read_with_seat(first, seat, rest)
        }
    }
}

/// The piece of a line of a trace, or none where the line is a record's, or at fault.
#[tactic(auto, unfolding(crate::specs::Tracing::BaseGrammar::piece_of))]
pub(crate) fn read_piece(line: &[u8]) -> Option<Piece>
    ensures { result ≡ piece_of line.now }
{
    if line.len() > LONGEST_LINE {
        return None;
    }
    let (first, rest) = split_word(line);
    read_piece_behind(first, rest)
}

/// A base's numbers, by the first of them and the rest.
#[tactic(auto, unfolding(crate::specs::Tracing::BaseGrammar::numbers_in))]
fn read_both_numbers(first: &[u8], rest: &[u8]) -> Option<(Ticket, Ticket)>
    ensures { result ≡ numbers_in first.now rest.now }
{
    match rest {
        [] => None,
        [_, last @ ..] => {
            let gone = read_ticket(first)?;
            let last = read_ticket(last)?;
            Some((gone, last))
        }
    }
}

/// The numbers of a base's first line: how many records were folded away, and their greatest ticket.
#[tactic(auto, unfolding(crate::specs::Tracing::BaseGrammar::numbers_of))]
pub(crate) fn read_numbers(line: &[u8]) -> Option<(Ticket, Ticket)>
    ensures { result ≡ numbers_of line.now }
{
    if line.len() > LONGEST_LINE {
        return None;
    }
    let text = behind_prefix(b"base ", line)?;
    let (first, rest) = split_word(text);
    read_both_numbers(first, rest)
}

/// The kind of place of the first line of a trace that has a base, or none where it is no such line.
#[tactic(auto, unfolding(crate::specs::Tracing::BaseGrammar::based_head_of))]
pub(crate) fn read_based_head(line: &[u8]) -> Option<Kind>
    ensures { result ≡ based_head_of line.now }
{
    if line.len() > LONGEST_LINE {
        return None;
    }
    let text = behind_prefix(b"trace 2 ", line)?;
    read_kind(text)
}
