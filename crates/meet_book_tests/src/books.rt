//! A book of a cell: what each step writes, its receipts, what is refused, and drains.

ghost use Rattle.std.specs.Prelude.{◌<◌, ◌≤◌};
ghost use Rattle.meet_tickets.specs.Limits.{most_records};

use crate::cell::{Call, Cell, Deed, Made};
use meet_book::{Book, Receipt};
use meet_tickets::{Record, Refusal, SeatNo};
use std::alloc::Global;
use std::process::Abort;

/// A seat by its number.
pub fn seat(rt: &impl Abort, number: u64) -> SeatNo {
    SeatNo::new(number).expect(rt, "no such seat number")
}

/// A book of an empty cell with so many tickets, that makes room for so many puts at most.
pub fn book_of(rt: &impl Abort, alloc: Global, tickets: u64, most: u64, cap: u64) -> Book<Cell>
    requires cap_from { 0 < cap }
    requires cap_to { cap ≤ most_records }
{
    Book::new(alloc, Cell::new(rt, tickets, most), cap)
}

/// A record's seat, ticket and deed.
fn row(record: Record<Deed>) -> (u64, u64, Deed) {
    (record.seat.number(), record.ticket.number(), record.deed)
}

/// The book's records are these.
fn has(rt: &impl Abort, book: &Book<Cell>, rows: &[(u64, u64, Deed)]) {
    let records = book.records();
    assert_eq!(rt; records.len(), rows.len());
    for (record, wanted) in records.iter().zip(rows) {
        assert_eq!(rt; row(*record), *wanted);
    }
}

/// The place of a call's receipt, 0 where nothing is written; or why it is refused.
fn place(rt: &impl Abort, book: &mut Book<Cell>, number: u64, call: Call) -> Result<u64, Refusal> {
    match book.step(seat(rt, number), call) {
        Ok((_, None)) => Ok(0),
        Ok((_, Some(receipt))) => {
            assert!(rt; Some(receipt.entry()) == book.records().last().copied());
            Ok(receipt.place())
        }
        Err(refused) => {
            assert!(rt; refused.back == call);
            Err(refused.why)
        }
    }
}

/// Seats make these calls, and each is written at this place, or refused for this reason.
fn plays(rt: &impl Abort, book: &mut Book<Cell>, rows: &[(u64, Call, Result<u64, Refusal>)]) {
    for (number, call, wanted) in rows {
        assert_eq!(rt; place(rt, book, *number, *call), *wanted);
    }
}

/// A seat's drain took items at these places, under these tickets.
fn are_taken(
    rt: &impl Abort,
    got: &[(Option<Made>, Receipt<Deed>)],
    number: u64,
    rows: &[(u64, u64)],
) {
    assert_eq!(rt; got.len(), rows.len());
    for ((made, receipt), (place, ticket)) in got.iter().zip(rows) {
        assert_eq!(rt; receipt.place(), *place);
        assert_eq!(rt; row(receipt.entry()), (number, *ticket, Deed::Took));
        let made = made.map(|made| (made.ticket.number(), made.deed));
        assert_eq!(rt; made, Some((*ticket, Deed::Took)));
    }
}

/// What a cell and its book show: the tokens, the tickets and the room that are left, and how many records there are.
fn seen(book: &Book<Cell>) -> (u64, u64, u64, usize) {
    let cell = book.probe();
    (cell.tokens, cell.unspent, cell.room, book.records().len())
}

/// A drain of so many by a seat, and what it takes, by place and ticket, or why it is refused.
type Drain = (u64, u64, Result<&'static [(u64, u64)], Refusal>);

/// A seat drains the cell. Where that is refused, it changes nothing.
fn drain(rt: &impl Abort, alloc: Global, book: &mut Book<Cell>, row: &Drain) {
    let (number, most, wanted) = *row;
    let before = seen(book);
    match book.drain(alloc, seat(rt, number), most) {
        Ok(got) => are_taken(rt, got.as_slice(), number, wanted.unwrap_or(&[])),
        Err(why) => {
            assert_eq!(rt; Some(why), wanted.err());
            assert_eq!(rt; seen(book), before);
        }
    }
}

/// Seats drain the cell, one after another.
fn drains(rt: &impl Abort, alloc: Global, book: &mut Book<Cell>, rows: &[Drain]) {
    for row in rows {
        drain(rt, alloc, book, row);
    }
}

/// The book is cut: how many records are gone.
pub fn cut(book: &mut Book<Cell>) -> Result<u64, Refusal> {
    book.cut()
}

#[test]
fn each_step_is_written(rt: HostRuntime) {
    let mut book = book_of(&rt, rt.alloc(), 9, 5, 20);
    let rows = [
        (0, Call::Put(2), Ok(1)),
        (1, Call::Take, Ok(2)),
        (0, Call::Take, Ok(3)),
        (1, Call::End, Ok(0)),
        (0, Call::Take, Ok(4)),
        (1, Call::Take, Ok(5)),
        (1, Call::Put(2), Ok(6)),
        (0, Call::End, Ok(7)),
    ];
    plays(&rt, &mut book, &rows);
    let rows = [
        (0, 1, Deed::Put(2)),
        (1, 2, Deed::Took),
        (0, 3, Deed::Took),
        (0, 4, Deed::Waits),
        (1, 5, Deed::Missed),
        (1, 6, Deed::Put(2)),
        (0, 4, Deed::Ended),
    ];
    has(&rt, &book, &rows);
    let (cell, base, records) = book.into_parts();
    assert_eq!(rt; cell.tokens, 1);
    assert_eq!(rt; base.gone, 0);
    assert_eq!(rt; records.len(), 7);
}

#[test]
fn a_book_is_cut_where_a_seat_waits(rt: HostRuntime) {
    let mut book = book_of(&rt, rt.alloc(), 9, 5, 4);
    assert_eq!(rt; cut(&mut book), Ok(0));
    let rows = [
        (0, Call::Take, Ok(1)),
        (1, Call::Put(1), Ok(2)),
        (1, Call::Put(1), Ok(3)),
        (1, Call::Put(2), Err(Refusal::HistoryFull)),
    ];
    plays(&rt, &mut book, &rows);
    assert_eq!(rt; cut(&mut book), Ok(3));
    has(&rt, &book, &[]);
    assert_eq!(rt; book.base().gone, 3);
    assert!(rt; book.base().wait.is_some());
    // One record is still owed, and numbers go on.
    let rows = [
        (1, Call::Put(2), Ok(4)),
        (1, Call::Put(2), Ok(5)),
        (1, Call::Put(2), Ok(6)),
        (1, Call::Put(2), Err(Refusal::HistoryFull)),
        (0, Call::End, Ok(7)),
    ];
    plays(&rt, &mut book, &rows);
    has(
        &rt,
        &book,
        &[
            (1, 4, Deed::Put(2)),
            (1, 5, Deed::Put(2)),
            (1, 6, Deed::Put(2)),
            (0, 1, Deed::Ended),
        ],
    );
    assert_eq!(rt; cut(&mut book), Ok(7));
    let (_, base, records) = book.into_parts();
    assert_eq!(rt; base.gone, 7);
    assert!(rt; base.wait.is_none());
    assert!(rt; records.is_empty());
}

/// Where there is no memory for a base nothing is handed out, and the list that was lent comes back with its room.
#[test]
fn a_lent_list_comes_back_with_its_room(rt: HostRuntime) {
    let mut book = book_of(&rt, rt.alloc(), 9, 0, 4);
    plays(&rt, &mut book, &[(0, Call::Take, Ok(1))]);
    let lent = Vec::with_capacity(rt.alloc(), 100).expect(&rt, "no memory");
    match book.rotate(lent) {
        Ok(_) => panic!(&rt; "records are handed out"),
        Err(refused) => {
            assert_eq!(rt; refused.why, Refusal::Memory);
            assert!(rt; refused.back.is_empty());
            assert!(rt; refused.back.capacity() >= 100);
        }
    }
    has(&rt, &book, &[(0, 1, Deed::Waits)]);
}

#[test]
fn the_first_reason_counts(rt: HostRuntime) {
    // The seat, then the tickets, then the history.
    let mut book = book_of(&rt, rt.alloc(), 1, 5, 2);
    let rows = [
        (0, Call::Take, Ok(1)),
        (2, Call::Put(1), Err(Refusal::NoSuchSeat)),
        (0, Call::Put(1), Err(Refusal::SeatOpen)),
        (1, Call::Put(1), Err(Refusal::TicketsSpent)),
    ];
    plays(&rt, &mut book, &rows);
    has(&rt, &book, &[(0, 1, Deed::Waits)]);

    // Memory comes last, and who needs none gets on without.
    let mut book = book_of(&rt, rt.alloc(), 9, 0, 1);
    let rows = [
        (0, Call::Take, Err(Refusal::HistoryFull)),
        (0, Call::Put(1), Err(Refusal::Memory)),
        (0, Call::End, Ok(0)),
    ];
    plays(&rt, &mut book, &rows);
    has(&rt, &book, &[]);
}

#[test]
fn an_ending_always_has_its_place(rt: HostRuntime) {
    let mut book = book_of(&rt, rt.alloc(), 9, 5, 4);
    let rows = [
        (0, Call::Take, Ok(1)),
        (1, Call::Put(1), Ok(2)),
        (1, Call::Put(1), Ok(3)),
        (1, Call::Put(1), Err(Refusal::HistoryFull)),
        (0, Call::End, Ok(4)),
        (0, Call::Put(1), Err(Refusal::HistoryFull)),
    ];
    plays(&rt, &mut book, &rows);
}

#[test]
fn a_drain_takes_up_to_what_is_there(rt: HostRuntime) {
    let mut book = book_of(&rt, rt.alloc(), 9, 5, 20);
    plays(&rt, &mut book, &[(0, Call::Put(5), Ok(1))]);
    let rows: [Drain; 4] = [
        (1, 0, Ok(&[])),
        (1, 2, Ok(&[(2, 2), (3, 3)])),
        (0, 9, Ok(&[(4, 4), (5, 5), (6, 6)])),
        (0, 9, Ok(&[])),
    ];
    drains(&rt, rt.alloc(), &mut book, &rows);
    assert_eq!(rt; seen(&book), (0, 3, 0, 6));
}

#[test]
fn the_first_reason_against_a_drain_counts(rt: HostRuntime) {
    // The seat, then the tickets, then the history: one place stays for the ending that is owed.
    let mut book = book_of(&rt, rt.alloc(), 5, 5, 6);
    plays(
        &rt,
        &mut book,
        &[(0, Call::Take, Ok(1)), (1, Call::Put(4), Ok(2))],
    );
    let rows: [Drain; 6] = [
        (2, 9, Err(Refusal::NoSuchSeat)),
        (0, 9, Err(Refusal::SeatOpen)),
        (1, 9, Err(Refusal::TicketsSpent)),
        (1, 3, Err(Refusal::HistoryFull)),
        (1, 2, Ok(&[(3, 3), (4, 4)])),
        (1, 1, Err(Refusal::HistoryFull)),
    ];
    drains(&rt, rt.alloc(), &mut book, &rows);

    // It needs none of the place's room.
    let mut book = book_of(&rt, rt.alloc(), 9, 1, 20);
    plays(&rt, &mut book, &[(0, Call::Put(5), Ok(1))]);
    let rows: [Drain; 1] = [(1, 2, Ok(&[(2, 2), (3, 3)]))];
    drains(&rt, rt.alloc(), &mut book, &rows);
}
