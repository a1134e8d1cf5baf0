//! A queue's history, handed out chapter by chapter and looked at, also where a seat is lost.

ghost use Rattle.std.specs.Prelude.{◌≡◌, vec_len};
ghost use Rattle.meet_place.specs.Ledgers.{AreOf};

use meet_book::Bases;
use meet_core::{QueueLeaves, QueuePlace};
use meet_line::FairLine;
use meet_shop::{Idle, gates, two_backs, two_seats};
use meet_sync::{
    Asked, Back, Blanks, Chapter, Chronicle, Followed, Ledgers, NewQueue, Pending, Queue,
    QueueFault, Request, Seat, SyncQueue,
};
use meet_tickets::{Base, Deed, Record, SeatNo, Ticket};
use std::alloc::Global;
use std::marker::Brand;
use std::process::Abort;
use std::sync::Wait;
use std::test::*;

/// A fair queue. Who makes it and closes it knows that it is one; all others, that numbers go through it.
type Fair<N> = SyncQueue<u64, FairLine<u64>, Idle, N>;

/// A seat, and the chapter that it was handed.
type Handed<N> = (Seat<Deed, N>, Chapter);

/// The record of this deed of a seat's ticket.
fn record(rt: &impl Abort, seat: u64, ticket: u64, deed: Deed) -> Record<Deed> {
    Record {
        seat: SeatNo::new(seat).expect(rt, "no seat"),
        ticket: numbered(rt, ticket),
        deed,
    }
}

/// The ticket of this number.
fn numbered(rt: &impl Abort, number: u64) -> Ticket {
    Ticket::new(number).expect(rt, "no ticket")
}

/// A chapter has so many records behind it, up to this ticket, and these of its own.
fn has(rt: &impl Abort, chapter: &Chapter, gone: u64, last: u64, records: &[Record<Deed>]) {
    assert_eq!(rt; chapter.base.gone, gone);
    assert_eq!(rt; chapter.base.last.number(), last);
    assert_eq!(rt; chapter.records.as_slice(), records);
}

/// A base has so many tickets in its line, so many that were met, and nothing else.
fn holds(rt: &impl Abort, base: &Base, line: usize, pairs: usize) {
    assert_eq!(rt; base.line.len(), line);
    assert_eq!(rt; base.pairs.len(), pairs);
    assert_eq!(rt; base.cut.len(), 0);
    assert_eq!(rt; base.flags.len(), 0);
}

/// A seat asks, and its request ends at once.
fn settles<O: QueuePlace<Item = u64>, N: Ledgers, R: Abort + Wait>(
    rt: &R,
    queue: &Queue<O, Idle, N>,
    seat: Seat<Deed, N>,
    request: Request<u64>,
) -> Seat<Deed, N> {
    match queue.request(rt, seat, request) {
        Ok(Asked::Settled(seat, _)) => seat,
        _ => panic!(rt; "the request doesn't end at once"),
    }
}

/// A seat takes, and waits.
fn waits<O: QueuePlace<Item = u64>, N: Ledgers, R: Abort + Wait>(
    rt: &R,
    queue: &Queue<O, Idle, N>,
    seat: Seat<Deed, N>,
) -> Pending<Deed, N> {
    match queue.request(rt, seat, Request::Take) {
        Ok(Asked::Parked(pending)) => pending,
        _ => panic!(rt; "the take doesn't wait"),
    }
}

/// A take that waited has got 7.
fn gets_7<O: QueuePlace<Item = u64>, N: Ledgers, R: Abort + Wait>(
    rt: &R,
    queue: &Queue<O, Idle, N>,
    pending: Pending<Deed, N>,
) -> Seat<Deed, N> {
    match queue.follow_up(rt, pending) {
        Followed::Got(seat, _, 7) => seat,
        _ => panic!(rt; "the take wasn't met"),
    }
}

/// A seat is handed out the records so far, in this list.
fn rotates<O: QueuePlace<Item = u64> + Bases, N: Ledgers, R: Abort + Wait>(
    rt: &R,
    queue: &Queue<O, Idle, N>,
    seat: Seat<Deed, N>,
    list: Vec<Record<Deed>>,
) -> Handed<N> {
    match queue.rotate(rt, seat, list) {
        Ok(handed) => handed,
        Err(_) => panic!(rt; "the chapter isn't handed out"),
    }
}

/// An offer of 5 that finds nobody, and what is handed out then: its record, and the base of no records.
fn first_chapter<O: QueuePlace<Item = u64> + Bases, N: Ledgers, R: Abort + Wait>(
    rt: &R,
    alloc: Global,
    queue: &Queue<O, Idle, N>,
    seat: Seat<Deed, N>,
) -> Handed<N> {
    let seat = settles(rt, queue, seat, Request::Offer(5));
    let (seat, chapter) = rotates(rt, queue, seat, Vec::new(alloc));
    has(rt, &chapter, 0, 0, &[record(rt, 0, 1, Deed::GiveFails(5))]);
    holds(rt, &chapter.base, 0, 0);
    (seat, chapter)
}

/// What is handed out once seat 1 waits to take: the record of that, behind the first. The list of the chapter before
/// is used again.
fn second_chapter<O: QueuePlace<Item = u64> + Bases, N: Ledgers, R: Abort + Wait>(
    rt: &R,
    queue: &Queue<O, Idle, N>,
    handed: Handed<N>,
) -> Handed<N> {
    let (seat, before) = handed;
    let (seat, chapter) = rotates(rt, queue, seat, before.records);
    has(rt, &chapter, 1, 1, &[record(rt, 1, 2, Deed::TakeWaits)]);
    holds(rt, &chapter.base, 0, 0);
    (seat, chapter)
}

/// A give of 7 that meets seat 1, and what is handed out then: on a base in which that still waits.
fn third_chapter<O: QueuePlace<Item = u64> + Bases, N: Ledgers, R: Abort + Wait>(
    rt: &R,
    queue: &Queue<O, Idle, N>,
    handed: Handed<N>,
) -> Seat<Deed, N> {
    let (seat, before) = handed;
    let seat = settles(rt, queue, seat, Request::Give(7));
    let (seat, chapter) = rotates(rt, queue, seat, before.records);
    let gave = Deed::GiveMeets(7, numbered(rt, 2));
    has(rt, &chapter, 2, 2, &[record(rt, 0, 3, gave)]);
    holds(rt, &chapter.base, 1, 0);
    seat
}

/// A look at a queue.
fn looks<O: QueuePlace<Item = u64> + Bases, N: Ledgers, R: Abort + Wait>(
    rt: &R,
    queue: &Queue<O, Idle, N>,
) -> Chapter {
    match queue.history(rt) {
        Ok(chapter) => chapter,
        Err(_) => panic!(rt; "there is nothing to be looked at"),
    }
}

/// What a look shows: three records behind it, up to the third ticket, these since, and one ticket that was met.
fn shows<O: QueuePlace<Item = u64> + Bases, N: Ledgers, R: Abort + Wait>(
    rt: &R,
    queue: &Queue<O, Idle, N>,
    records: &[Record<Deed>],
) {
    let chapter = looks(rt, queue);
    has(rt, &chapter, 3, 3, records);
    holds(rt, &chapter.base, 0, 1);
}

/// Three chapters of two seats, and a look before and behind the follow-up of seat 1.
fn in_chapters<O: QueuePlace<Item = u64> + Bases, N: Ledgers, R: Abort + Wait>(
    rt: &R,
    alloc: Global,
    queue: &Queue<O, Idle, N>,
    seats: (Seat<Deed, N>, Seat<Deed, N>),
) -> (Seat<Deed, N>, Seat<Deed, N>) {
    let (first, second) = seats;
    let handed = first_chapter(rt, alloc, queue, first);
    let pending = waits(rt, queue, second);
    let handed = second_chapter(rt, queue, handed);
    let first = third_chapter(rt, queue, handed);
    shows(rt, queue, &[]);
    let second = gets_7(rt, queue, pending);
    let got = Deed::Got(7, numbered(rt, 3));
    shows(rt, queue, &[record(rt, 1, 2, got)]);
    (first, second)
}

/// A queue with room for eight records, and its seats.
fn made<N: Ledgers>(
    rt: &impl Abort,
    alloc: Global,
    parts: NewQueue<Idle>,
) -> (Fair<N>, Vec<Seat<Deed, N>>)
    requires ledgers { AreOf N.name N.folds N.moments N.parts parts.blanks }
    requires one_each { N.parts ≡ vec_len parts.gates }
    requires cap { N.cap ≡ 8 }
{
    match Fair::<N>::with_cap(alloc, parts, 8) {
        Ok(made) => made,
        Err(_) => panic!(rt; "no queue"),
    }
}

/// A queue is closed with all its seats.
fn closed<O: QueueLeaves<Item = u64> + Drop, N: Ledgers>(
    rt: &impl Abort,
    alloc: Global,
    queue: Queue<O, Idle, N>,
    backs: Vec<Back<Deed, N>>,
) -> Chronicle<u64> {
    match queue.close(alloc, backs) {
        Ok(chronicle) => chronicle,
        Err(_) => panic!(rt; "it isn't closed"),
    }
}

/// A queue of two seats and eight records, and what it came to.
fn of_two_seats<N: Ledgers, R: Abort + Wait>(
    rt: &R,
    alloc: Global,
    parts: NewQueue<Idle>,
) -> Chronicle<u64>
    requires ledgers { AreOf N.name N.folds N.moments N.parts parts.blanks }
    requires one_each { N.parts ≡ vec_len parts.gates }
    requires cap { N.cap ≡ 8 }
{
    let (queue, seats) = made::<N>(rt, alloc, parts);
    let seats = two_seats(seats).expect(rt, "no seats");
    let (first, second) = in_chapters(rt, alloc, &queue, seats);
    let backs = two_backs(alloc, Back::Free(first), Back::Free(second)).expect(rt, "memory");
    closed(rt, alloc, queue, backs)
}

/// A look shows an offer of seat 1 that failed and a poll of seat 0 that did, and nothing behind them.
fn shows_both<O: QueuePlace<Item = u64> + Bases, N: Ledgers, R: Abort + Wait>(
    rt: &R,
    queue: &Queue<O, Idle, N>,
) {
    let chapter = looks(rt, queue);
    let offered = record(rt, 1, 1, Deed::GiveFails(5));
    let polled = record(rt, 0, 2, Deed::TakeFails);
    has(rt, &chapter, 0, 0, &[offered, polled]);
}

/// Seat 1 offers, and is lost. Seat 0 goes on, and a look shows both records: seat 0, to be given back.
fn loses_seat_1<O: QueuePlace<Item = u64> + Bases, N: Ledgers, R: Abort + Wait>(
    rt: &R,
    alloc: Global,
    queue: &Queue<O, Idle, N>,
    seats: (Seat<Deed, N>, Seat<Deed, N>),
) -> Vec<Back<Deed, N>> {
    let (first, second) = seats;
    settles(rt, queue, second, Request::Offer(5));
    let first = settles(rt, queue, first, Request::Poll);
    shows_both(rt, queue);
    let mut backs = Vec::new(alloc);
    backs.push(Back::Free(first)).expect(rt, "memory");
    backs
}

/// A queue isn't closed without a seat: which are missing.
fn missing<O: QueueLeaves<Item = u64> + Drop, N: Ledgers>(
    rt: &impl Abort,
    alloc: Global,
    queue: Queue<O, Idle, N>,
    backs: Vec<Back<Deed, N>>,
) -> Vec<SeatNo> {
    match queue.close(alloc, backs) {
        Ok(_) => panic!(rt; "it is closed without a seat"),
        Err(fault) => match fault.missing(alloc) {
            Ok(missing) => missing,
            Err(_) => panic!(rt; "it isn't told who is missing"),
        },
    }
}

/// A queue that loses seat 1: which seats are missing at its end.
fn without_seat_1<N: Ledgers, R: Abort + Wait>(
    rt: &R,
    alloc: Global,
    parts: NewQueue<Idle>,
) -> Vec<SeatNo>
    requires ledgers { AreOf N.name N.folds N.moments N.parts parts.blanks }
    requires one_each { N.parts ≡ vec_len parts.gates }
    requires cap { N.cap ≡ 8 }
{
    let (queue, seats) = made::<N>(rt, alloc, parts);
    let seats = two_seats(seats).expect(rt, "no seats");
    let backs = loses_seat_1(rt, alloc, &queue, seats);
    missing(rt, alloc, queue, backs)
}

#[test]
fn chapters_follow_one_another(rt: HostRuntime) -> Result<(), Fail> {
    let gates = gates::<Idle>(rt.alloc(), 2)?;
    let blanks = Blanks::new(gates.len() as u64);
    let chronicle = of_two_seats::<Brand, _>(&rt, rt.alloc(), NewQueue { gates, blanks });
    assert_eq!(&rt; chronicle.base.gone, 3);
    assert_eq!(&rt; chronicle.records.len(), 1);
    let receipts = chronicle.lists.first().map(|list| list.len());
    assert_eq!(&rt; receipts, Some(2));
    let receipts = chronicle.lists.get(1).map(|list| list.len());
    assert_eq!(&rt; receipts, Some(2));
    Ok(())
}

#[test]
fn a_lost_seat_leaves_a_history(rt: HostRuntime) -> Result<(), Fail> {
    let gates = gates::<Idle>(rt.alloc(), 2)?;
    let blanks = Blanks::new(gates.len() as u64);
    let missing = without_seat_1::<Brand, _>(&rt, rt.alloc(), NewQueue { gates, blanks });
    assert_eq!(&rt; missing.len(), 1);
    assert_eq!(&rt; missing.first().map(|seat| seat.number()), Some(1));
    Ok(())
}
