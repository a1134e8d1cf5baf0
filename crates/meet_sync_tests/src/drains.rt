//! Drains and probes of queues for threads, in one thread.

ghost use Rattle.std.specs.Prelude.{◌≡◌, vec_len};
ghost use Rattle.meet_place.specs.Ledgers.{AreOf};
ghost use Rattle.meet_tickets.specs.Limits.{most_records};

use meet_shop::{Idle, gates, two_backs, two_seats};
use meet_sync::{
    Asked, Back, Blanks, DrainedItems, End, Ledgers, NewQueue, Pending, Request, Seat, SeatRefused,
    TransferQueue,
};
use meet_tickets::{Deed, Refusal};
use std::alloc::Global;
use std::marker::Brand;
use std::process::Abort;
use std::sync::Wait;
use std::test::*;

/// A transfer queue of numbers.
type Store<N> = TransferQueue<u64, Idle, N>;

/// What a queue shows: its size, the first giver's mark, how many takers wait, and whether one does.
type Shown = (u64, Option<u64>, u64, bool);

/// What a transfer queue shows now.
fn shown<N: Ledgers, R: Wait>(rt: &R, store: &Store<N>) -> Shown {
    (
        store.size(rt),
        store.peek_mark(rt),
        store.waiting_consumers(rt),
        store.has_waiting_consumer(rt),
    )
}

/// What came of a day at a queue.
#[derive(Drop)]
struct Day {
    /// What the queue showed, from time to time.
    shown: [Shown; 3],
    /// The items of the drain, and of a drain of nothing.
    items: Vec<u64>,
    nothing: usize,
    records: usize,
}

/// A seat puts an item, which is kept.
fn puts<N: Ledgers, R: Abort + Wait>(
    rt: &R,
    store: &Store<N>,
    giver: Seat<Deed, N>,
    item: u64,
) -> Seat<Deed, N> {
    match store.put(rt, giver, item) {
        Ok(ended) => match ended.end {
            End::Kept => ended.seat,
            _ => panic!(rt; "the item isn't kept"),
        },
        Err(_) => panic!(rt; "the put is refused"),
    }
}

/// A seat drains up to three items.
fn draws<N: Ledgers, R: Abort + Wait>(
    rt: &R,
    alloc: Global,
    store: &Store<N>,
    taker: Seat<Deed, N>,
) -> DrainedItems<u64, N> {
    match store.drain(rt, alloc, taker, 3) {
        Ok(drained) => drained,
        Err(_) => panic!(rt; "the drain is refused"),
    }
}

/// A seat asks, and waits.
fn waits<N: Ledgers, R: Abort + Wait>(
    rt: &R,
    store: &Store<N>,
    seat: Seat<Deed, N>,
    request: Request<u64>,
) -> Pending<Deed, N> {
    match store.request(rt, seat, request) {
        Ok(Asked::Parked(pending)) => pending,
        _ => panic!(rt; "it doesn't wait"),
    }
}

/// One seat puts two items and another drains them, up to three; then it drains nothing, and waits.
fn trade<N: Ledgers, R: Abort + Wait>(
    rt: &R,
    alloc: Global,
    store: &Store<N>,
    giver: Seat<Deed, N>,
    taker: Seat<Deed, N>,
) -> (Day, Back<Deed, N>, Back<Deed, N>) {
    let giver = puts(rt, store, giver, 4);
    let giver = puts(rt, store, giver, 5);
    let first = shown(rt, store);
    let DrainedItems { seat: taker, items } = draws(rt, alloc, store, taker);
    let second = shown(rt, store);
    let DrainedItems {
        seat: taker,
        items: none,
    } = draws(rt, alloc, store, taker);
    let taker = waits(rt, store, taker, Request::Take);
    let day = Day {
        shown: [first, second, shown(rt, store)],
        items,
        nothing: none.len(),
        records: 0,
    };
    (day, Back::Free(giver), Back::Held(taker))
}

/// A seat waits for an item that nobody has.
fn wait_there<N: Ledgers, R: Abort + Wait>(
    rt: &R,
    alloc: Global,
    store: &Store<N>,
    giver: Seat<Deed, N>,
    taker: Seat<Deed, N>,
) -> (Day, Back<Deed, N>, Back<Deed, N>) {
    let first = shown(rt, store);
    assert_eq!(rt; store.remaining_capacity(), 2_147_483_647);
    let taker = waits(rt, store, taker, Request::Take);
    let day = Day {
        shown: [first, shown(rt, store), shown(rt, store)],
        items: Vec::new(alloc),
        nothing: 0,
        records: 0,
    };
    (day, Back::Free(giver), Back::Held(taker))
}

/// A queue is closed: how many records it has.
fn closed<N: Ledgers>(
    rt: &impl Abort,
    alloc: Global,
    store: Store<N>,
    backs: Vec<Back<Deed, N>>,
) -> usize {
    match store.close(alloc, backs) {
        Ok(chronicle) => chronicle.records.len(),
        Err(_) => panic!(rt; "it isn't closed"),
    }
}

/// A day at a new queue of two seats, which is closed: one on which items are put, or one on which nobody gives.
fn a_day<N: Ledgers, R: Abort + Wait>(
    rt: &R,
    alloc: Global,
    parts: NewQueue<Idle>,
    gives: bool,
) -> Day
    requires ledgers { AreOf N.name N.folds N.moments N.parts parts.blanks }
    requires one_each { N.parts ≡ vec_len parts.gates }
    requires cap { N.cap ≡ most_records }
{
    let (store, seats) = match Store::<N>::new(alloc, parts) {
        Ok(made) => made,
        Err(_) => panic!(rt; "it isn't made"),
    };
    let (giver, taker) = two_seats(seats).expect(rt, "no seats");
    let (mut day, giver, taker) = match gives {
        true => trade(rt, alloc, &store, giver, taker),
        false => wait_there(rt, alloc, &store, giver, taker),
    };
    let backs = two_backs(alloc, giver, taker).expect(rt, "memory");
    day.records = closed(rt, alloc, store, backs);
    day
}

/// Two items are kept, and one drain takes both.
#[test]
fn two_are_drained(rt: HostRuntime) -> Result<(), Fail> {
    let gates = gates::<Idle>(rt.alloc(), 2)?;
    let blanks = Blanks::new(gates.len() as u64);
    let day = a_day::<Brand, _>(&rt, rt.alloc(), NewQueue { gates, blanks }, true);
    assert_eq!(rt; day.shown[0], (2, Some(4), 0, false));
    assert_eq!(rt; day.shown[1], (0, None, 0, false));
    assert_eq!(rt; day.shown[2], (0, None, 1, true));
    assert_eq!(rt; day.items.as_slice(), [4, 5].as_slice());
    assert_eq!(rt; day.nothing, 0);
    assert_eq!(rt; day.records, 5);
    Ok(())
}

/// A queue in which nobody gives has no size, whoever waits there.
#[test]
fn a_taker_waits(rt: HostRuntime) -> Result<(), Fail> {
    let gates = gates::<Idle>(rt.alloc(), 2)?;
    let blanks = Blanks::new(gates.len() as u64);
    let day = a_day::<Brand, _>(&rt, rt.alloc(), NewQueue { gates, blanks }, false);
    assert_eq!(rt; day.shown[0], (0, None, 0, false));
    assert_eq!(rt; day.shown[1], (0, None, 1, true));
    assert_eq!(rt; day.records, 1);
    Ok(())
}

/// A drain of one item is refused: why, and the seat.
fn draws_in_vain<N: Ledgers, R: Abort + Wait>(
    rt: &R,
    alloc: Global,
    store: &Store<N>,
    seat: Seat<Deed, N>,
) -> (Refusal, Seat<Deed, N>) {
    match store.drain(rt, alloc, seat, 1) {
        Ok(_) => panic!(rt; "it isn't refused"),
        Err(SeatRefused { why, seat, .. }) => (why, seat),
    }
}

/// What two drains are refused, one of a seat whose ticket is open and one for whose poll the history has no room; then
/// the seats.
fn drain_in_vain<N: Ledgers, R: Abort + Wait>(
    rt: &R,
    alloc: Global,
    store: &Store<N>,
    giver: Seat<Deed, N>,
    taker: Seat<Deed, N>,
) -> ([Refusal; 2], Back<Deed, N>, Back<Deed, N>) {
    let (seat, ticket, mark) = waits(rt, store, giver, Request::Give(4)).into_parts();
    let (open, mut giver) = draws_in_vain(rt, alloc, store, seat);
    giver.reserve(1).expect(rt, "memory");
    let (full, taker) = draws_in_vain(rt, alloc, store, taker);
    let giver = Pending::new(giver, ticket, mark);
    ([open, full], Back::Held(giver), Back::Free(taker))
}

/// The same, at a queue with room for three records: the give's, its ending's and one more. Then it is closed.
fn in_vain<N: Ledgers, R: Abort + Wait>(
    rt: &R,
    alloc: Global,
    parts: NewQueue<Idle>,
) -> [Refusal; 2]
    requires ledgers { AreOf N.name N.folds N.moments N.parts parts.blanks }
    requires one_each { N.parts ≡ vec_len parts.gates }
    requires cap { N.cap ≡ 3 }
{
    let (store, seats) = match Store::<N>::with_cap(alloc, parts, 3) {
        Ok(made) => made,
        Err(_) => panic!(rt; "it isn't made"),
    };
    let (giver, taker) = two_seats(seats).expect(rt, "no seats");
    let (whys, giver, taker) = drain_in_vain(rt, alloc, &store, giver, taker);
    let backs = two_backs(alloc, giver, taker).expect(rt, "memory");
    assert_eq!(rt; closed(rt, alloc, store, backs), 1);
    whys
}

/// Why a drain is refused, Memory aside.
#[test]
fn drains_are_refused(rt: HostRuntime) -> Result<(), Fail> {
    let gates = gates::<Idle>(rt.alloc(), 2)?;
    let blanks = Blanks::new(gates.len() as u64);
    let whys = in_vain::<Brand, _>(&rt, rt.alloc(), NewQueue { gates, blanks });
    assert!(rt; whys == [Refusal::SeatOpen, Refusal::HistoryFull]);
    Ok(())
}
