//! Items that can't be let go pass through a queue, and come out of it where it ends.

ghost use Rattle.std.specs.Prelude.{◌≡◌, vec_len};
ghost use Rattle.meet_place.specs.Ledgers.{AreOf};

use meet_line::Line;
use meet_shop::{Ask, Found, Idle, Seats, gates, given, seated};
use meet_sync::{
    Answer, Asked, Back, Blanks, Chronicle, FairLine, Followed, Interrupted, Ledgers, Left,
    LeftStanding, NewQueue, Pending, Request, Seat, SeatRefused, StackLine, SyncQueue,
};
use meet_tickets::{Deed, Marked, SeatNo};
use std::alloc::Global;
use std::marker::Brand;
use std::process::Abort;
use std::sync::Wait;
use std::test::*;

/// An item that can't be let go: its type isn't `Drop`.
struct Seal {
    serial: u64,
}

impl Marked for Seal {
    ghost mark_of = { λ seal. seal.serial };

    fn mark(&self) -> u64 {
        self.serial
    }
}

/// The serial number of an item that came out.
fn broken(seal: Seal) -> u64 {
    let Seal { serial } = seal;
    serial
}

/// The same of an item that may be there.
fn broken_if_there(seal: Option<Seal>) -> Option<u64> {
    match seal {
        Some(seal) => Some(broken(seal)),
        None => None,
    }
}

/// A queue of such items.
type Sealed<L, N> = SyncQueue<Seal, L, Idle, N>;

/// A seat, and the serial number of the item that came out by its call.
type Came<N> = (Back<Deed, N>, Option<u64>);

fn refused<N: Ledgers>(refused: SeatRefused<Seal, N>) -> Came<N> {
    let SeatRefused { why: _, seat, item } = refused;
    (Back::Free(seat), broken_if_there(item))
}

fn answered(answer: Answer<Seal>) -> Option<u64> {
    match answer {
        Answer::Gave(_) | Answer::Kept => None,
        Answer::Got(_, item) => Some(broken(item)),
        Answer::Failed(back) => broken_if_there(back),
        Answer::EntryInterrupted(back) => broken_if_there(back),
    }
}

fn asked<N: Ledgers>(asked: Asked<Seal, N>) -> Came<N> {
    match asked {
        Asked::Settled(seat, answer) => (Back::Free(seat), answered(answer)),
        Asked::Parked(pending) => (Back::Held(pending), None),
    }
}

fn interrupted<N: Ledgers>(interrupted: Interrupted<N>) -> Came<N> {
    match interrupted {
        Interrupted::Cut(seat, _) => (Back::Free(seat), None),
        Interrupted::Flagged(seat) => (Back::Free(seat), None),
    }
}

fn requests<L: Line<Seal>, N: Ledgers, R: Wait>(
    rt: &R,
    queue: &Sealed<L, N>,
    seat: Seat<Deed, N>,
    request: Request<Seal>,
) -> Came<N> {
    match queue.request(rt, seat, request) {
        Ok(came) => asked(came),
        Err(why) => refused(why),
    }
}

fn interrupts<L: Line<Seal>, N: Ledgers, R: Wait>(
    rt: &R,
    queue: &Sealed<L, N>,
    seat: Seat<Deed, N>,
    target: SeatNo,
) -> Came<N> {
    match queue.interrupt(rt, seat, target) {
        Ok(came) => interrupted(came),
        Err(why) => refused(why),
    }
}

fn follows<L: Line<Seal>, N: Ledgers, R: Wait>(
    rt: &R,
    queue: &Sealed<L, N>,
    pending: Pending<Deed, N>,
) -> Came<N> {
    match queue.follow_up(rt, pending) {
        Followed::Done(seat) => (Back::Free(seat), None),
        Followed::Got(seat, _, item) => (Back::Free(seat), Some(broken(item))),
        Followed::Interrupted(seat, back) => (Back::Free(seat), broken_if_there(back)),
        Followed::NotYet(pending) => (Back::Held(pending), None),
    }
}

/// A seat without a ticket asks.
fn asks_free<L: Line<Seal>, N: Ledgers, R: Wait>(
    rt: &R,
    queue: &Sealed<L, N>,
    seat: Seat<Deed, N>,
    ask: Ask,
) -> Came<N> {
    match ask {
        Ask::Give(serial) => requests(rt, queue, seat, Request::Give(Seal { serial })),
        Ask::Offer(serial) => requests(rt, queue, seat, Request::Offer(Seal { serial })),
        Ask::Take => requests(rt, queue, seat, Request::Take),
        Ask::Interrupt(target) => match SeatNo::new(target) {
            Some(target) => interrupts(rt, queue, seat, target),
            None => (Back::Free(seat), None),
        },
        _ => (Back::Free(seat), None),
    }
}

/// A seat asks, or follows its ticket up.
fn asks<L: Line<Seal>, N: Ledgers, R: Wait>(
    rt: &R,
    queue: &Sealed<L, N>,
    back: Back<Deed, N>,
    ask: Ask,
) -> Came<N> {
    match back {
        Back::Free(seat) => asks_free(rt, queue, seat, ask),
        Back::Held(pending) => follows(rt, queue, pending),
    }
}

/// A seat asks, and this item comes out by it.
type Row = (u64, Ask, Option<u64>);

/// The seat of this slot asks: the item that comes out.
fn asks_in<L: Line<Seal>, N: Ledgers, R: Wait>(
    rt: &R,
    queue: &Sealed<L, N>,
    slot: &mut Option<Back<Deed, N>>,
    ask: Ask,
) -> Option<u64> {
    match slot.take() {
        Some(back) => {
            let (again, came) = asks(rt, queue, back, ask);
            *slot = Some(again);
            came
        }
        None => None,
    }
}

/// Seats ask, one after another, and these items come out.
fn ask_all<L: Line<Seal>, N: Ledgers, R: Abort + Wait>(
    rt: &R,
    queue: &Sealed<L, N>,
    seats: &mut Seats<N>,
    rows: &[Row],
) {
    for (number, ask, wanted) in rows {
        let came = match seats.get_mut(*number as usize) {
            Some(slot) => asks_in(rt, queue, slot, *ask),
            None => None,
        };
        assert_eq!(rt; came, *wanted, "seat {number}");
    }
}

/// The list has these items, and nothing else.
fn has(rt: &impl Abort, list: Vec<Left<Seal>>, wanted: &[Found]) {
    let mut list = list;
    for found in wanted.iter().rev() {
        let Left {
            ticket,
            item,
            standing,
        } = list.pop().expect(rt, "an item less");
        assert_eq!(rt; (ticket.number(), broken(item), standing), *found);
    }
    match list.pop() {
        None => list.destroy_empty(),
        Some(_) => panic!(rt; "an item more"),
    }
}

/// A queue is closed with these seats, and leaves this.
fn leaves<L: Line<Seal>, N: Ledgers>(
    rt: &impl Abort,
    alloc: Global,
    queue: Sealed<L, N>,
    backs: Vec<Back<Deed, N>>,
    records: usize,
    left: &[Found],
) {
    match queue.close(alloc, backs) {
        Ok(chronicle) => {
            let Chronicle {
                base: _,
                records: all,
                lists: _,
                left: list,
            } = chronicle;
            assert_eq!(rt; all.len(), records);
            has(rt, list, left);
        }
        Err(_) => panic!(rt; "it isn't closed"),
    }
}

/// A queue is made, its seats ask, and it is closed and leaves this.
fn passing<L: Line<Seal>, N: Ledgers, R: Abort + Wait>(
    rt: &R,
    alloc: Global,
    parts: NewQueue<Idle>,
    rows: &[Row],
    left: &[Found],
)
    requires ledgers { AreOf N.name N.folds N.moments N.parts parts.blanks }
    requires one_each { N.parts ≡ vec_len parts.gates }
    requires cap { N.cap ≡ 100 }
{
    let (queue, made) = match Sealed::<L, N>::with_cap(alloc, parts, 100) {
        Ok(made) => made,
        Err(_) => panic!(rt; "it isn't made"),
    };
    let mut seats = seated(alloc, made).expect(rt, "memory");
    ask_all(rt, &queue, &mut seats, rows);
    let backs = given(alloc, seats).expect(rt, "memory");
    leaves(rt, alloc, queue, backs, rows.len(), left);
}

/// Four seats ask a queue over this line, and then this is left.
fn pass<L: Line<Seal>, R: Abort + Wait>(
    rt: &R,
    alloc: Global,
    rows: &[Row],
    left: &[Found],
) -> Result<(), &'static str> {
    let gates = gates::<Idle>(alloc, 4)?;
    let blanks = Blanks::new(gates.len() as u64);
    passing::<L, Brand, _>(rt, alloc, NewQueue { gates, blanks }, rows, left);
    Ok(())
}

/// An item is taken at once, one fails, one is collected, and one comes back to its giver, which was cut. Then one
/// waits to be collected, one's giver was cut and hasn't collected it, and one is offered.
const ROWS: [Row; 15] = [
    (0, Ask::Give(10), None),
    (1, Ask::Take, Some(10)),
    (0, Ask::Follow, None),
    (1, Ask::Offer(20), Some(20)),
    (2, Ask::Take, None),
    (0, Ask::Give(30), None),
    (2, Ask::Follow, Some(30)),
    (0, Ask::Give(40), None),
    (1, Ask::Interrupt(0), None),
    (0, Ask::Follow, Some(40)),
    (2, Ask::Take, None),
    (0, Ask::Give(50), None),
    (1, Ask::Give(60), None),
    (0, Ask::Interrupt(1), None),
    (3, Ask::Give(70), None),
];

/// What is left of them, by rising ticket.
const LEFT: [Found; 3] = [
    (8, 50, LeftStanding::Ready),
    (9, 60, LeftStanding::Ready),
    (10, 70, LeftStanding::Offered),
];

#[test]
fn items_that_stay_come_out(rt: HostRuntime) -> Result<(), Fail> {
    pass::<FairLine<Seal>, _>(&rt, rt.alloc(), &ROWS, &LEFT)?;
    pass::<StackLine<Seal>, _>(&rt, rt.alloc(), &ROWS, &LEFT)?;
    Ok(())
}
