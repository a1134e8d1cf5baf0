//! A seat that folds its record away bears a refusal too.

ghost use Rattle.std.specs.Prelude.{◌≡◌, vec_len};
ghost use Rattle.meet_place.specs.Ledgers.{AreOf};

use crate::growth::{Day, came_back, ends, list, made, takes_turn};
use meet_cells::ParkGate;
use meet_shop::{Ask, Shop, Told, gates};
use meet_sync::{Back, Blanks, Chronicle, Ledgers, NewQueue, Seat};
use meet_tickets::{Deed, MOST_RECORDS, Order, Refusal};
use std::alloc::Global;
use std::marker::Brand;
use std::process::Abort;
use std::sync::Wait;
use std::test::*;

/// A seat that came back as it was, with one receipt, makes a checkpoint again.
fn folds_again<N: Ledgers, R: Abort + Wait>(
    rt: &R,
    shop: &Shop<ParkGate, N>,
    seat: Seat<Deed, N>,
) -> (Seat<Deed, N>, u64) {
    assert_eq!(rt; (seat.receipts().len(), seat.folded()), (1, 0));
    match shop.checkpoint(rt, seat) {
        Ok(made) => made,
        Err(_) => panic!(rt; "nothing is folded away"),
    }
}

/// A seat that has one receipt makes a checkpoint of one record, at the second try where there was no memory at first:
/// then the seat came back as it was.
fn folds<N: Ledgers, R: Abort + Wait>(
    rt: &R,
    shop: &Shop<ParkGate, N>,
    seat: Seat<Deed, N>,
) -> Back<Deed, N> {
    let (seat, gone) = match shop.checkpoint(rt, seat) {
        Ok(made) => made,
        Err(refused) => folds_again(rt, shop, came_back(rt, refused)),
    };
    assert_eq!(rt; (gone, seat.folded()), (1, 1));
    Back::Free(seat)
}

/// A queue of this order is made, its one seat asks and folds the record away, and it is closed: what it leaves.
fn cuts<N: Ledgers, R: Abort + Wait>(
    rt: &R,
    alloc: Global,
    parts: NewQueue<ParkGate>,
    day: Day<'_>,
) -> Chronicle<u64>
    requires ledgers { AreOf N.name N.folds N.moments N.parts parts.blanks }
    requires one_each { N.parts ≡ vec_len parts.gates }
    requires cap { N.cap ≡ day.cap }
{
    let mut backs = list(rt, alloc, parts.gates.len());
    let (shop, mut seats) = made::<N>(rt, alloc, parts, day);
    let seat = seats.pop().expect(rt, "no seat");
    let turn = *day.turns.first().expect(rt, "no turn");
    let back = match takes_turn(rt, &shop, seat, turn) {
        Back::Free(seat) => folds(rt, &shop, seat),
        Back::Held(_) => panic!(rt; "it waits"),
    };
    backs.push(back).expect(rt, "no room");
    ends(rt, alloc, shop, backs)
}

/// So is one whose seat polls in vain.
fn forgets<R: Abort + Wait>(rt: &R, alloc: Global, order: Order) {
    let day = Day {
        order,
        cap: MOST_RECORDS,
        turns: &[(1, Ask::Poll, Told::Failed(None))],
        drained: &[],
        left: &[],
    };
    let gates = match gates::<ParkGate>(alloc, 1) {
        Ok(gates) => gates,
        Err(_) => gates::<ParkGate>(alloc, 1).expect(rt, "memory"),
    };
    let blanks = Blanks::new(gates.len() as u64);
    let chronicle = cuts::<Brand, R>(rt, alloc, NewQueue { gates, blanks }, day);
    assert_eq!(rt; (chronicle.base.gone, chronicle.records.len()), (1, 0));
    match chronicle.erased(alloc) {
        Ok(_) => panic!(rt; "it is erased"),
        Err(why) => assert!(rt; why == Refusal::HasBase),
    }
}

#[test]
fn a_seat_that_makes_a_checkpoint(rt: HostRuntime) {
    forgets(&rt, rt.alloc(), Order::Fair);
    forgets(&rt, rt.alloc(), Order::Unfair);
    forgets(&rt, rt.alloc(), Order::Transfer);
}
