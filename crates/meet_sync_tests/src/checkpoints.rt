//! Checkpoints and trims: a queue whose records are few goes on, and a seat lets go of its receipts.

ghost use Rattle.std.specs.Prelude.{◌≡◌, vec_len, IfOk};
ghost use Rattle.meet_tickets.specs.Bases.{no_base};
ghost use Rattle.meet_place.specs.Ledgers.{AreOf};

use meet_line::FairLine;
use meet_shop::{
    Ask, Idle, Seats, Shop, Told, Unlike, ask_all, closed, gates, keep, seated, trimmed,
};
use meet_sync::{Asked, Back, Blanks, Chronicle, Ledgers, NewQueue, Request, SyncQueue};
use meet_tickets::{Deed, Order, Refusal};
use std::alloc::Global;
use std::marker::Brand;
use std::process::Abort;
use std::sync::Wait;
use std::test::*;

/// A fair queue.
type Queue<N> = SyncQueue<u64, FairLine<u64>, Idle, N>;

/// A free seat makes a checkpoint: so many records are folded away by then, and so many of them count for the seat.
fn folds<N: Ledgers, R: Abort + Wait>(
    rt: &R,
    shop: &Shop<Idle, N>,
    seats: &mut Seats<N>,
    number: usize,
    wanted: (u64, u64),
) {
    let Some(place) = seats.get_mut(number) else {
        panic!(rt; "there is no such seat");
    };
    match place.take() {
        Some(Back::Free(seat)) => match shop.checkpoint(rt, seat) {
            Ok((seat, gone)) => {
                assert_eq!(rt; (gone, seat.folded()), wanted);
                *place = Some(Back::Free(seat));
            }
            Err(_) => panic!(rt; "nothing is folded away"),
        },
        _ => panic!(rt; "it isn't free"),
    }
}

/// A seat of so many receipts lets go of those whose records are folded away: so many are left.
fn trims<N: Ledgers, R: Abort + Wait>(
    rt: &R,
    shop: &Shop<Idle, N>,
    seats: &mut Seats<N>,
    number: usize,
    before: usize,
    left: usize,
) {
    let Some(place) = seats.get_mut(number) else {
        panic!(rt; "there is no such seat");
    };
    match place.take() {
        Some(back) => {
            assert_eq!(rt; back.receipts().len(), before);
            let back = trimmed(rt, shop, back);
            assert_eq!(rt; back.receipts().len(), left);
            *place = Some(back);
        }
        None => panic!(rt; "it isn't here"),
    }
}

/// Two givers wait, the records are folded away, a third waits, and a taker has no room until they are folded away
/// again; then it meets the first, who follows up and lets go of the receipt that was folded away. The second lets go
/// of its only one, and still waits.
fn folding<N: Ledgers, R: Abort + Wait>(
    rt: &R,
    shop: &Shop<Idle, N>,
    seats: &mut Seats<N>,
) -> Result<(), Unlike> {
    let full = Told::Refused(Refusal::HistoryFull, None);
    ask_all(
        rt,
        shop,
        seats,
        &[
            (0, Ask::Give(1), Told::Parks(1)),
            (1, Ask::Give(2), Told::Parks(2)),
        ],
    )?;
    folds(rt, shop, seats, 2, (2, 2));
    ask_all(
        rt,
        shop,
        seats,
        &[(2, Ask::Give(3), Told::Parks(3)), (3, Ask::Take, full)],
    )?;
    folds(rt, shop, seats, 4, (3, 1));
    ask_all(
        rt,
        shop,
        seats,
        &[
            (3, Ask::Take, Told::Got(1, 1)),
            (0, Ask::Follow, Told::Done),
        ],
    )?;
    trims(rt, shop, seats, 0, 2, 1);
    trims(rt, shop, seats, 1, 1, 0);
    ask_all(rt, shop, seats, &[(1, Ask::Follow, Told::NotYet)])
}

/// A checkpoint where nothing was recorded folds nothing away; then a giver waits.
fn folding_nothing<N: Ledgers, R: Abort + Wait>(
    rt: &R,
    shop: &Shop<Idle, N>,
    seats: &mut Seats<N>,
) -> Result<(), Unlike> {
    folds(rt, shop, seats, 0, (0, 0));
    ask_all(rt, shop, seats, &[(0, Ask::Give(1), Told::Parks(1))])
}

/// A fair queue with room for five records, and what it came to: where its first records are folded away, or where none
/// is.
fn five_records<N: Ledgers, R: Abort + Wait>(
    rt: &R,
    alloc: Global,
    parts: NewQueue<Idle>,
    early: bool,
) -> Result<Chronicle<u64>, Unlike>
    requires ledgers { AreOf N.name N.folds N.moments N.parts parts.blanks }
    requires one_each { N.parts ≡ vec_len parts.gates }
    requires cap { N.cap ≡ 5 }
{
    let (shop, made) = match Shop::<Idle, N>::with_cap(alloc, Order::Fair, parts, 5) {
        Ok(made) => made,
        Err(refused) => return Err(Unlike::Why(refused.why.name())),
    };
    match seated(alloc, made) {
        Ok(mut seats) => {
            let told = if early {
                folding_nothing(rt, &shop, &mut seats)
            } else {
                folding(rt, &shop, &mut seats)
            };
            let chronicle = closed(alloc, shop, seats)?;
            told?;
            Ok(chronicle)
        }
        Err(why) => {
            keep(shop);
            Err(Unlike::Why(why))
        }
    }
}

/// Where no seat makes a checkpoint, nothing is folded away.
fn whole<N: Ledgers, R: Wait>(
    rt: &R,
    alloc: Global,
    parts: NewQueue<Idle>,
) -> Result<Chronicle<u64>, &'static str>
    requires ledgers { AreOf N.name N.folds N.moments N.parts parts.blanks }
    requires one_each { N.parts ≡ vec_len parts.gates }
    requires cap { N.cap ≡ 5 }
    ensures { IfOk result (λ chronicle. chronicle.base ≡ no_base) }
{
    let (queue, mut made) = match Queue::<N>::with_cap(alloc, parts, 5) {
        Ok(made) => made,
        Err(_) => return Err("no queue"),
    };
    let Some(seat) = made.pop() else {
        return Err("no seat");
    };
    let Ok(Asked::Parked(seat)) = queue.request(rt, seat, Request::Give(1)) else {
        return Err("0 put 1");
    };
    let Ok(mut backs) = Vec::with_capacity(alloc, 1) else {
        return Err("memory");
    };
    backs.push_reserved(Back::Held(seat));
    match queue.close(alloc, backs) {
        Ok(chronicle) => Ok(chronicle),
        Err(fault) => Err(fault.why().name()),
    }
}

#[test]
fn a_checkpoint_before_any_record(rt: HostRuntime) -> Result<(), Fail> {
    let gates = gates::<Idle>(rt.alloc(), 1)?;
    let blanks = Blanks::new(gates.len() as u64);
    let chronicle = five_records::<Brand, _>(&rt, rt.alloc(), NewQueue { gates, blanks }, true)?;
    assert_eq!(&rt; chronicle.base.gone, 0);
    assert_eq!(&rt; chronicle.base.last.number(), 0);
    assert_eq!(&rt; chronicle.records.len(), 1);
    assert!(&rt; chronicle.erased(rt.alloc()).is_ok());
    Ok(())
}

#[test]
fn without_a_checkpoint_all_is_there(rt: HostRuntime) -> Result<(), Fail> {
    let gates = gates::<Idle>(rt.alloc(), 1)?;
    let blanks = Blanks::new(gates.len() as u64);
    let chronicle = whole::<Brand, _>(&rt, rt.alloc(), NewQueue { gates, blanks })?;
    assert_eq!(&rt; chronicle.base.gone, 0);
    assert_eq!(&rt; chronicle.records.len(), 1);
    Ok(())
}

#[test]
fn a_queue_of_five_records_goes_on(rt: HostRuntime) -> Result<(), Fail> {
    let gates = gates::<Idle>(rt.alloc(), 5)?;
    let blanks = Blanks::new(gates.len() as u64);
    let chronicle = five_records::<Brand, _>(&rt, rt.alloc(), NewQueue { gates, blanks }, false)?;
    assert_eq!(&rt; chronicle.base.gone, 3);
    assert_eq!(&rt; chronicle.base.last.number(), 3);
    assert_eq!(&rt; chronicle.base.line.len(), 3);
    assert_eq!(&rt; chronicle.records.len(), 2);
    let places = chronicle.lists.first().map(|list| list.len());
    assert_eq!(&rt; places, Some(1));
    let places = chronicle.lists.get(1).map(|list| list.len());
    assert_eq!(&rt; places, Some(0));
    let Some(receipt) = chronicle.lists.first().and_then(|list| list.first()) else {
        panic!(&rt; "the first seat has no receipt");
    };
    assert_eq!(&rt; receipt.place(), 5);
    assert_eq!(&rt; chronicle.left.len(), 2);
    match chronicle.erased(rt.alloc()) {
        Ok(_) => panic!(&rt; "it is erased"),
        Err(why) => assert_eq!(&rt; why, Refusal::HasBase),
    }
    Ok(())
}
