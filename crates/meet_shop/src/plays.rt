//! Seats ask a queue, one after another, and then it is closed: its records are checked once more, and what is left.

ghost use Rattle.std.specs.Prelude.{◌≡◌, vec_len};
ghost use Rattle.meet_place.specs.Ledgers.{AreOf};

use crate::asking::answer;
use crate::asks::{Ask, Row, Told};
use crate::obeys::obeys;
use crate::shops::{Shop, keep};
use crate::unlike::Unlike;
use crate::waiting::{Idle, gates};
use meet_book::Receipt;
use meet_history::{Standing, check};
use meet_sync::{Back, Blanks, Chronicle, Gate, Ledgers, Left, LeftStanding, NewQueue, Seat};
use meet_tickets::{Base, Deed, Kind, Order};
use std::alloc::Global;
use std::marker::Brand;
use std::sync::Wait;
use std::test::Fail;

/// An item that is left: its giver's ticket, its number, and how it stood in the queue.
pub type Found = (u64, u64, LeftStanding);

/// The seats of a shop, in the order of their numbers.
pub type Seats<N> = Vec<Option<Back<Deed, N>>>;

/// What seats ask of a queue, and what it comes to.
#[derive(Clone, Copy)]
pub struct Story<'a> {
    pub order: Order,
    pub seats: u64,
    pub cap: u64,
    /// What is asked, and told.
    pub rows: &'a [Row],
    /// What the records leave.
    pub standing: Standing,
    /// What is left, by rising ticket.
    pub left: &'a [Found],
}

/// Nothing stands there.
pub const NOTHING: Standing = Standing {
    waiting: 0,
    uncollected: 0,
    kept: 0,
};

/// The seats, each ready to ask.
pub fn seated<N: Ledgers>(
    alloc: Global,
    made: Vec<Seat<Deed, N>>,
) -> Result<Seats<N>, &'static str> {
    let mut seats = Vec::new(alloc);
    for seat in made {
        seats.push(Some(Back::Free(seat))).map_err(|_| "memory")?;
    }
    Ok(seats)
}

/// All seats, to be given back, the last first.
pub fn given<N: Ledgers>(alloc: Global, all: Seats<N>) -> Result<Vec<Back<Deed, N>>, &'static str> {
    let mut seats = all;
    let mut backs = Vec::new(alloc);
    for _ in 0..seats.len() {
        if let Some(Some(back)) = seats.pop() {
            backs.push(back).map_err(|_| "memory")?;
        }
    }
    Ok(backs)
}

/// The two seats of a queue, the first and the second.
pub fn two_seats<N: Ledgers>(
    made: Vec<Seat<Deed, N>>,
) -> Result<(Seat<Deed, N>, Seat<Deed, N>), &'static str> {
    let mut seats = made;
    match (seats.pop(), seats.pop()) {
        (Some(second), Some(first)) => Ok((first, second)),
        _ => Err("there are no two seats"),
    }
}

/// Two seats, to be given back, the second first.
pub fn two_backs<N: Ledgers>(
    alloc: Global,
    first: Back<Deed, N>,
    second: Back<Deed, N>,
) -> Result<Vec<Back<Deed, N>>, &'static str> {
    let mut backs = Vec::new(alloc);
    backs.push(second).map_err(|_| "memory")?;
    backs.push(first).map_err(|_| "memory")?;
    Ok(backs)
}

/// A seat asks: what it is told.
pub fn ask_one<G: Gate + Drop, N: Ledgers, R: Wait>(
    rt: &R,
    shop: &Shop<G, N>,
    seat: &mut Option<Back<Deed, N>>,
    ask: Ask,
) -> Told {
    match seat.take() {
        Some(back) => {
            let (back, told) = answer(rt, shop, back, ask);
            *seat = Some(back);
            told
        }
        None => Told::Unasked,
    }
}

/// Seats ask, one after another, and are told this.
pub fn ask_all<G: Gate + Drop, N: Ledgers, R: Wait>(
    rt: &R,
    shop: &Shop<G, N>,
    seats: &mut Seats<N>,
    rows: &[Row],
) -> Result<(), Unlike> {
    for (number, ask, wanted) in rows {
        let told = match seats.get_mut(*number as usize) {
            Some(seat) => ask_one(rt, shop, seat, *ask),
            None => Told::Unasked,
        };
        if told != *wanted {
            return Err(Unlike::Told(*number, told));
        }
    }
    Ok(())
}

/// The list has these items, in this order, and nothing else.
pub fn has(list: Vec<Left<u64>>, wanted: &[Found]) -> Result<(), Unlike> {
    if list.len() != wanted.len() {
        return Err(Unlike::Left(list.len()));
    }
    for (left, found) in list.into_iter().zip(wanted) {
        let seen = (left.ticket.number(), left.item, left.standing);
        if seen != *found {
            return Err(Unlike::Found(seen));
        }
    }
    Ok(())
}

/// The list of this seat has receipts of its records alone.
fn is_of_seat(
    chronicle: &Chronicle<u64>,
    number: usize,
    list: &[Receipt<Deed>],
) -> Result<(), Unlike> {
    for receipt in list.iter() {
        let place = receipt.place() as usize;
        let record = chronicle.records.get(place.saturating_sub(1)).copied();
        let seat = receipt.entry().seat.number() as usize;
        if seat != number || record != Some(receipt.entry()) {
            return Err(Unlike::Receipt(number, place));
        }
    }
    Ok(())
}

/// Each list is of one seat, in the order of their numbers, and has the receipts of its records, one after another.
fn are_of_seats(chronicle: &Chronicle<u64>) -> Result<(), Unlike> {
    let mut receipts = 0usize;
    for (number, list) in chronicle.lists.iter().enumerate() {
        receipts = receipts.saturating_add(list.len());
        is_of_seat(chronicle, number, list.as_slice())?;
    }
    if receipts != chronicle.records.len() {
        return Err(Unlike::Receipts(receipts));
    }
    Ok(())
}

/// The records are legal and leave this, and these items are left: how many records there are.
pub fn tells(alloc: Global, chronicle: Chronicle<u64>, story: Story<'_>) -> Result<usize, Unlike> {
    let kind = Kind {
        order: story.order,
        bound: None,
    };
    let found = check(
        alloc,
        kind,
        &Base::empty(alloc),
        chronicle.records.as_slice(),
    );
    if found != Ok(story.standing) {
        return Err(Unlike::Checked(found));
    }
    if chronicle.lists.len() as u64 != story.seats {
        return Err(Unlike::Lists(chronicle.lists.len()));
    }
    are_of_seats(&chronicle)?;
    obeys(alloc, &chronicle, kind)?;
    let count = chronicle.records.len();
    has(chronicle.left, story.left)?;
    Ok(count)
}

/// A shop is closed with these seats: what it leaves.
pub fn ended<G: Gate + Drop, N: Ledgers>(
    alloc: Global,
    shop: Shop<G, N>,
    backs: Vec<Back<Deed, N>>,
) -> Result<Chronicle<u64>, &'static str> {
    match shop.close(alloc, backs) {
        Ok(chronicle) => Ok(chronicle),
        Err(fault) => {
            let why = fault.why();
            keep(fault);
            Err(why.name())
        }
    }
}

/// A shop is closed with all its seats.
pub fn closed<G: Gate + Drop, N: Ledgers>(
    alloc: Global,
    shop: Shop<G, N>,
    seats: Seats<N>,
) -> Result<Chronicle<u64>, &'static str> {
    match given(alloc, seats) {
        Ok(backs) => ended(alloc, shop, backs),
        Err(why) => {
            keep(shop);
            Err(why)
        }
    }
}

/// A shop is made, its seats ask, and it is closed.
fn playing<N: Ledgers, R: Wait>(
    rt: &R,
    alloc: Global,
    parts: NewQueue<Idle>,
    story: Story<'_>,
) -> Result<Chronicle<u64>, Unlike>
    requires ledgers { AreOf N.name N.folds N.moments N.parts parts.blanks }
    requires one_each { N.parts ≡ vec_len parts.gates }
    requires cap { N.cap ≡ story.cap }
{
    let (shop, made) = match Shop::<Idle, N>::with_cap(alloc, story.order, parts, story.cap) {
        Ok(made) => made,
        Err(refused) => return Err(Unlike::Why(refused.why.name())),
    };
    match seated(alloc, made) {
        Ok(mut seats) => {
            let told = ask_all(rt, &shop, &mut seats, story.rows);
            let chronicle = closed(alloc, shop, seats)?;
            told?;
            Ok(chronicle)
        }
        Err(why) => {
            keep(shop);
            Err(Unlike::Why(why))
        }
    }
}

/// A story takes place: what it leaves.
pub fn played<R: Wait>(rt: &R, alloc: Global, story: Story<'_>) -> Result<Chronicle<u64>, Unlike> {
    let gates = gates::<Idle>(alloc, story.seats)?;
    let blanks = Blanks::new(gates.len() as u64);
    let parts = NewQueue { gates, blanks };
    playing::<Brand, _>(rt, alloc, parts, story)
}

/// A story takes place: how many records it leaves.
pub fn play<R: Wait>(rt: &R, alloc: Global, story: Story<'_>) -> Result<usize, Unlike> {
    let chronicle = played(rt, alloc, story)?;
    tells(alloc, chronicle, story)
}

/// These seats ask a queue of this order, which has so many records then, and nothing is left.
pub fn told<R: Wait>(
    rt: &R,
    alloc: Global,
    order: Order,
    rows: &[Row],
    records: usize,
) -> Result<(), Fail> {
    let story = Story {
        order,
        seats: 4,
        cap: 100,
        rows,
        standing: NOTHING,
        left: &[],
    };
    let count = play(rt, alloc, story)?;
    if count != records {
        return Err(Unlike::Records(count).into());
    }
    Ok(())
}
