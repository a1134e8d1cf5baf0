//! A place bears one refusal of memory: nothing is lost by it, and the call that is made again succeeds.
//! `dev/check/refuse` runs this test with each allocation refused in turn.

ghost use Rattle.std.specs.Prelude.{◌≡◌, ◌<◌, [], vec_len};
ghost use Rattle.meet_place.specs.Ledgers.{AreOf};

use crate::shared::Shop;
use crate::till::{Amount, Till};
use meet_book::Book;
use meet_cells::ParkGate;
use meet_place::{Back, Blanks, CloseFault, Closed, Ledgers, NewPlace, Seat};
use meet_tickets::Refusal;
use std::alloc::Global;
use std::marker::Brand;
use std::process::Abort;
use std::sync::Wait;

/// A place, at the second try where there was no memory at first.
fn made<N: Ledgers>(
    rt: &impl Abort,
    alloc: Global,
    parts: NewPlace<Till, ParkGate>,
) -> (Shop<N>, Vec<Seat<Amount, N>>)
    requires fresh { (parts.book.base ≡ 0) × (parts.book.records ≡ []) }
    requires ledgers { AreOf N.name N.folds N.moments N.parts parts.blanks }
    requires one_each { N.parts ≡ vec_len parts.gates }
    requires seats { parts.book.object.seats ≡ vec_len parts.gates }
    requires cap { N.cap ≡ parts.book.cap }
{
    match Shop::<N>::new(alloc, parts) {
        Ok(made) => made,
        Err(refused) => {
            assert!(rt; refused.why == Refusal::Memory);
            match Shop::<N>::new(alloc, refused.back) {
                Ok(made) => made,
                Err(_) => panic!(rt; "memory"),
            }
        }
    }
}

/// Room for a receipt, at the second try where there was no memory at first.
fn reserves<N: Ledgers>(rt: &impl Abort, seat: &mut Seat<Amount, N>)
    ensures { 0 < seat.new.room }
{
    if let Err(why) = seat.reserve(1) {
        assert!(rt; why == Refusal::Memory);
        seat.reserve(1).expect(rt, "memory");
    }
}

/// Adds 5, at the second try where there was no memory at first: the sum.
fn adds<N: Ledgers>(rt: &(impl Abort + Wait), shop: &Shop<N>, seat: &mut Seat<Amount, N>) -> u64
    requires { 0 < seat.old.room }
{
    match shop.locked_step(rt, seat, 5) {
        Ok((added, _)) => added.sum,
        Err(refused) => {
            assert!(rt; refused.why == Refusal::Memory);
            assert_eq!(rt; refused.back, 5);
            match shop.locked_step(rt, seat, refused.back) {
                Ok((added, _)) => added.sum,
                Err(_) => panic!(rt; "memory"),
            }
        }
    }
}

/// Closes a place, at the second try where there was no memory at first.
fn ends<N: Ledgers>(
    rt: &impl Abort,
    alloc: Global,
    shop: Shop<N>,
    backs: Vec<Back<Amount, N>>,
) -> Closed<Till> {
    match shop.close(alloc, backs) {
        Ok(whole) => whole,
        Err(fault) => match fault {
            CloseFault::Memory { place, seats } => match place.close(alloc, seats) {
                Ok(whole) => whole,
                Err(_) => panic!(rt; "memory"),
            },
            CloseFault::SeatMissing { .. } => panic!(rt; "a seat is missing"),
            CloseFault::Differs { .. } => panic!(rt; "a list differs"),
        },
    }
}

/// A list for one thing, at the second try where there was no memory at first.
fn list_for_one<X: Drop>(rt: &impl Abort, alloc: Global) -> Vec<X>
    ensures { vec_len result ≡ 0 }
{
    match Vec::with_capacity(alloc, 1) {
        Ok(list) => list,
        Err(_) => Vec::with_capacity(alloc, 1).expect(rt, "memory"),
    }
}

/// A seat makes room, and adds 5, which is the sum.
fn uses<N: Ledgers>(rt: &(impl Abort + Wait), shop: &Shop<N>, seat: &mut Seat<Amount, N>) {
    reserves(rt, seat);
    assert_eq!(rt; adds(rt, shop, seat), 5);
}

/// What a place leaves in which a seat added once.
fn has_one(rt: &impl Abort, whole: &Closed<Till>) {
    assert_eq!(rt; whole.records.len(), 1);
    assert_eq!(rt; whole.lists.len(), 1);
    assert_eq!(rt; whole.left.first().copied(), Some(5));
}

/// A place of one seat is made, used and closed.
fn lives<N: Ledgers, R: Abort + Wait>(rt: &R, alloc: Global, parts: NewPlace<Till, ParkGate>)
    requires fresh { (parts.book.base ≡ 0) × (parts.book.records ≡ []) }
    requires ledgers { AreOf N.name N.folds N.moments N.parts parts.blanks }
    requires one_each { N.parts ≡ vec_len parts.gates }
    requires seats { parts.book.object.seats ≡ vec_len parts.gates }
    requires cap { N.cap ≡ parts.book.cap }
{
    let mut backs = list_for_one(rt, alloc);
    let (shop, mut seats) = made::<N>(rt, alloc, parts);
    let mut seat = seats.pop().expect(rt, "no seat");
    uses(rt, &shop, &mut seat);
    backs.push(Back::Free(seat)).expect(rt, "memory");
    has_one(rt, &ends(rt, alloc, shop, backs));
}

#[test]
fn a_place_lives(rt: HostRuntime) {
    let alloc = rt.alloc();
    let mut gates = list_for_one(&rt, alloc);
    match gates.push(ParkGate::new()) {
        Ok(()) => {}
        Err(_) => panic!(rt; "memory"),
    }
    let till = Till::new(1).expect(&rt, "till");
    let parts = NewPlace {
        book: Book::new(alloc, till, 10),
        gates,
        blanks: Blanks::new(1),
    };
    lives::<Brand, _>(&rt, alloc, parts);
}
