//! Waits at the gate of a seat whose ticket is open, and wakes, which a caller makes itself: as by `LockSupport.park`
//! and `unpark`.

ghost use Rattle.std.specs.Prelude.{◌≡◌, vec_len};
ghost use Rattle.meet_place.specs.Ledgers.{AreOf};

use meet_cells::ParkGate;
use meet_shop::{Ask, Shop, Told, answer, gates, keep, two_backs, two_seats};
use meet_sync::{Back, Blanks, Ledgers, NewQueue, Seat, Turn};
use meet_tickets::{Deed, Order, SeatNo};
use std::alloc::Global;
use std::marker::Brand;
use std::process::Abort;
use std::sync::Wait;
use std::test::*;
use std::time::{Clock, Duration, Instant};

/// Why the first wait ended, which was woken before, and the second, and how long that lasted.
type Waited = (Turn, Turn, Duration);

/// Waits twice at the gate of an open ticket, for half a minute and for a fifth of a second at most; it is woken before
/// the first wait.
fn waits<N: Ledgers, R: Abort + Wait + Clock>(
    rt: &R,
    shop: &Shop<ParkGate, N>,
    back: Back<Deed, N>,
) -> (Back<Deed, N>, Waited) {
    let Back::Held(pending) = back else {
        panic!(rt; "no ticket is open")
    };
    shop.wake(SeatNo::new(0).expect(rt, "a number"));
    let first = shop.wait(rt, &pending, Some(30_000));
    let start = Instant::now(rt).expect(rt, "a clock");
    let second = shop.wait(rt, &pending, Some(200));
    let lasted = start.elapsed(rt).expect(rt, "a clock");
    (Back::Held(pending), (first, second, lasted))
}

/// The first seat takes where nobody gives, waits twice, and takes its ticket back.
fn parks<N: Ledgers, R: Abort + Wait + Clock>(
    rt: &R,
    shop: &Shop<ParkGate, N>,
    seat: Seat<Deed, N>,
) -> (Back<Deed, N>, Waited) {
    let (back, told) = answer(rt, shop, Back::Free(seat), Ask::Take);
    assert_eq!(rt; told, Told::Parks(1));
    let (back, waited) = waits(rt, shop, back);
    let (back, told) = answer(rt, shop, back, Ask::Cancel);
    assert_eq!(rt; told, Told::Back(None));
    (back, waited)
}

/// The first of two seats waits, and the shop is closed.
fn dealt<N: Ledgers, R: Abort + Wait + Clock>(
    rt: &R,
    alloc: Global,
    shop: Shop<ParkGate, N>,
    made: Vec<Seat<Deed, N>>,
) -> Result<Waited, &'static str> {
    let (first, second) = two_seats(made).expect(rt, "no seats");
    let (back, waited) = parks(rt, &shop, first);
    match two_backs(alloc, back, Back::Free(second)) {
        Ok(backs) => match shop.close(alloc, backs) {
            Ok(_) => Ok(waited),
            Err(fault) => Err(fault.into_why().name()),
        },
        Err(why) => {
            keep(shop);
            Err(why)
        }
    }
}

/// A shop of this order is made, and the first of its two seats waits.
fn dealing<N: Ledgers, R: Abort + Wait + Clock>(
    rt: &R,
    alloc: Global,
    order: Order,
    parts: NewQueue<ParkGate>,
) -> Result<Waited, &'static str>
    requires ledgers { AreOf N.name N.folds N.moments N.parts parts.blanks }
    requires one_each { N.parts ≡ vec_len parts.gates }
    requires cap { N.cap ≡ 100 }
{
    match Shop::<ParkGate, N>::with_cap(alloc, order, parts, 100) {
        Ok((shop, seats)) => dealt(rt, alloc, shop, seats),
        Err(refused) => Err(refused.why.name()),
    }
}

/// A shop of this order over two gates, at the first of which its seat waits.
fn parked<R: Abort + Wait + Clock>(rt: &R, alloc: Global, order: Order) -> Result<Waited, Fail> {
    let gates = gates::<ParkGate>(alloc, 2)?;
    let blanks = Blanks::new(gates.len() as u64);
    let parts = NewQueue { gates, blanks };
    let waited = dealing::<Brand, _>(rt, alloc, order, parts)?;
    Ok(waited)
}

/// A wake is kept for the next wait, and a wait with a limit is over by then, and not before.
#[test]
fn a_wake_is_kept_and_a_limit_passes(rt: HostRuntime) -> Result<(), Fail> {
    for order in [Order::Fair, Order::Unfair, Order::Transfer] {
        let (first, second, lasted) = parked(&rt, rt.alloc(), order)?;
        assert_eq!(rt; (first, second), (Turn::Woken, Turn::Elapsed));
        assert!(rt; lasted >= Duration::from_millis(200));
        assert!(rt; lasted < Duration::from_secs(30));
    }
    Ok(())
}
