//! Exchangers of numbers, their seats, and exchanges with what they should return.

ghost use Rattle.std.specs.Prelude.{◌≡◌};
ghost use Rattle.meet_exchange.specs.Seats.{AreNew};

use meet_exchanger::{Exchanged, Exchanger, Seat};
use std::alloc::Global;
use std::process::Abort;
use std::sync::Wait;
use std::test::*;
use std::thread;
use std::time::{Clock, Duration};

/// Takes the last of an exchanger's new seats out.
pub fn last_seat(
    rt: &impl Abort,
    exchanger: &Exchanger<u64>,
    seats: &mut Vec<Seat<u64>>,
) -> Seat<u64>
    requires { AreNew exchanger.now.id 0 seats.old.items }
    ensures seat { result.arena ≡ exchanger.now.id }
    ensures rest { AreNew exchanger.now.id 0 seats.new.items }
{
    match seats.pop() {
        Some(seat) => seat,
        None => panic!(rt; "no seat"),
    }
}

/// An exchanger, and its seats 0 and 1.
pub fn opened(rt: &impl Abort, alloc: Global) -> (Exchanger<u64>, Seat<u64>, Seat<u64>)
    ensures zero { result.1.arena ≡ result.0.id }
    ensures one { result.2.arena ≡ result.0.id }
{
    let Ok((exchanger, mut seats)) = Exchanger::<u64>::new(alloc, 2) else {
        panic!(rt; "no exchanger")
    };
    let one = last_seat(rt, &exchanger, &mut seats);
    let zero = last_seat(rt, &exchanger, &mut seats);
    (exchanger, zero, one)
}

/// The other seat's item, without a limit; none if it is refused.
pub fn met<R: Wait + Clock>(
    rt: &R,
    exchanger: &Exchanger<u64>,
    seat: Seat<u64>,
    item: u64,
) -> Option<u64>
    requires { seat.arena ≡ exchanger.now.id }
{
    match exchanger.exchange(rt, seat, item) {
        Exchanged::Swapped(_, got) => Some(got),
        _ => None,
    }
}

/// The same, a tenth of a second later, so that the other seat's thread has parked.
pub fn met_late<R: Wait + Clock>(
    rt: &R,
    exchanger: &Exchanger<u64>,
    seat: Seat<u64>,
    item: u64,
) -> Option<u64>
    requires { seat.arena ≡ exchanger.now.id }
{
    thread::sleep(rt, Duration::from_millis(100));
    met(rt, exchanger, seat, item)
}

/// What a seat has after an exchange with a limit in milliseconds: the other's item, or its own; and whether it is the
/// other's.
pub fn has_after<R: Wait + Clock>(
    rt: &R,
    exchanger: &Exchanger<u64>,
    seat: Seat<u64>,
    item: u64,
    limit: u64,
) -> (Seat<u64>, u64, bool)
    requires { seat.arena ≡ exchanger.now.id }
    ensures { result.0.arena ≡ exchanger.now.id }
{
    match exchanger.exchange_for(rt, seat, item, limit) {
        Exchanged::Swapped(seat, got) => (seat, got, true),
        Exchanged::TimedOut(seat, own) => (seat, own, false),
        Exchanged::Worn(seat, own) => (seat, own, false),
        Exchanged::Memory(seat, own) => (seat, own, false),
    }
}

/// An exchange of 5 that times out, with its item.
pub fn times_out<R: Wait + Clock + Abort>(
    rt: &R,
    exchanger: &Exchanger<u64>,
    seat: Seat<u64>,
    limit: u64,
) -> Seat<u64>
    requires { seat.arena ≡ exchanger.now.id }
    ensures { result.arena ≡ exchanger.now.id }
{
    let (seat, own, met) = has_after(rt, exchanger, seat, 5, limit);
    assert_eq!(rt; (own, met), (5, false));
    seat
}
