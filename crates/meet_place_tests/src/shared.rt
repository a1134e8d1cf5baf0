//! Threads that add to one till, and one that waits for its sum.

ghost use Rattle.std.specs.Prelude.{◌≡◌, ◌+◌, ◌≤◌, IfOk, IfSome, vec_len};
ghost use Rattle.meet_place.specs.Ledgers.{AreOf};

use crate::till::{Amount, GOAL, Till};
use meet_book::Book;
use meet_cells::ParkGate;
use meet_place::{Back, Blanks, CloseFault, Closed, Ledgers, NewPlace, Pending, Place, Seat};
use meet_tickets::{Refusal, Refused, Ticket};
use std::alloc::Global;
use std::fmt::Display;
use std::marker::Brand;
use std::mem::ManuallyDrop;
use std::process::Abort;
use std::sync::Wait;
use std::sync::atomic::{AtomicU64, Ordering};
use std::thread::Threads;
use std::time::{Clock, Duration};
use std::{io, thread};

/// A till that threads share.
pub type Shop<N> = Place<Till, ParkGate, N>;

/// Adds an amount: the sum, which is no less.
fn add<N: Ledgers, R: Wait>(
    rt: &R,
    shop: &Shop<N>,
    seat: &mut Seat<Amount, N>,
    amount: u64,
) -> Result<u64, Refusal>
    ensures { IfOk result (λ sum. amount ≤ sum) }
{
    seat.reserve(1)?;
    match shop.locked_step(rt, seat, amount) {
        Ok((added, woken)) => {
            shop.wake(woken);
            Ok(added.sum)
        }
        Err(refused) => Err(refused.why),
    }
}

/// Adds an amount where there is less than so much.
fn add_below<N: Ledgers, R: Wait>(
    rt: &R,
    shop: &Shop<N>,
    seat: &mut Seat<Amount, N>,
    amount: u64,
    limit: u64,
) -> Option<u64>
    ensures { IfSome result (λ sum. sum ≤ limit + amount) }
{
    seat.reserve(1).ok()?;
    let mut held = shop.hold(rt);
    if held.probe().sum >= limit {
        return None;
    }
    match held.step(seat, amount) {
        Ok(added) => Some(added.sum),
        Err(_) => None,
    }
}

/// Adds an amount so often: how often it was added.
fn add_all<N: Ledgers, R: Wait>(
    rt: &R,
    shop: &Shop<N>,
    first: Seat<Amount, N>,
    amount: u64,
    times: u64,
) -> (Seat<Amount, N>, u64) {
    let mut seat = first;
    let mut made = 0u64;
    for _ in 0..times {
        if add(rt, shop, &mut seat, amount).is_ok() {
            made = made.saturating_add(1);
        }
    }
    (seat, made)
}

/// Waits until the sum is the goal: whether it is.
fn await_goal<N: Ledgers, R: Wait + Clock>(
    rt: &R,
    shop: &Shop<N>,
    first: Seat<Amount, N>,
    ticket: Ticket,
) -> (Seat<Amount, N>, bool) {
    let mut seat = first;
    if seat.reserve(1).is_err() {
        return (seat, false);
    }
    let pending = Pending::new(seat, ticket, None);
    for _ in rt.forever() {
        if shop.look(rt, |till| till.sum) >= GOAL {
            break;
        }
        shop.wait(rt, &pending, None);
    }
    let (seat, _, _) = pending.into_parts();
    (seat, true)
}

/// Keeps a value from being let go: what stands on a ledger of a generic function gets no proof of that.
pub fn keep<X: Drop>(value: X) {
    let _kept = ManuallyDrop::new(value);
}

/// How a place ended.
#[derive(Clone, Copy, PartialEq, Debug)]
enum Ending {
    /// It has so many records, lists and things that were left, the first of which is this sum.
    Closed(usize, usize, Option<u64>),
    /// So many seats of so many were given back.
    Missing(u64, u64),
}

/// Closes a place.
fn closed<N: Ledgers>(
    rt: &impl Abort,
    alloc: Global,
    shop: Shop<N>,
    backs: Vec<Back<Amount, N>>,
) -> Ending {
    match shop.close(alloc, backs) {
        Ok(whole) => {
            let Closed {
                base: _,
                records,
                lists,
                left,
            } = whole;
            Ending::Closed(records.len(), lists.len(), left.first().copied())
        }
        Err(fault) => match fault {
            CloseFault::SeatMissing {
                have,
                made,
                place,
                seats: _,
            } => {
                keep(place);
                Ending::Missing(have, made)
            }
            CloseFault::Memory { .. } => panic!(rt; "memory"),
            CloseFault::Differs { .. } => panic!(rt; "a list differs"),
        },
    }
}

/// So many gates.
fn parking(rt: &impl Abort, alloc: Global, count: usize) -> Vec<ParkGate> {
    let mut gates = Vec::new(alloc);
    for _ in 0..count {
        gates.push(ParkGate::new()).expect(rt, "memory");
    }
    gates
}

/// Why a place with these gates isn't made, and how many of them come back.
fn refusal<N: Ledgers>(
    rt: &impl Abort,
    alloc: Global,
    gates: Vec<ParkGate>,
    blanks: Blanks,
) -> Option<(Refusal, usize)>
    requires ledgers { AreOf N.name N.folds N.moments N.parts blanks }
    requires one_each { N.parts ≡ vec_len gates }
    requires cap { N.cap ≡ 100 }
{
    let till = Till::new(gates.len() as u64).expect(rt, "till");
    let book = Book::new(alloc, till, 100);
    match Shop::<N>::new(
        alloc,
        NewPlace {
            book,
            gates,
            blanks,
        },
    ) {
        Ok((shop, _)) => {
            keep(shop);
            None
        }
        Err(refused) => {
            let Refused { why, back } = refused;
            Some((why, back.gates.len()))
        }
    }
}

/// Why a place with so many gates isn't made, and how many of them come back.
fn refusal_of(rt: &impl Abort, alloc: Global, count: usize) -> Option<(Refusal, usize)> {
    let gates = parking(rt, alloc, count);
    let blanks = Blanks::new(gates.len() as u64);
    refusal::<Brand>(rt, alloc, gates, blanks)
}

#[test]
fn places_have_seats(rt: HostRuntime) {
    let alloc = rt.alloc();
    assert_eq!(rt; refusal_of(&rt, alloc, 0), Some((Refusal::BadSizes, 0)));
    assert_eq!(rt; refusal_of(&rt, alloc, 1), None);
    assert_eq!(rt; refusal_of(&rt, alloc, 65_536), None);
    assert_eq!(rt;
        refusal_of(&rt, alloc, 65_537),
        Some((Refusal::BadSizes, 65_537))
    );
}

/// Two seats that met: how often one added, and whether the other saw the goal.
struct Met<N: Ledgers> {
    adder: Seat<Amount, N>,
    waiter: Seat<Amount, N>,
    made: u64,
    came: bool,
}

/// One thread adds 10 so often, and another waits for the goal; then it adds 1, but not below 1.
fn meet<N: Ledgers + Send + Sync, R: Threads + Wait + Clock + Sync>(
    rt: &R,
    shop: &Shop<N>,
    adder: Seat<Amount, N>,
    waiter: Seat<Amount, N>,
    ticket: Ticket,
    times: u64,
) -> Met<N> {
    let (added, waited) = thread::join(
        rt,
        move || add_all(rt, shop, adder, 10, times),
        move || await_goal(rt, shop, waiter, ticket),
    );
    let (adder, made) = added;
    let (mut waiter, seen) = waited;
    let late = add_below(rt, shop, &mut waiter, 1, 1);
    let more = add(rt, shop, &mut waiter, 1);
    Met {
        adder,
        waiter,
        made,
        came: seen && late.is_none() && more.is_ok(),
    }
}

/// A place of two seats, and these.
fn of_two<N: Ledgers>(
    rt: &impl Abort,
    alloc: Global,
    blanks: Blanks,
) -> (Shop<N>, Seat<Amount, N>, Seat<Amount, N>)
    requires ledgers { AreOf N.name N.folds N.moments N.parts blanks }
    requires two { N.parts ≡ 2 }
    requires cap { N.cap ≡ 1000000 }
{
    let till = Till::new(2).expect(rt, "till");
    let mut gates = Vec::with_capacity(alloc, 2).expect(rt, "memory");
    gates.push_reserved(ParkGate::new());
    gates.push_reserved(ParkGate::new());
    let parts = NewPlace {
        book: Book::new(alloc, till, 1_000_000),
        gates,
        blanks,
    };
    match Shop::<N>::new(alloc, parts) {
        Ok((shop, mut seats)) => {
            let waiter = seats.pop().expect(rt, "no seat");
            let adder = seats.pop().expect(rt, "no seat");
            (shop, adder, waiter)
        }
        Err(_) => panic!(rt; "it isn't made"),
    }
}

/// Of two seats the waiter is given back, or both, or none.
fn given_back<N: Ledgers>(
    rt: &impl Abort,
    alloc: Global,
    adder: Seat<Amount, N>,
    waiter: Seat<Amount, N>,
    given: usize,
) -> Vec<Back<Amount, N>> {
    let mut backs = Vec::with_capacity(alloc, 2).expect(rt, "memory");
    if given > 0 {
        backs.push_reserved(Back::Free(waiter));
    }
    if given > 1 {
        backs.push_reserved(Back::Free(adder));
    }
    backs
}

/// Two seats meet, and then this many are given back.
fn meeting<N: Ledgers + Send + Sync, R: Abort + Threads + Wait + Clock + Sync>(
    rt: &R,
    alloc: Global,
    blanks: Blanks,
    times: u64,
    given: usize,
) -> (u64, bool, Ending)
    requires ledgers { AreOf N.name N.folds N.moments N.parts blanks }
    requires two { N.parts ≡ 2 }
    requires cap { N.cap ≡ 1000000 }
{
    let ticket = Ticket::new(1).expect(rt, "no such ticket number");
    let (shop, adder, waiter) = of_two::<N>(rt, alloc, blanks);
    let Met {
        adder,
        waiter,
        made,
        came,
    } = meet(rt, &shop, adder, waiter, ticket, times);
    let backs = given_back(rt, alloc, adder, waiter, given);
    (made, came, closed(rt, alloc, shop, backs))
}

/// The same, over a ledger of its own.
fn play<R: Abort + Threads + Wait + Clock + Sync>(
    rt: &R,
    alloc: Global,
    times: u64,
    given: usize,
) -> (u64, bool, Ending) {
    meeting::<Brand, _>(rt, alloc, Blanks::new(2), times, given)
}

/// A runtime whose clock goes on by 50 milliseconds each time it is read: so a yield takes as long, as if other programs
/// wanted all processors.
#[derive(Drop)]
struct Slow<'a, R: Abort + Threads + Wait + Sync> {
    rt: &'a R,
    read: AtomicU64,
}

impl<R: Abort + Threads + Wait + Sync> Abort for Slow<'_, R> {
    fn abort(&self) -> ! {
        self.rt.abort()
    }

    fn exit(&self, code: i32) -> ! {
        self.rt.exit(code)
    }

    fn panic<D: Display + Drop>(&self, message: D) -> ! {
        self.rt.panic(message)
    }
}

impl<R: Abort + Threads + Wait + Sync> Threads for Slow<'_, R> {}

impl<R: Abort + Threads + Wait + Sync> Wait for Slow<'_, R> {}

impl<R: Abort + Threads + Wait + Sync> Clock for Slow<'_, R> {
    fn monotonic(&self) -> io::Result<Duration> {
        let read = self.read.fetch_add(1, Ordering::SeqCst);
        Ok(Duration::from_millis(read.saturating_mul(50)))
    }

    fn since_1970(&self) -> io::Result<Duration> {
        self.monotonic()
    }
}

#[test]
fn one_adds_and_one_waits(rt: HostRuntime) {
    let got = play(&rt, rt.alloc(), 2_000, 2);
    assert_eq!(rt; got, (2_000, true, Ending::Closed(2_001, 2, Some(20_001))));
}

#[test]
fn one_adds_and_one_waits_where_yields_take_long(rt: HostRuntime) {
    let slow = Slow {
        rt: &rt,
        read: AtomicU64::new(0),
    };
    let got = play(&slow, rt.alloc(), 2_000, 2);
    assert_eq!(rt; got, (2_000, true, Ending::Closed(2_001, 2, Some(20_001))));
}

#[test]
fn a_seat_is_missing(rt: HostRuntime) {
    let got = play(&rt, rt.alloc(), 100, 1);
    assert_eq!(rt; got, (100, true, Ending::Missing(1, 2)));
}
