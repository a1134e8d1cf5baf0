//! Two threads at a transfer queue.

ghost use Rattle.std.specs.Prelude.{◌≡◌, None, IfOk, vec_len};
ghost use Rattle.meet_place.specs.Ledgers.{AreOf};
ghost use Rattle.meet_tickets.specs.Bases.{IsLegalOn};
ghost use Rattle.meet_core.specs.QueueSteps.{bounded_kind};

use meet_cells::ParkGate;
use meet_sync::{Back, Chronicle, End, Ledgers, NewQueue, Seat, SeatRefused, TransferQueue};
use meet_tickets::{Deed, Marked, Refusal};
use std::alloc::Global;
use std::mem::ManuallyDrop;
use std::sync::Wait;
use std::thread;
use std::thread::Threads;
use std::time::Clock;

/// A parcel: its number, by which records name it, and its weight.
#[derive(Drop)]
pub struct Parcel {
    pub mark: u64,
    pub grams: u64,
}

impl Marked for Parcel {
    ghost mark_of = { λ parcel. parcel.mark };

    fn mark(&self) -> u64 {
        self.mark
    }
}

/// What the threads are to do.
#[derive(Clone, Copy)]
pub struct Plan {
    /// How many parcels are given, each after the one before it was taken or returned.
    pub gives: u64,
    /// How many are taken.
    pub takes: u64,
    /// How long a thread waits for the other each time, in milliseconds.
    pub patience: u64,
    /// How many records the queue takes, 1 to 1,048,576.
    pub cap: u64,
}

/// Parcels that a thread has in hand: how many, and their weight.
#[derive(Clone, Copy, PartialEq, Debug)]
pub struct Hand {
    pub parcels: u64,
    pub grams: u64,
}

impl Hand {
    /// None.
    const EMPTY: Hand = Hand {
        parcels: 0,
        grams: 0,
    };

    /// These, and the one that a call ended with, if it did.
    fn with(self, parcel: Option<Parcel>) -> Hand {
        match parcel {
            Some(parcel) => Hand {
                parcels: self.parcels.saturating_add(1),
                grams: self.grams.saturating_add(parcel.grams),
            },
            None => self,
        }
    }
}

/// The outcome of a plan.
#[derive(Drop)]
pub struct Passed {
    /// What the consumer took.
    pub came: Hand,
    /// What was returned to the producer.
    pub back: Hand,
    /// Why a thread stopped before its end, if one did.
    pub refused: Option<Refusal>,
    /// What the queue leaves.
    pub chronicle: Chronicle<Parcel>,
}

/// The queue that the threads share.
type Counter<N> = TransferQueue<Parcel, ParkGate, N>;

/// What a thread returns in any case: its seat, without which the queue can't be closed; the parcels that it has in
/// hand; and why it stopped before its end, if it did.
#[derive(Drop)]
struct Part<N: Ledgers> {
    seat: Seat<Deed, N>,
    hand: Hand,
    refused: Option<Refusal>,
}

/// The parcel that a call ended with: the one that was taken or returned.
fn parcel_of(end: End<Parcel>) -> Option<Parcel> {
    match end {
        End::Got(_, parcel) => Some(parcel),
        End::Failed(back) => back,
        End::EntryInterrupted(back) => back,
        End::Interrupted(back) => back,
        End::TimedOut(back) => back,
        End::Gave(_) => None,
        End::Kept => None,
        End::Done => None,
    }
}

/// A thread whose call failed stops: its parcel is returned.
fn stopped<N: Ledgers>(refused: SeatRefused<Parcel, N>, hand: Hand) -> Part<N> {
    let SeatRefused { why, seat, item } = refused;
    Part {
        seat,
        hand: hand.with(item),
        refused: Some(why),
    }
}

/// Transfers parcels, each after the one before it was taken or returned. Those that were returned are in hand then.
/// After each call the queue is tended, so that its log never fills.
fn send<N: Ledgers, R: Wait + Clock>(
    rt: &R,
    counter: &Counter<N>,
    first: Seat<Deed, N>,
    plan: Plan,
) -> Part<N> {
    let mut seat = first;
    let mut hand = Hand::EMPTY;
    for mark in 1..=plan.gives {
        let parcel = Parcel { mark, grams: 250 };
        match counter.transfer_for(rt, seat, parcel, plan.patience) {
            Ok(ended) => {
                hand = hand.with(parcel_of(ended.end)); // End::Gave(with), End::Done, End::TimedOut(Some(parcel)), ..
                match counter.tend(rt, ended.seat) {
                    Ok(tended) => seat = tended,
                    Err(refused) => return stopped(refused, hand),
                }
            }
            Err(refused) => return stopped(refused, hand),
        }
    }
    Part {
        seat,
        hand,
        refused: None,
    }
}

/// Takes parcels, which are in hand then. After each call the queue is tended.
fn receive<N: Ledgers, R: Wait + Clock>(
    rt: &R,
    counter: &Counter<N>,
    first: Seat<Deed, N>,
    plan: Plan,
) -> Part<N> {
    let mut seat = first;
    let mut hand = Hand::EMPTY;
    for _ in 0..plan.takes {
        match counter.poll_for(rt, seat, plan.patience) {
            Ok(ended) => {
                hand = hand.with(parcel_of(ended.end)); // End::Got(with, parcel), End::TimedOut(None), ..
                match counter.tend(rt, ended.seat) {
                    Ok(tended) => seat = tended,
                    Err(refused) => return stopped(refused, hand),
                }
            }
            Err(refused) => return stopped(refused, hand),
        }
    }
    Part {
        seat,
        hand,
        refused: None,
    }
}

/// Passes parcels between two threads, over a queue of these parts, which has two seats, and returns the outcome. It
/// fails only if the queue can't be made or closed: an allocation fails, or the cap isn't sound. Its records are a
/// legal history, whatever the threads' order.
pub fn pass<N, R>(
    rt: &R,
    alloc: Global,
    parts: NewQueue<ParkGate>,
    plan: Plan,
) -> Result<Passed, Refusal>
where
    N: Ledgers + Send + Sync,
    R: Threads + Wait + Clock + Sync,
    requires ledgers { AreOf N.name N.folds N.moments N.parts parts.blanks }
    requires one_each { N.parts ≡ vec_len parts.gates }
    requires cap { N.cap ≡ plan.cap }
    requires two { vec_len parts.gates ≡ 2 }
    ensures { IfOk result (λ passed.
        IsLegalOn (bounded_kind None) passed.chronicle.base passed.chronicle.records.items) }
{
    let mut backs = Vec::with_capacity(alloc, 2).map_err(|_| Refusal::Memory)?;
    let made = TransferQueue::<Parcel, ParkGate, N>::with_cap(alloc, parts, plan.cap);
    let (counter, mut seats) = match made {
        Ok(made) => made,
        Err(refused) => return Err(refused.into_why()), // the gates and the ledgers are dropped
    };
    let taker = seats.pop().unwrap();
    let giver = seats.pop().unwrap();
    let shared = &counter;
    let (sent, received) = thread::join(
        rt,
        move || send(rt, shared, giver, plan),
        move || receive(rt, shared, taker, plan),
    );
    backs.push_reserved(Back::Free(sent.seat));
    backs.push_reserved(Back::Free(received.seat));
    match counter.close(alloc, backs) {
        Ok(chronicle) => Ok(Passed {
            came: received.hand,
            back: sent.hand,
            refused: sent.refused.or(received.refused),
            chronicle,
        }), // chronicle.records, chronicle.lists, chronicle.left
        Err(fault) => {
            let why = fault.why();
            let _kept = ManuallyDrop::new(fault);
            Err(why)
        }
    }
}
