//! Whole calls, by the names that they have in Java.

use crate::answers::{Came, whole};
use crate::asks::Told;
use crate::shops::Shop;
use meet_line::Line;
use meet_sync::{Back, Gate, Ledgers, Seat, SyncQueue, TransferQueue};
use meet_tickets::Deed;
use std::sync::Wait;
use std::time::Clock;

/// What a seat calls, with an item, and with a limit in milliseconds.
#[derive(Clone, Copy)]
pub enum Call {
    Put(u64),
    Offer(u64),
    OfferFor(u64, u64),
    Transfer(u64),
    TryTransfer(u64),
    TransferFor(u64, u64),
    Take,
    Poll,
    PollFor(u64),
}

/// A call of a synchronous queue, which has no transfers.
fn synchronous<L: Line<u64>, G: Gate, N: Ledgers, R: Wait + Clock>(
    rt: &R,
    queue: &SyncQueue<u64, L, G, N>,
    seat: Seat<Deed, N>,
    call: Call,
) -> Came<N> {
    match call {
        Call::Put(item) => whole(queue.put(rt, seat, item)),
        Call::Offer(item) => whole(queue.offer(rt, seat, item)),
        Call::OfferFor(item, limit) => whole(queue.offer_for(rt, seat, item, limit)),
        Call::Take => whole(queue.take(rt, seat)),
        Call::Poll => whole(queue.poll(rt, seat)),
        Call::PollFor(limit) => whole(queue.poll_for(rt, seat, limit)),
        _ => (Back::Free(seat), Told::Unasked),
    }
}

/// A call of a transfer queue.
fn transferring<G: Gate, N: Ledgers, R: Wait + Clock>(
    rt: &R,
    queue: &TransferQueue<u64, G, N>,
    seat: Seat<Deed, N>,
    call: Call,
) -> Came<N> {
    match call {
        Call::Put(item) => whole(queue.put(rt, seat, item)),
        Call::Offer(item) => whole(queue.offer(rt, seat, item)),
        Call::OfferFor(item, limit) => whole(queue.offer_for(rt, seat, item, limit)),
        Call::Transfer(item) => whole(queue.transfer(rt, seat, item)),
        Call::TryTransfer(item) => whole(queue.try_transfer(rt, seat, item)),
        Call::TransferFor(item, limit) => whole(queue.transfer_for(rt, seat, item, limit)),
        Call::Take => whole(queue.take(rt, seat)),
        Call::Poll => whole(queue.poll(rt, seat)),
        Call::PollFor(limit) => whole(queue.poll_for(rt, seat, limit)),
    }
}

/// A seat without a ticket calls: the seat, and how the call ended.
fn called_by<G: Gate, N: Ledgers, R: Wait + Clock>(
    rt: &R,
    shop: &Shop<G, N>,
    seat: Seat<Deed, N>,
    call: Call,
) -> Came<N> {
    match shop {
        Shop::Fair(queue) => synchronous(rt, queue, seat, call),
        Shop::Unfair(queue) => synchronous(rt, queue, seat, call),
        Shop::Transfer(queue) => transferring(rt, queue, seat, call),
    }
}

/// A seat calls: the seat, and how the call ended.
pub fn called<G: Gate, N: Ledgers, R: Wait + Clock>(
    rt: &R,
    shop: &Shop<G, N>,
    back: Back<Deed, N>,
    call: Call,
) -> Came<N> {
    match back {
        Back::Free(seat) => called_by(rt, shop, seat, call),
        Back::Held(pending) => (Back::Held(pending), Told::Unasked),
    }
}
