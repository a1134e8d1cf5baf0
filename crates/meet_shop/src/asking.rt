//! A seat asks a queue, whatever its order.

use crate::answers::{Came, asked, followed, interrupted, withdrawn};
use crate::asks::{Ask, Told};
use crate::shops::Shop;
use meet_sync::{Back, Gate, Ledgers, Pending, Request, Seat};
use meet_tickets::{Deed, SeatNo, Ticket};
use std::sync::Wait;

/// A seat whose ticket is still open.
fn reopened<N: Ledgers>(
    seat: Seat<Deed, N>,
    ticket: Ticket,
    mark: Option<u64>,
    told: Told,
) -> Came<N> {
    let mut seat = seat;
    match seat.reserve(1) {
        Ok(()) => (Back::Held(Pending::new(seat, ticket, mark)), told),
        Err(why) => (Back::Free(seat), Told::Refused(why, None)),
    }
}

/// A seat without a ticket asks.
fn answer_free<G: Gate, N: Ledgers, R: Wait>(
    rt: &R,
    shop: &Shop<G, N>,
    seat: Seat<Deed, N>,
    ask: Ask,
) -> Came<N> {
    match ask {
        Ask::Put(item) => asked(shop.request(rt, seat, Request::Put(item))),
        Ask::Give(item) => asked(shop.request(rt, seat, Request::Give(item))),
        Ask::Offer(item) => asked(shop.request(rt, seat, Request::Offer(item))),
        Ask::Take => asked(shop.request(rt, seat, Request::Take)),
        Ask::Poll => asked(shop.request(rt, seat, Request::Poll)),
        Ask::Interrupt(target) => match SeatNo::new(target) {
            Some(target) => interrupted(shop.interrupt(rt, seat, target)),
            None => (Back::Free(seat), Told::Unasked),
        },
        Ask::Follow => (Back::Free(seat), Told::Unasked),
        Ask::Cancel => (Back::Free(seat), Told::Unasked),
        Ask::Expire => (Back::Free(seat), Told::Unasked),
    }
}

/// A seat whose ticket is open asks for something else than its end.
fn answer_parted<G: Gate, N: Ledgers, R: Wait>(
    rt: &R,
    shop: &Shop<G, N>,
    pending: Pending<Deed, N>,
    ask: Ask,
) -> Came<N> {
    let (seat, ticket, mark) = pending.into_parts();
    let (back, told) = answer_free(rt, shop, seat, ask);
    match back {
        Back::Free(seat) => reopened(seat, ticket, mark, told),
        Back::Held(pending) => (Back::Held(pending), told),
    }
}

/// A seat asks: the seat, and what it is told.
pub fn answer<G: Gate, N: Ledgers, R: Wait>(
    rt: &R,
    shop: &Shop<G, N>,
    back: Back<Deed, N>,
    ask: Ask,
) -> Came<N> {
    match back {
        Back::Free(seat) => answer_free(rt, shop, seat, ask),
        Back::Held(pending) => match ask {
            Ask::Follow => followed(shop.follow_up(rt, pending)),
            Ask::Cancel => withdrawn(shop.cancel(rt, pending)),
            Ask::Expire => withdrawn(shop.expire(rt, pending)),
            _ => answer_parted(rt, shop, pending, ask),
        },
    }
}
