//! The seats of an arena, free or with an offer that stands.

ghost use Rattle.std.specs.Prelude.{◌≡◌, ◌<◌, ◌-◌, vec_len};
ghost use Rattle.std.specs.Vec.{vec_capacity};
ghost use Rattle.meet_exchange.specs.Seats.{IsIdle, HasOffer, PendingView, SeatView, view_of};

use crate::records::Part;
use crate::steps::Token;
use meet_tickets::SeatNo;
use std::fmt;
use std::fmt::{Debug, Formatter, Write};
use std::marker::Model;

/// A seat's number, its list and its token, whatever it has in hand.
#[derive(Drop)]
pub(crate) struct Inner<T> {
    pub(crate) number: SeatNo,
    pub(crate) list: Vec<Part>,
    pub(crate) token: Token<T>,
}

/// A seat (a participant) of an arena, which alone makes its seats, each number once. It keeps what it did, in order.
#[derive(Drop)]
pub struct Seat<T> {
    inner: Inner<T>,
}

impl<T> Model for Seat<T> {
    ghost use Rattle.std.specs.Prelude.{◌-◌, vec_len};
    ghost use Rattle.std.specs.Vec.{vec_capacity};
    ghost use Rattle.meet_exchange.specs.Seats.{IsIdle, SeatView, view_of};

    ghost Value = { SeatView };

    ghost view = { λ s. view_of s.inner.token.table_id s.inner.number s.inner.list.items
        (vec_capacity s.inner.list - vec_len s.inner.list) s.inner.token.me };

    ghost invariant = { λ s. IsIdle s.inner.number s.inner.list.items s.inner.token.me };
}

/// The seat's number alone.
impl<T> Debug for Seat<T> {
    fn fmt<W: Write>(&self, f: &mut Formatter<W>) -> fmt::Result {
        write!(f, "Seat({})", self.inner.number.number())
    }
}

impl<T> Seat<T> {
    /// This seat, which has nothing in hand.
    pub(crate) fn new(inner: Inner<T>) -> Self
        requires { IsIdle inner.number inner.list.items inner.token.me }
        ensures { result ≡ view_of inner.token.table_id inner.number inner.list.items
            (vec_capacity inner.list - vec_len inner.list) inner.token.me }
    {
        Seat { inner }
    }

    /// What it is made of.
    pub(crate) fn open(self) -> Inner<T>
        ensures view { self ≡ view_of result.token.table_id result.number result.list.items
            (vec_capacity result.list - vec_len result.list) result.token.me }
        ensures idle { IsIdle result.number result.list.items result.token.me }
    {
        self.inner
    }

    /// Returns the seat's number, which is below the number of seats that its arena was made with.
    pub fn number(&self) -> SeatNo
        ensures { result ≡ self.now.number }
    {
        self.inner.number
    }

    /// Returns what the seat did so far, in order.
    pub fn parts(&self) -> &[Part]
        ensures { result.now ≡ self.now.list }
    {
        self.inner.list.as_slice()
    }
}

/// A seat whose item was posted. Its list has room for the completion of the round.
#[derive(Drop)]
pub struct Pending<T> {
    seat: Inner<T>,
    slot: usize,
    round: u64,
    mark: u64,
}

impl<T> Model for Pending<T> {
    ghost use Rattle.std.specs.Prelude.{◌<◌, ◌-◌, vec_len};
    ghost use Rattle.std.specs.Vec.{vec_capacity};
    ghost use Rattle.meet_exchange.specs.Seats.{HasOffer, PendingView, view_of};

    ghost Value = { PendingView };

    ghost view = { λ p. record {
      seat = view_of p.seat.token.table_id p.seat.number p.seat.list.items
          (vec_capacity p.seat.list - vec_len p.seat.list) p.seat.token.me;
      slot = p.slot;
      round = p.round;
      mark = p.mark;
    } };

    ghost invariant = { λ p. HasOffer p.seat.number p.slot p.round p.mark p.seat.list.items p.seat.token.me
        × (vec_len p.seat.list < vec_capacity p.seat.list) };
}

/// A seat's offer, taken apart.
#[derive(Drop)]
pub(crate) struct Offer<T> {
    pub(crate) inner: Inner<T>,
    pub(crate) slot: usize,
    pub(crate) round: u64,
    pub(crate) mark: u64,
}

/// The seat's number, and the slot and the round of its offer.
impl<T> Debug for Pending<T> {
    fn fmt<W: Write>(&self, f: &mut Formatter<W>) -> fmt::Result {
        let Pending {
            seat,
            slot,
            round,
            ..
        } = self;
        write!(f, "Pending({}, {slot}, {round})", seat.number.number())
    }
}

impl<T> Pending<T> {
    /// This seat, with its offer.
    pub(crate) fn new(offer: Offer<T>) -> Self
        requires offers { HasOffer offer.inner.number offer.slot offer.round offer.mark offer.inner.list.items
            offer.inner.token.me }
        requires room { vec_len offer.inner.list < vec_capacity offer.inner.list }
        ensures seat { result.seat ≡ view_of offer.inner.token.table_id offer.inner.number offer.inner.list.items
            (vec_capacity offer.inner.list - vec_len offer.inner.list) offer.inner.token.me }
        ensures stands { (result.slot ≡ offer.slot) × (result.round ≡ offer.round) × (result.mark ≡ offer.mark) }
    {
        let Offer {
            inner,
            slot,
            round,
            mark,
        } = offer;
        Pending {
            seat: inner,
            slot,
            round,
            mark,
        }
    }

    /// What it is made of.
    pub(crate) fn open(self) -> Offer<T>
        ensures seat { self.seat ≡ view_of result.inner.token.table_id result.inner.number result.inner.list.items
            (vec_capacity result.inner.list - vec_len result.inner.list) result.inner.token.me }
        ensures stands { (self.slot ≡ result.slot) × (self.round ≡ result.round) × (self.mark ≡ result.mark) }
        ensures offers { HasOffer result.inner.number result.slot result.round result.mark result.inner.list.items
            result.inner.token.me }
        ensures room { vec_len result.inner.list < vec_capacity result.inner.list }
    {
        let Pending {
            seat: inner,
            slot,
            round,
            mark,
        } = self;
        Offer {
            inner,
            slot,
            round,
            mark,
        }
    }

    /// Returns the seat's number.
    pub fn number(&self) -> SeatNo
        ensures { result ≡ self.now.seat.number }
    {
        self.seat.number
    }

    /// Returns the slot in which the item was posted.
    pub fn slot(&self) -> usize
        ensures { result ≡ self.now.slot }
    {
        self.slot
    }

    /// Returns the item's mark.
    pub fn mark(&self) -> u64
        ensures { result ≡ self.now.mark }
    {
        self.mark
    }

    /// Returns what the seat did so far, in order.
    pub fn parts(&self) -> &[Part]
        ensures { result.now ≡ self.now.seat.list }
    {
        self.seat.list.as_slice()
    }
}

/// A seat that is given back.
#[derive(Debug, Drop)]
pub enum Back<T> {
    /// A seat without an offer.
    Free(Seat<T>),
    /// A seat whose offer stands.
    Held(Pending<T>),
}

impl<T> Back<T> {
    ghost use Rattle.meet_exchange.specs.Closed.{IsBack, seat_of};

    /// Returns what the seat did so far, in order.
    pub fn parts(&self) -> &[Part]
        ensures { result.now ≡ (seat_of self.now).list }
    {
        match self {
            Back::Free(seat) => seat.parts(),
            Back::Held(pending) => pending.parts(),
        }
    }

    /// What it is made of.
    pub(crate) fn open(self) -> Inner<T>
        ensures { IsBack self result.number result.list.items result.token }
    {
        match self {
            Back::Free(seat) => seat.open(),
            Back::Held(pending) => pending.open().inner,
        }
    }
}
