//! The queues, called directly.

use crate::answers::{
    followed, gave, interrupted, offered, polled, put, refused, returned, taken_back, took,
};
use crate::parcels::{Ask, Parcel, Row, Told, numbered, seat, ticket};
use meet_core::Dual;
use meet_line::{FairLine, Line, StackLine};
use meet_tickets::SeatNo;
use meet_transfer::Transfer;
use std::process::Abort;

/// A synchronous queue in fair mode, and one in the default mode.
pub type Fair = Dual<Parcel, FairLine<Parcel>>;

pub type Unfair = Dual<Parcel, StackLine<Parcel>>;

/// Where seats ask, and are told something.
pub trait Place {
    /// What this seat is told.
    fn answer<A: Abort>(&mut self, rt: &A, at: SeatNo, ask: Ask) -> Told;
}

/// A place that can be looked at.
pub trait Shown: Place {
    /// What the place shows of itself.
    fn shown(&self) -> [u64; 6];
}

/// Seats ask, one after another, and are told this.
pub fn plays<P: Place>(rt: &impl Abort, place: &mut P, rows: &[Row]) {
    for (number, ask, wanted) in rows {
        let told = place.answer(rt, seat(rt, *number), *ask);
        assert_eq!(rt; told, *wanted, "seat {number}");
    }
}

impl<L: Line<Parcel>> Place for Dual<Parcel, L> {
    fn answer<A: Abort>(&mut self, rt: &A, at: SeatNo, ask: Ask) -> Told {
        match ask {
            Ask::Give(serial) => self.give(at, numbered(serial)).map_or_else(returned, gave),
            Ask::Put(serial) => self.give(at, numbered(serial)).map_or_else(returned, gave),
            Ask::Offer(serial) => self
                .offer(at, numbered(serial))
                .map_or_else(returned, offered),
            Ask::Take => self.take(at).map_or_else(refused, took),
            Ask::Poll => self.poll(at).map_or_else(refused, polled),
            Ask::Follow(own) => self
                .follow_up(at, ticket(rt, own))
                .map_or_else(refused, followed),
            Ask::Cancel(own) => self
                .cancel(at, ticket(rt, own))
                .map_or_else(refused, taken_back),
            Ask::Expire(own) => self
                .expire(at, ticket(rt, own))
                .map_or_else(refused, taken_back),
            Ask::Interrupt(target) => self
                .interrupt(seat(rt, target))
                .map_or_else(refused, interrupted),
        }
    }
}

impl<L: Line<Parcel>> Shown for Dual<Parcel, L> {
    fn shown(&self) -> [u64; 6] {
        [
            self.room(),
            self.waiting(),
            self.uncollected(),
            self.owed(),
            self.givers(),
            self.tickets_left(),
        ]
    }
}

impl Place for Transfer<Parcel> {
    fn answer<A: Abort>(&mut self, rt: &A, at: SeatNo, ask: Ask) -> Told {
        match ask {
            Ask::Give(serial) => self
                .transfer(at, numbered(serial))
                .map_or_else(returned, gave),
            Ask::Put(serial) => self.put(at, numbered(serial)).map_or_else(returned, put),
            Ask::Offer(serial) => self
                .try_transfer(at, numbered(serial))
                .map_or_else(returned, offered),
            Ask::Take => self.take(at).map_or_else(refused, took),
            Ask::Poll => self.poll(at).map_or_else(refused, polled),
            Ask::Follow(own) => self
                .follow_up(at, ticket(rt, own))
                .map_or_else(refused, followed),
            Ask::Cancel(own) => self
                .cancel(at, ticket(rt, own))
                .map_or_else(refused, taken_back),
            Ask::Expire(own) => self
                .expire(at, ticket(rt, own))
                .map_or_else(refused, taken_back),
            Ask::Interrupt(target) => self
                .interrupt(seat(rt, target))
                .map_or_else(refused, interrupted),
        }
    }
}

impl Shown for Transfer<Parcel> {
    fn shown(&self) -> [u64; 6] {
        [
            self.room(),
            self.waiting(),
            self.uncollected(),
            self.owed(),
            self.kept(),
            self.tickets_left(),
        ]
    }
}
